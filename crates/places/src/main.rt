// The program `places`: reads forms, a line each, and writes the answers of one index.
#![tactic(auto)]

ghost use Rattle.std.specs.Prelude.{◌≡◌, ◌≤◌, length, OnOk};
ghost use Rattle.answering.specs.Cited.{TakesPart};

use lines::KeptLine;
use replies::Output;
use std::io;
use std::process::ExitCode;

// The input is read, and the output written, in parts of at most so many bytes.
const PART_SIZE: usize = 65536;

// Says why reading or writing failed, where it did.
fn told<R: Eprint, T: Drop>(rt: &R, what: &str, outcome: io::Result<T>) -> io::Result<T>
    ensures { result ≡ outcome }
{
    if let Err(e) = &outcome {
        let _ = eprintln!(rt; "places: {what}: {e}");
    }
    outcome
}

// Writes the answers out.
fn write_part<R: Print + Eprint>(rt: &R, out: &Output) -> io::Result<()>
    requires { out.now.at ≤ length out.now.bytes.now }
{
    told(rt, "output", rt.write_all(&out.bytes[..out.at]))
}

// Answers a part of the input, behind what is kept of a line, and writes the answers as often as the output is full.
fn answer_part<R: Print + Eprint>(
    rt: &R,
    mem: &mut [u8],
    line: &mut KeptLine,
    input: &[u8],
    out: &mut Output,
) -> io::Result<()>
    requires { 4571 ≤ length out.old.bytes.now }
    ensures takes_part { OnOk result (TakesPart mem.old line.old input.now mem.new line.new) }
    ensures same_length { length out.new.bytes.now ≡ length out.old.bytes.now }
{
    let mut p = 0;
    while p < input.len() {
        p = answering::answer_lines(mem, line, input, p, out);
        write_part(rt, out)?;
    }
    Ok(())
}

// Reads all input, a part at a time, and writes the answers of each before the next is read. Stops where that fails.
fn run<R: Input + Print + Eprint>(rt: &R, mem: &mut [u8], out: &mut Output) -> io::Result<()>
    requires { 4571 ≤ length out.old.bytes.now }
{
    let mut reader = rt.reader();
    let mut input = [0u8; PART_SIZE];
    let mut line = KeptLine::new();
    for _ in 0..u64::MAX {
        let n = told(rt, "input", reading::read_part(&mut reader, &mut input))?;
        if n == 0 {
            answering::answer_end(mem, &line, out);
            return write_part(rt, out);
        }
        answer_part(rt, mem, &mut line, &input[..n], out)?;
    }
    Ok(())
}

fn main(rt: HostRuntime) -> ExitCode {
    let mut mem = [0u8; answering::MEMORY_SIZE];
    let mut bytes = [0u8; PART_SIZE];
    let mut out = Output {
        bytes: &mut bytes,
        at: 0,
    };
    // The memory is as large as the capacity of the program needs, so this is not refused.
    let _ = form_answers::open(&mut mem);
    match run(&rt, &mut mem, &mut out) {
        Ok(()) => ExitCode::SUCCESS,
        Err(_) => ExitCode::FAILURE,
    }
}

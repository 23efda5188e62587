// Replays the recordings of data/recordings, which stand there in the forms of `places`, and prints what each is answered.
// The line (new) opens a fresh index, and (save) prints the image. The answers that are expected are the published index's.
#![tactic(auto)]

ghost use Rattle.std.specs.Prelude.{◌≡◌, true, [], ◌∷◌, ◌+◌, ◌*◌, ◌≤◌, ◌<◌, length, IfOk};
ghost use Rattle.std.specs.Result.{result_unwrap_or};
ghost use Rattle.definitions.specs.Program.{hex, hex_digit};
ghost use Rattle.replies.specs.Outputs.{Writes};
ghost use Rattle.test_replay.specs.Replay.{is_word, image_line, save_answer, Replays, next_line, ReplaysNext};

use replies::Output;
use std::io;

// The longest image of an index of the program's capacity.
const IMAGE_SIZE: usize = 73600;
// Its line: two digits for each byte, and nine bytes around them.
const OUTPUT_SIZE: usize = 147209;

// Whether a line is a word.
fn is_word(line: &[u8], word: &[u8]) -> bool
    ensures { result ≡ is_word word.now line.now }
{
    line == word
}

// A lower-case hexadecimal digit.
fn digit(d: u8) -> u8
    requires { d < 16 }
    ensures { result ≡ hex_digit d }
{
    if d < 10 { b'0' + d } else { b'a' + (d - 10) }
}

fn put_byte(out: &mut Output, b: u8)
    requires { out.old.at + 2 ≤ length out.old.bytes.now }
    ensures { Writes out.old (hex (b ∷ [])) out.new }
{
    out.put_text(&[digit(b / 16), digit(b % 16)]);
}

fn put_image(out: &mut Output, image: &[u8])
    requires { out.old.at + 2 * length image.now + 9 ≤ length out.old.bytes.now }
    ensures { Writes out.old (image_line image.now) out.new }
{
    out.put_text(b"(image ");
    for b in image {
        put_byte(out, *b);
    }
    out.put_text(b")\n");
}

fn save(mem: &[u8], out: &mut Output)
    requires { out.old.at + 147209 ≤ length out.old.bytes.now }
    ensures written { Writes out.old (save_answer mem.now) out.new }
    ensures upper_bound { out.new.at ≤ length out.old.bytes.now }
{
    let mut image = [0u8; IMAGE_SIZE];
    match string_index::save(mem, &mut image) {
        Ok(n) => put_image(out, &image[..n.min(IMAGE_SIZE)]),
        Err(refusal) => out.put_refused(refusal),
    }
}

// Answers a line from the start of the output.
fn replay_line(mem: &mut [u8], line: &[u8], out: &mut Output)
    requires { 147209 ≤ length out.old.bytes.now }
    ensures { Replays mem.old line.now out.old mem.new out.new }
{
    out.at = 0;
    if is_word(line, b"(new)") {
        let _ = form_answers::open(mem);
    } else if is_word(line, b"(save)") {
        save(mem, out);
    } else {
        form_answers::answer(mem, line, out);
    }
}

fn print_answer<P: Print>(rt: &P, out: &Output) -> io::Result<()>
    requires { out.now.at ≤ length out.now.bytes.now }
{
    rt.write_all(&out.bytes[..out.at])
}

// Answers the line from index p on, and writes the answer out: where the next line begins, or why writing fails.
fn replay_next<P: Print>(
    rt: &P,
    mem: &mut [u8],
    input: &[u8],
    p: usize,
    out: &mut Output,
) -> io::Result<usize>
    requires { (p < length input.now) × (147209 ≤ length out.old.bytes.now) }
    ensures replays_next { ReplaysNext mem.old input.now p out.old mem.new out.new (result_unwrap_or result (length input.now)) }
    ensures taken { IfOk result (λ next. next ≡ next_line input.now p true) }
    ensures lower_bound { IfOk result (λ next. p < next) }
{
    let e = lines::line_end(input, p);
    replay_line(mem, &input[p..e], out);
    print_answer(rt, out)?;
    Ok(e + 1)
}

fn run<P: Print>(rt: &P, mem: &mut [u8], input: &[u8], out: &mut Output) -> io::Result<()>
    requires { 147209 ≤ length out.old.bytes.now }
{
    let mut p = 0;
    while p < input.len() {
        p = replay_next(rt, mem, input, p, out)?;
    }
    Ok(())
}

fn replay_all<P: Print>(rt: &P, input: &[u8]) -> io::Result<()> {
    let mut mem = [0u8; answering::MEMORY_SIZE];
    let mut bytes = [0u8; OUTPUT_SIZE];
    let mut out = Output {
        bytes: &mut bytes,
        at: 0,
    };
    // The memory is as large as the capacity of the program needs, so this is not refused.
    let _ = form_answers::open(&mut mem);
    run(rt, &mut mem, input, &mut out)
}

fn main(rt: HostRuntime) -> io::Result<()> {
    let mut bytes = [0u8; 524288];
    let n = reading::read_file(&rt, "recordings", &mut bytes)?;
    replay_all(&rt, &bytes[..n])
}

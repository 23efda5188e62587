// The answer to one form, a block, a finish or a find, on a memory.
#![tactic(auto)]

ghost use Rattle.std.specs.Prelude.{◌≡◌, ◌+◌, ◌≤◌, length};
ghost use Rattle.std.proofs.Math.Option.{some};
ghost use Rattle.definitions.specs.Program.{block, finish, find, program_capacity};
ghost use Rattle.definitions.specs.Refusals.{number_in};
ghost use Rattle.location.specs.Plain.{plain};
ghost use Rattle.memory_header.specs.Opening.{open_memory};
ghost use Rattle.replies.specs.Replies.{replies_bytes};
ghost use Rattle.form_answers.specs.Memory.{form_answer, memory_after_form, line_answer, memory_after_line};
ghost use Rattle.form_answers.specs.Answered.{AnsweredBy};

use definitions::Refusal;
use forms::Form;
use location::SpacetimeLocation;
use replies::Output;

// The bytes of scratch for 256 places.
const SCRATCH_SIZE: usize = 6144;

// How many rows a query may have.
const ROW_LIMIT: usize = 64;

// Opens the index of the program.
pub fn open(mem: &mut [u8]) -> Result<(), Refusal>
    ensures answer { number_in result ≡ (open_memory mem.old program_capacity).refusal }
    ensures memory { mem.new ≡ (open_memory mem.old program_capacity).memory }
{
    string_index::open(mem, 1000, 400)
}

fn answer_block(mem: &mut [u8], kind: u64, l: SpacetimeLocation, bytes: &[u8], out: &mut Output)
    requires { out.old.at + 4571 ≤ length out.old.bytes.now }
    ensures { AnsweredBy out.old (replies_bytes (form_answer mem.old (some (block kind (record { bytes = bytes.entry.now; at = plain l }))))) (memory_after_form mem.old (some (block kind (record { bytes = bytes.entry.now; at = plain l })))) out.new mem.new }
{
    match string_index::record(mem, kind, l, bytes) {
        Ok(()) => out.put_taken(),
        Err(refusal) => out.put_refused(refusal),
    }
}

fn answer_finish(mem: &mut [u8], out: &mut Output)
    requires { out.old.at + 4571 ≤ length out.old.bytes.now }
    ensures { AnsweredBy out.old (replies_bytes (form_answer mem.old (some finish))) (memory_after_form mem.old (some finish)) out.new mem.new }
{
    match string_index::finish(mem) {
        Ok(()) => out.put_finished(),
        Err(refusal) => out.put_refused(refusal),
    }
}

fn answer_find(mem: &[u8], q: &[u8], out: &mut Output)
    requires { out.old.at + 4571 ≤ length out.old.bytes.now }
    ensures { AnsweredBy out.old (replies_bytes (form_answer mem.now (some (find q.now)))) mem.now out.new mem.now }
{
    let mut scratch = [0u8; SCRATCH_SIZE];
    match finding::find(mem, q, &mut scratch, ROW_LIMIT) {
        Ok(count) => row_replies::put_rows(out, &scratch, count),
        Err(refusal) => out.put_refused(refusal),
    }
}

// Answers a line, where the output goes on.
// A line of 1,024 bytes has at most 511 pairs, so the buffer holds the bytes of every form.
pub fn answer(mem: &mut [u8], line: &[u8], out: &mut Output)
    requires { out.old.at + 4571 ≤ length out.old.bytes.now }
    ensures { AnsweredBy out.old (line_answer mem.old line.now) (memory_after_line mem.old line.now) out.new mem.new }
{
    let mut bytes = [0u8; 512];
    match forms::read_form(line, &mut bytes) {
        Some(
            Form::Block {
                kind,
                address,
                created_at,
                destroyed_at,
                length,
            },
        ) => {
            let l = SpacetimeLocation::new(address, created_at, destroyed_at);
            answer_block(mem, kind, l, &bytes[..length], out);
        }
        Some(Form::Finish) => answer_finish(mem, out),
        Some(Form::Find(length)) => answer_find(mem, &bytes[..length], out),
        None => out.put_refused(Refusal::NoForm),
    }
}

// Answers the forms of the program `places`: each line by a call of the index, each reply into an output that is lent.
#![tactic(auto)]

ghost use Rattle.std.specs.Prelude.{◌≡◌, ◌+◌, ◌≤◌, [], length};
ghost use Rattle.replies.specs.Outputs.{emptied};
ghost use Rattle.answering.specs.Parts.{kept_answer, kept_memory, end_answer, end_memory};
ghost use Rattle.answering.specs.Cited.{AnswersLines};
ghost use Rattle.lines.specs.Kept.{part, keeps};
ghost use Rattle.form_answers.specs.Answered.{AnsweredBy};

use definitions::Refusal;
use lines::KeptLine;
use replies::Output;

// The lent memory that the capacity of the program needs: 1,000 nodes, 400 entries.
pub const MEMORY_SIZE: usize = 105664;

// The longest answer to a line: 64 places of 71 bytes, and the end of 27.
pub const ANSWER_LIMIT: usize = 4571;

// Answers what was kept of a line; one that is too long is refused once.
fn answer_kept(mem: &mut [u8], line: &KeptLine, out: &mut Output)
    requires { out.old.at + 4571 ≤ length out.old.bytes.now }
    ensures { AnsweredBy out.old (kept_answer mem.old line.now) (kept_memory mem.old line.now) out.new mem.new }
{
    match line.text() {
        Some(text) => form_answers::answer(mem, text, out),
        None => out.put_refused(Refusal::NoForm),
    }
}

// Answers a line whose last bytes are at hand, and begins another. Nothing is copied where all of it is at hand.
fn end_line(mem: &mut [u8], line: &mut KeptLine, last: &[u8], out: &mut Output)
    requires { out.old.at + 4571 ≤ length out.old.bytes.now }
    ensures answered { AnsweredBy out.old (kept_answer mem.old (keeps line.old last.now)) (kept_memory mem.old (keeps line.old last.now)) out.new mem.new }
    ensures begun { line.new ≡ part [] }
{
    if let Some([]) = line.text() {
        form_answers::answer(mem, last, out);
        return;
    }
    line.keep(last);
    answer_kept(mem, line, out);
    line.clear();
}

// Answers the lines of an input from index p on, from the output's start, as long as the longest answer has room there:
// where the input goes on. A line that was begun before ends with the input's first; one that does not end is kept.
pub fn answer_lines(
    mem: &mut [u8],
    line: &mut KeptLine,
    input: &[u8],
    p: usize,
    out: &mut Output,
) -> usize
    requires { 4571 ≤ length out.old.bytes.now }
    ensures { AnswersLines mem.old line.old input.now p out.old mem.new line.new out.new result }
{
    out.at = 0;
    let mut next = p;
    while next < input.len() {
        let e = lines::line_end(input, next);
        if e == input.len() {
            line.keep(&input[next..]);
            return e;
        }
        end_line(mem, line, &input[next..e], out);
        next = e + 1;
        if out.bytes.len() - out.at < ANSWER_LIMIT {
            return next;
        }
    }
    next
}

// Answers the last line of the input where it lacks its newline, from the output's start; nothing where there is no such line.
pub fn answer_end(mem: &mut [u8], line: &KeptLine, out: &mut Output)
    requires { 4571 ≤ length out.old.bytes.now }
    ensures { AnsweredBy (emptied out.old) (end_answer mem.old line.now) (end_memory mem.old line.now) out.new mem.new }
{
    out.at = 0;
    if let Some([]) = line.text() {
        return;
    }
    answer_kept(mem, line, out);
}

// The forms of a line: a block, finish, find, or no form at all.
#![tactic(auto)]

ghost use Rattle.std.specs.Prelude.{◌≡◌, drop};
ghost use Rattle.forms.specs.ReadLine.{read_block, read_line};
ghost use Rattle.numerals.specs.Numerals.{starts};
ghost use Rattle.forms.specs.Answers.{answer_of, byte_count, Reads};

use lines::LINE_LIMIT;

// A form. Its bytes stand in the buffer that the reader was lent; here is how many they are.
#[derive(Clone, Copy, Debug, PartialEq, Eq)]
pub enum Form {
    Block {
        kind: u64,
        address: u64,
        created_at: u64,
        destroyed_at: u64,
        length: usize,
    },
    Finish,
    Find(usize),
}

impl Form {
    fn byte_count(self) -> usize
        ensures { result ≡ byte_count self }
    {
        match self {
            Form::Block { length, .. } => length,
            Form::Finish => 0,
            Form::Find(length) => length,
        }
    }
}

// Whether a line begins with a word.
pub fn starts_with(line: &[u8], word: &[u8]) -> bool
    ensures { result ≡ starts word.now line.now }
{
    line.starts_with(word)
}

// The form of a block, behind its word.
fn block_form(line: &[u8], at: usize) -> Option<Form>
    ensures { result ≡ answer_of (read_block (drop at line.now)) }
{
    let (kind, k_end) = numerals::read_number(line, at)?;
    let (address, a_end) = numerals::read_number(line, k_end)?;
    let (created_at, c_end) = numerals::read_number(line, a_end)?;
    let (destroyed_at, d_end) = numerals::read_number(line, c_end)?;
    let length = hex_pairs::count_bytes(line, d_end)?;
    Some(Form::Block {
        kind,
        address,
        created_at,
        destroyed_at,
        length,
    })
}

// The form of a line, its bytes counted and not yet decoded.
fn form_of(line: &[u8]) -> Option<Form>
    ensures { result ≡ answer_of (read_line line.now) }
{
    if LINE_LIMIT < line.len() {
        return None;
    }
    if starts_with(line, b"(block ") {
        return block_form(line, 7);
    }
    if starts_with(line, b"(find ") {
        let length = hex_pairs::count_bytes(line, 6)?;
        return Some(Form::Find(length));
    }
    (line == b"(finish)".as_slice()).then_some(Form::Finish)
}

// The form of a line. Its bytes are decoded into a buffer once all of the line is known to be right.
pub fn read_form(line: &[u8], bytes: &mut [u8]) -> Option<Form>
    ensures { Reads line.now bytes.old result bytes.new }
{
    let form = form_of(line)?;
    let n = form.byte_count();
    if n == 0 {
        return Some(form);
    }
    hex_pairs::decode(line, line.len() - 2 - 2 * n, n, bytes);
    Some(form)
}

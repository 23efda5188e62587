// The lines of an input: where each ends, and what is kept of an unfinished one.
#![tactic(auto)]

ghost use Rattle.std.specs.Prelude.{◌≡◌, ◌≤◌, [], length, IfSome};
ghost use Rattle.lines.specs.Cut.{line_end};
ghost use Rattle.lines.specs.Kept.{Kept, KeepsBehind, part, keeps, kept_in, kept_text};

use std::marker::Model;

// The longest line, without its newline.
pub const LINE_LIMIT: usize = 1024;

// The index of the first newline from index at on, or the input's end where there is none.
pub fn line_end(input: &[u8], at: usize) -> usize
    ensures { result ≡ line_end input.now at }
{
    for i in at..input.len() {
        if input[i] == b'\n' {
            return i;
        }
    }
    input.len().max(at)
}

// Keeps a part of a line behind n bytes of it: how many there are then, or none where the line is too long, and then the
// buffer stays.
pub fn keep(line: &mut [u8], n: usize, part: &[u8]) -> Option<usize>
    requires { 1024 ≤ length line.old }
    ensures { KeepsBehind line.old n part.now line.new result }
{
    if LINE_LIMIT < n {
        return None;
    }
    if LINE_LIMIT - n < part.len() {
        return None;
    }
    copying::copy(part, 0, line, n, part.len());
    Some(n + part.len())
}

// What is kept of an unfinished line: how many bytes, or none where the line is too long.
#[derive(Clone, Drop)]
pub struct KeptLine {
    bytes: [u8; LINE_LIMIT],
    length: Option<usize>,
}

impl Model for KeptLine {
    ghost Value = { Kept };

    ghost view = { λ k. kept_in k.bytes k.length };

    ghost invariant = { λ k. IfSome k.length (λ n. n ≤ 1024) };
}

impl KeptLine {
    // Nothing is kept yet.
    pub fn new() -> Self
        ensures { result ≡ part [] }
    {
        KeptLine {
            bytes: [0; LINE_LIMIT],
            length: Some(0),
        }
    }

    // Keeps nothing: another line begins.
    pub fn clear(&mut self)
        ensures { self.new ≡ part [] }
    {
        self.length = Some(0);
    }

    // Keeps more of the line, unless it is too long.
    pub fn keep(&mut self, more: &[u8])
        ensures { self.new ≡ keeps self.old more.now }
    {
        let Some(n) = self.length else {
            return;
        };
        self.length = keep(&mut self.bytes, n, more);
    }

    // The bytes that are kept, where the line is not too long.
    pub fn text(&self) -> Option<&[u8]>
        ensures { kept_text result ≡ self.now }
    {
        let n = self.length?;
        Some(&self.bytes[..n])
    }
}

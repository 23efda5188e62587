// The replies of the program `places`, each a line with its newline, written to an output.
#![tactic(auto)]

ghost use Rattle.std.specs.Prelude.{◌≡◌, ◌+◌, ◌%◌, ◌<◌, ◌≤◌, [], ◌∷◌, ◌++◌, length};
ghost use Rattle.definitions.specs.Program.{decimal, taken, finished, place, end, refused};
ghost use Rattle.definitions.specs.Refusals.{number_of};
ghost use Rattle.replies.specs.Written.{reply_bytes};
ghost use Rattle.replies.specs.Outputs.{Writes};

use definitions::Refusal;

// The longest reply with its newline: a place with three numbers of 20 digits.
pub const REPLY_LIMIT: usize = 71;

// An output that is lent, and the index from which on more is written.
#[derive(Drop)]
pub struct Output<'a> {
    pub bytes: &'a mut [u8],
    pub at: usize,
}

fn last_digit(x: u64) -> u8
    ensures { result ≡ 48 + x % 10 }
{
    b'0' + (x % 10) as u8
}

impl Output<'_> {
    fn put_byte(&mut self, b: u8)
        requires { self.old.at < length self.old.bytes.now }
        ensures { Writes self.old (b ∷ []) self.new }
    {
        self.bytes[self.at] = b;
        self.at += 1;
    }

    // Writes these bytes.
    pub fn put_text(&mut self, text: &[u8])
        requires { self.old.at + length text.now ≤ length self.old.bytes.now }
        ensures { Writes self.old text.now self.new }
    {
        copying::copy(text, 0, self.bytes, self.at, text.len());
        self.at += text.len();
    }

    // Writes a decimal without leading zeros: the digits before the last, then the last.
    pub fn put_decimal(&mut self, x: u64)
        requires { self.old.at + 20 ≤ length self.old.bytes.now }
        ensures { Writes self.old (decimal x) self.new }
    {
        if x >= 10 {
            self.put_decimal(x / 10);
        }
        self.put_byte(last_digit(x));
    }

    // A word, a number, and the end of a form.
    fn put_count(&mut self, word: &[u8], n: u64)
        requires { self.old.at + length word.now + 22 ≤ length self.old.bytes.now }
        ensures { Writes self.old (word.now ++ decimal n ++ (41 ∷ 10 ∷ [])) self.new }
    {
        self.put_text(word);
        self.put_decimal(n);
        self.put_text(b")\n");
    }

    // The line that says a block was taken.
    pub fn put_taken(&mut self)
        requires { self.old.at + 8 ≤ length self.old.bytes.now }
        ensures { Writes self.old (reply_bytes taken) self.new }
    {
        self.put_text(b"(taken)\n");
    }

    // The line that says the index is finished.
    pub fn put_finished(&mut self)
        requires { self.old.at + 11 ≤ length self.old.bytes.now }
        ensures { Writes self.old (reply_bytes finished) self.new }
    {
        self.put_text(b"(finished)\n");
    }

    // The line of one place: its address, and the ticks from which and until which it holds.
    pub fn put_place(&mut self, address: u64, created: u64, destroyed: u64)
        requires { self.old.at + 71 ≤ length self.old.bytes.now }
        ensures { Writes self.old (reply_bytes (place (record { address = address; created = created; destroyed = destroyed }))) self.new }
    {
        self.put_text(b"(place ");
        self.put_decimal(address);
        self.put_text(b" ");
        self.put_decimal(created);
        self.put_count(b" ", destroyed);
    }

    // The line behind the places, with their number.
    pub fn put_end(&mut self, n: u64)
        requires { self.old.at + 27 ≤ length self.old.bytes.now }
        ensures { Writes self.old (reply_bytes (end n)) self.new }
    {
        self.put_count(b"(end ", n);
    }

    // The line of a refusal, with the number of its cause.
    pub fn put_refused(&mut self, refusal: Refusal)
        requires { self.old.at + 31 ≤ length self.old.bytes.now }
        ensures { Writes self.old (reply_bytes (refused (number_of refusal))) self.new }
    {
        self.put_refused_by(refusal.number());
    }

    // The line of a refusal by a number, whatever it is.
    pub fn put_refused_by(&mut self, n: u64)
        requires { self.old.at + 31 ≤ length self.old.bytes.now }
        ensures { Writes self.old (reply_bytes (refused n)) self.new }
    {
        self.put_count(b"(refused ", n);
    }
}

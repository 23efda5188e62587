// Numbers in the text of a form: decimal digits.
#![tactic(auto)]

ghost use Rattle.std.specs.Prelude.{◌≡◌, drop};
ghost use Rattle.numerals.specs.Numerals.{is_digit, digits_from, space_ends, number};
ghost use Rattle.numerals.specs.NumeralAnswers.{numeral_of};

// Whether a byte is a decimal digit.
pub fn digit(b: u8) -> bool
    ensures { result ≡ is_digit b }
{
    b.is_ascii_digit()
}

// A space ends a number.
fn ended(line: &[u8], at: usize, x: u64) -> Option<(u64, usize)>
    ensures { numeral_of line.now result ≡ space_ends x (drop at line.now) }
{
    let b = *line.get(at)?;
    if b == b' ' { Some((x, at + 1)) } else { None }
}

// The digits from index from on, and the space behind them; none where they make over 2^64 - 1.
fn read_digits(line: &[u8], from: usize) -> Option<(u64, usize)>
    ensures { numeral_of line.now result ≡ digits_from 0 (drop from line.now) }
{
    let mut x = 0u64;
    for at in from..line.len() {
        let b = line[at];
        if !digit(b) {
            return ended(line, at, x);
        }
        x = x.checked_mul(10)?.checked_add(u64::from(b - b'0'))?;
    }
    None
}

// A decimal without leading zeros, and where the text behind its space begins.
pub fn read_number(line: &[u8], at: usize) -> Option<(u64, usize)>
    ensures { numeral_of line.now result ≡ number (drop at line.now) }
{
    match *line.get(at)? {
        b'0' => ended(line, at + 1, 0),
        b'1'..=b'9' => read_digits(line, at),
        _ => None,
    }
}

// Bytes in the text of a form: pairs of hexadecimal digits.
#![tactic(auto)]

ghost use Rattle.std.specs.Prelude.{◌≡◌, ◌+◌, ◌*◌, ◌≤◌, length, drop};
ghost use Rattle.std.specs.Option.{unwrap_or};
ghost use Rattle.std.proofs.lemmas.List.Edits.{sets};
ghost use Rattle.hex_pairs.specs.HexBytes.{nibble, pair, hex_bytes, last_bytes};
ghost use Rattle.hex_pairs.specs.HexAnswers.{counted, pairs_at};

// What stands for the value of a byte that is no digit. It is a number so that digits are read without branches: they come in any
// order, so no branch would be foreseen.
const NO_DIGIT: u8 = 16;

// The value of a lower-case hexadecimal digit.
fn digit_value(b: u8) -> u8
    ensures { result ≡ unwrap_or (nibble b) 16 }
{
    if numerals::digit(b) {
        return b - b'0';
    }
    if b < b'a' {
        return NO_DIGIT;
    }
    if b'f' < b {
        return NO_DIGIT;
    }
    b - b'a' + 10
}

// The byte of two hexadecimal digits.
fn pair_value(a: u8, b: u8) -> Option<u8>
    ensures { result ≡ pair a b }
{
    let h = digit_value(a);
    let l = digit_value(b);
    if NO_DIGIT <= h {
        return None;
    }
    if NO_DIGIT <= l {
        return None;
    }
    Some(h * 16 + l)
}

// Counts pairs of digits, up to two parentheses that end the text.
fn count_pairs(text: &[u8]) -> Option<usize>
    ensures { result ≡ counted 0 (hex_bytes text.now) }
{
    for n in 0..text.len() / 2 {
        let rest = &text[2 * n..];
        if pair_value(rest[0], rest[1]).is_none() {
            return (rest == b"))".as_slice()).then_some(n);
        }
    }
    None
}

// Counts the bytes in parentheses that end a form.
pub fn count_bytes(line: &[u8], at: usize) -> Option<usize>
    ensures { result ≡ counted 0 (last_bytes (drop at line.now)) }
{
    let opening = *line.get(at)?;
    if opening == b'(' {
        count_pairs(&line[at + 1..])
    } else {
        None
    }
}

// Writes the bytes of n pairs of digits, from index from on, to the front of a buffer, as far as there is room.
pub fn decode(line: &[u8], from: usize, n: usize, bytes: &mut [u8])
    requires { from + 2 * n ≤ length line.now }
    ensures { bytes.new ≡ sets bytes.old 0 (pairs_at line.now n from) }
{
    for k in 0..n.min(bytes.len()) {
        let at = from + 2 * k;
        bytes[k] = pair_value(line[at], line[at + 1]).unwrap_or(0);
    }
}

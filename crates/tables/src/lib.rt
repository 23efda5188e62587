// The table of a node with few children: its entries by byte.
#![tactic(auto)]

ghost use Rattle.std.specs.Prelude.{◌≡◌, ◌+◌, ◌*◌, ◌≤◌, ◌<◌, length, cond, ltb, min, MatchOption};
ghost use Rattle.definitions.specs.Refusals.{number_in};
ghost use Rattle.image_format.specs.Reading.{find_byte, table_fault};
ghost use Rattle.image_format.specs.Entries.{Least};

use definitions::Refusal;

// The first of the n entries of a table whose byte is b.
pub fn find_byte(s: &[u8], base: usize, n: usize, b: u8) -> Option<usize>
    requires { base + n * 9 ≤ length s.now }
    ensures { MatchOption result (n ≡ find_byte s.now base b n 0) (λ j. (j < n) × (j ≡ find_byte s.now base b n 0)) }
{
    for j in 0..n {
        if s[base + j * 9] == b {
            return Some(j);
        }
    }
    None
}

// The first fault of a table of n entries.
pub fn table_fault(s: &[u8], base: usize, n: usize) -> Result<(), Refusal>
    requires { base ≤ length s.now }
    ensures { number_in result ≡ table_fault s.now base n 0 }
{
    for i in 0..n {
        let p = base + i * 9;
        if p == s.len() {
            return Err(Refusal::CutShort);
        }
        if find_byte(s, base, i, s[p]).is_some() {
            return Err(Refusal::ImageBroken);
        }
        if s.len() - p < 9 {
            return Err(Refusal::CutShort);
        }
    }
    Ok(())
}

// The lower of least and b, if b is not below low.
fn nearer(low: usize, least: usize, b: usize) -> usize
    ensures { result ≡ cond (ltb b low) least (min least b) }
{
    if b < low { least } else { least.min(b) }
}

// The least byte from low on in a table of n entries, or 255.
pub fn least_byte(s: &[u8], base: usize, n: usize, low: usize) -> usize
    requires { (base + n * 9 ≤ length s.now) × (low ≤ 255) }
    ensures { Least s.now base n low result }
{
    let mut least = 255;
    for j in 0..n {
        least = nearer(low, least, s[base + j * 9] as usize);
    }
    least
}

// Donation numbers: 13 characters and a check character (ISO/IEC 7064 MOD 37-2).
#![tactic(auto)]

mod table;

ghost use Rattle.std.specs.Prelude.{◌≡◌, true, ◌≤◌, ◌<◌, length, SomeIff};
ghost use Rattle.check_character.specs.Number.{value, weighted, check, characters, values, sum_from, right};

use table::WEIGHTED;

// The characters of a number.
pub const NUMBER_SIZE: usize = 13;
// What is typed: a number and its check character.
const TYPED_SIZE: usize = 14;

// The value of a character of a number: 0 to 35 of 0-9 and A-Z.
fn number_value(b: u8) -> Option<usize>
    ensures { SomeIff result (value b < 36) (value b) }
{
    match b {
        b'0'..=b'9' => Some(usize::from(b - b'0')),
        b'A'..=b'Z' => Some(usize::from(b - b'A' + 10)),
        _ => None,
    }
}

// The value of a check character, which may be `*`, too.
fn check_value(b: u8) -> Option<usize>
    ensures { SomeIff result (value b < 37) (value b) }
{
    if b == b'*' { Some(36) } else { number_value(b) }
}

// The table's entry for value v at place p.
fn weighted_value(v: usize, p: usize) -> usize
    requires { (v < 36) × (1 ≤ p) × (p ≤ 13) }
    ensures { result ≡ weighted v p }
{
    usize::from(WEIGHTED[v * NUMBER_SIZE + p - 1])
}

// The sum P of 13 bytes, where each is a character of a number.
fn sum_of(number: &[u8]) -> Option<usize>
    requires { length number.now ≡ 13 }
    ensures { SomeIff result (characters number.now ≡ true) (sum_from 1 (values number.now)) }
{
    let mut sum = 0;
    for (i, b) in number.iter().enumerate() {
        let v = number_value(*b)?;
        sum += weighted_value(v, i + 1);
    }
    Some(sum)
}

// The value of the check for the sum P.
fn check_of(sum: usize) -> usize
    ensures { result ≡ check sum }
{
    (38 - sum % 37) % 37
}

// Whether what was typed is a number of 13 characters and its check character.
pub fn is_number(typed: &[u8]) -> bool
    ensures { result ≡ right typed.now }
{
    if typed.len() != TYPED_SIZE {
        return false;
    }
    let Some(sum) = sum_of(&typed[..NUMBER_SIZE]) else {
        return false;
    };
    check_value(typed[NUMBER_SIZE]) == Some(check_of(sum))
}

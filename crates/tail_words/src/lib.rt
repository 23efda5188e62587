// Bytes of a tail as words, highest byte first, and where they stand in its record.
#![tactic(auto)]

ghost use Rattle.std.specs.Prelude.{◌≡◌, ◌+◌, ◌-◌, ◌*◌, ◌/◌, ◌%◌, ◌≤◌, ◌<◌, get_or};
ghost use Rattle.tails.specs.Tails.{high, mark_of};

// Byte k; zero behind the end.
fn padded(bytes: &[u8], k: usize) -> u64
    ensures { result ≡ get_or bytes.now k 0 }
{
    bytes.get(k).copied().map_or(0, u64::from)
}

// The first eight of some bytes as a number, highest first, padded with zeros.
pub fn high_word(bytes: &[u8]) -> u64
    ensures { result ≡ high 8 bytes.now 0 }
{
    let mut x = 0;
    for k in 0..8 {
        x = x * 256 + padded(bytes, k);
    }
    x
}

// The third number of a tail of d bytes.
pub fn third(d: usize, whole: bool) -> u64
    requires { d ≤ 16 }
    ensures { result ≡ 2 * d + mark_of whole }
{
    2 * d as u64 + u64::from(whole)
}

// Where byte d of a tail stands in its record: the highest byte of a number stands last.
pub fn place(d: usize) -> usize
    requires { d < 16 }
    ensures { result ≡ d / 8 * 8 + (7 - d % 8) }
{
    d / 8 * 8 + (7 - d % 8)
}

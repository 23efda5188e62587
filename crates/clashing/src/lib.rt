// Whether a block conflicts with a piece of an open index, read off the certificate.
#![tactic(auto)]

ghost use Rattle.std.specs.Prelude.{◌≡◌, ◌+◌, ◌-◌, ◌^◌, ◌<◌};
ghost use Rattle.location.specs.Plain.{plain};
ghost use Rattle.memory_header.specs.Answers.{header_of};
ghost use Rattle.certificate.specs.Stored.{Stored};
ghost use Rattle.clashing.specs.Strikes.{strikes, OneAddress, Below, SaysConflict};

use certificate::Certified;
use definitions::PIECE_SIZE;
use location::SpacetimeLocation;
use memory_header::Header;

// Whether one of the entries from g on and below q, all at one address and created before x ends, lives together with x and has
// a byte at its address. They end one before the other, so the way is back from q.
fn reaches(v: Certified<'_>, g: usize, q: usize, x: SpacetimeLocation) -> bool
    requires { OneAddress v.entries.line g q (plain x) }
    ensures { result ≡ strikes v.entry.entries.line (q - g) g (plain x) }
{
    for k in (g..q).rev() {
        let y = v.entries.line.location(k);
        if y.destroyed_at.0 <= x.created_at.0 {
            return false;
        }
        if x.address.0 < y.address.0 + v.piece_size(k) {
            return true;
        }
    }
    false
}

// Whether one of the entries from number from on and below upto, all at addresses below that of x, lives together with x and has
// a byte at its address.
fn strikes_below(v: Certified<'_>, from: usize, upto: usize, x: SpacetimeLocation) -> bool
    requires { Below v.entries.line from upto (plain x) }
    ensures { result ≡ strikes v.entry.entries.line (upto - from) from (plain x) }
{
    let mut g = from;
    while g < upto {
        let l = v.entries.line.location(g);
        let b = l.address.0;
        let q = v.entries.first_from(g, b, x.destroyed_at.0);
        if reaches(v, g, q, x) {
            return true;
        }
        g = v.entries.first_from(q, b + 1, 0);
    }
    false
}

// The lowest address at which a piece with a byte at address a can begin.
fn lowest(a: u64) -> u64
    ensures { result ≡ a - 15 }
{
    a.saturating_sub(PIECE_SIZE as u64 - 1)
}

// Whether a block of n bytes at x conflicts with one of the pieces that h counts, of which so many have a byte.
pub fn clashes(mem: &[u8], h: Header, count: usize, x: SpacetimeLocation, n: usize) -> bool
    requires { Stored mem.now (header_of h) count × (x.created_at.0 < x.destroyed_at.0) × (x.address.0 + n < 2 ^ 64) }
    ensures { SaysConflict mem.now (header_of h) (plain x) n result }
{
    if n == 0 {
        return false;
    }
    let v = certificate::certificate_of(mem, h, count);
    let from = v.entries.first_from(0, lowest(x.address.0), 0);
    let upto = v.entries.first_from(from, x.address.0, 0);
    if strikes_below(v, from, upto, x) {
        return true;
    }
    v.entries.lives_among(upto, x, x.address.0 + n as u64)
}

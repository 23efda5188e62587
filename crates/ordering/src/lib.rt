// The pieces of a block entered into the certificate of an open index, once they stand in the log.
#![tactic(auto)]

ghost use Rattle.std.specs.Prelude.{◌≡◌, ◌+◌, ◌-◌, ◌*◌, ◌≤◌, ◌++◌, length, take, drop};
ghost use Rattle.std.proofs.lemmas.List.Edits.{sets};
ghost use Rattle.words.specs.Words.{bytes64};
ghost use Rattle.memory_header.specs.Layout.{work_at};
ghost use Rattle.memory_header.specs.Answers.{header_of};
ghost use Rattle.conflicts.specs.Order.{certificate};
ghost use Rattle.index_memory.specs.Log.{log_in};
ghost use Rattle.ordering.specs.Entering.{Entering};

use lined_locations::{CERTIFIED_SIZE, Line, LineKind, Ordered};
use memory_header::{HEADER_SIZE, Header, LOGGED_SIZE};

// Moves the entries from number from on and below upto by so many entries further on, the last first.
fn shift(mem: &mut [u8], base: usize, from: usize, upto: usize, by: usize)
    requires { (from ≤ upto) × (base + 16 * (upto + by) ≤ length mem.old) }
    ensures { mem.new ≡ sets mem.old (base + 16 * (from + by)) (take (16 * (upto - from)) (drop (base + 16 * from) mem.old)) }
{
    for k in (from..upto).rev() {
        let at = base + CERTIFIED_SIZE * k;
        let number = words::get64(mem, at);
        let end = words::get64(mem, at + 8);
        put_entry(mem, at + CERTIFIED_SIZE * by, number, end);
    }
}

// Writes an entry: the number of a piece and its end.
fn put_entry(mem: &mut [u8], at: usize, number: u64, end: u64)
    requires { at + 16 ≤ length mem.old }
    ensures { mem.new ≡ sets mem.old at (bytes64 number ++ bytes64 end) }
{
    words::put64(mem, at, number);
    words::put64(mem, at + 8, end);
}

// Enters the new pieces that stand in the log behind those that h counts, of which so many have a byte. Their addresses descend,
// so each goes before the one entered last, and every entry is moved once.
pub fn enter_pieces(mem: &mut [u8], h: Header, count: usize, new: usize)
    requires { Entering mem.old (header_of h) count new }
    ensures { mem.new ≡ sets mem.old (work_at (header_of h).capacity) (certificate (log_in mem.old (h.payload + new) 64)) }
{
    let base = certificate::certificate_at(h);
    let mut upto = count;
    for j in 0..new {
        let piece = HEADER_SIZE + LOGGED_SIZE * (h.payload + j);
        let l = location::location_at(mem, piece + 24);
        let line = Line {
            bytes: mem,
            base,
            count: upto,
            kind: LineKind::Logged,
        };
        let k = Ordered { line }.first_from(0, l.address.0, l.created_at.0);
        shift(mem, base, k, upto, new - j);
        let place = base + CERTIFIED_SIZE * (k + new - j - 1);
        put_entry(mem, place, (h.payload + j) as u64, l.destroyed_at.0);
        upto = k;
    }
}

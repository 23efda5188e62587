// What a lent memory holds: the log of an open index and the test of it.
#![tactic(auto)]

ghost use Rattle.std.specs.Prelude.{◌≡◌, ◌+◌, ◌-◌, ◌*◌, ◌≤◌, ◌<◌, length};
ghost use Rattle.std.proofs.Math.Option.{some};
ghost use Rattle.definitions.specs.Blocks.{entry_charge, node_charge};
ghost use Rattle.memory_header.specs.Answers.{header_of, heading_at};
ghost use Rattle.index_memory.specs.Log.{piece_sound};
ghost use Rattle.index_memory.specs.Index.{log_right};

use definitions::PIECE_SIZE;
use memory_header::{HEADER_SIZE, Header, LOGGED_SIZE};

// ── the log ──

// The nodes that a piece of m bytes charges.
pub fn piece_nodes(m: usize) -> usize
    requires { m ≤ 16 }
    ensures { result ≡ node_charge m }
{
    m * (m + 1) / 2
}

// The entries that a piece of m bytes charges, and a block.
pub fn entry_charge(m: usize) -> usize
    requires { m ≤ 4096 }
    ensures { result ≡ entry_charge m }
{
    if m == 0 { 1 } else { 2 * m }
}

// Whether the piece at index at is sound: its length, its life, its end.
fn piece_sound(mem: &[u8], at: usize) -> bool
    requires { at + 48 ≤ length mem.now }
    ensures { result ≡ piece_sound mem.now at }
{
    let m = words::get64(mem, at) as usize;
    if PIECE_SIZE < m {
        return false;
    }
    let l = location::location_at(mem, at + 24);
    l.created_at < l.destroyed_at && l.address.0 <= u64::MAX - m as u64
}

// Whether the log of an open index is right: each piece is sound, and the tally is the sum of the charges.
pub fn log_right(mem: &[u8], h: Header) -> bool
    requires { (heading_at mem.now ≡ some (header_of h)) × ((header_of h).phase ≡ 0) }
    ensures { result ≡ log_right mem.now (header_of h) }
{
    let mut nodes = 1;
    let mut entries = 0;
    for k in 0..h.payload {
        let at = HEADER_SIZE + LOGGED_SIZE * k;
        if !piece_sound(mem, at) {
            return false;
        }
        let m = words::get64(mem, at) as usize;
        nodes += piece_nodes(m);
        entries += entry_charge(m);
    }
    h.tally.nodes == nodes && h.tally.entries == entries
}

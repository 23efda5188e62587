// The certificate of an open index: its entries in the order of the pieces, tested against the log.
#![tactic(auto)]

ghost use Rattle.std.specs.Prelude.{◌≡◌, true, cond, ◌+◌, ◌*◌, ◌≤◌, length, eqb};
ghost use Rattle.std.proofs.Math.Option.{some};
ghost use Rattle.words.specs.Words.{le64};
ghost use Rattle.memory_header.specs.Layout.{work_at};
ghost use Rattle.memory_header.specs.Answers.{header_of, heading_at};
ghost use Rattle.conflicts.specs.Promises.{filled};
ghost use Rattle.index_memory.specs.Log.{log_in, log_sound};
ghost use Rattle.index_memory.specs.Index.{log_right, order_right};
ghost use Rattle.certificate.specs.Entries.{all, entry_right, LogWithin};
ghost use Rattle.certificate.specs.Stored.{Stored, StandsFor};

use definitions::PIECE_SIZE;
use lined_locations::{CERTIFIED_SIZE, Line, LineKind, Ordered};
use memory_header::{HEADER_SIZE, Header, LOGGED_SIZE};

mod certified;

pub use certified::Certified;

// The end of a piece in the log stands behind its length, its bytes, its address and its creation.
const PIECE_END: usize = 40;

// Where the certificate begins.
pub fn certificate_at(h: Header) -> usize
    requires { (h.capacity.nodes ≤ 1048576) × (h.capacity.entries ≤ 1048576) }
    ensures { result ≡ work_at (header_of h).capacity }
{
    h.capacity.work_at()
}

// One for a piece of the log that has a byte, none for one that has not. A length that is only compared with zero would be
// loaded byte by byte.
fn counted(mem: &[u8], k: usize) -> usize
    requires { (64 + 48 * k + 48 ≤ length mem.now) × (le64 mem.now (64 + 48 * k) ≤ 16) }
    ensures { result ≡ cond (eqb (le64 mem.now (64 + 48 * k)) 0) 0 1 }
{
    let size = words::get64(mem, HEADER_SIZE + LOGGED_SIZE * k) as usize;
    (size + PIECE_SIZE - 1) / PIECE_SIZE
}

// How many of the pieces in the log have a byte.
pub fn filled(mem: &[u8], pieces: usize) -> usize
    requires { LogWithin mem.now pieces × (log_sound mem.now pieces 64 ≡ true) }
    ensures { result ≡ filled (log_in mem.now pieces 64) }
{
    let mut count = 0;
    for k in 0..pieces {
        count += counted(mem, k);
    }
    count
}

// Whether entry i of the certificate has the number of a piece with a byte, and its end.
fn entry_right(mem: &[u8], base: usize, pieces: usize, i: usize) -> bool
    requires { LogWithin mem.now pieces × (log_sound mem.now pieces 64 ≡ true) × (base + 16 * i + 16 ≤ length mem.now) }
    ensures { result ≡ entry_right mem.now base pieces i }
{
    let at = base + CERTIFIED_SIZE * i;
    let number = words::get64(mem, at) as usize;
    if pieces <= number {
        return false;
    }
    if counted(mem, number) == 0 {
        return false;
    }
    let piece = HEADER_SIZE + LOGGED_SIZE * number;
    words::get64(mem, at + 8) == words::get64(mem, piece + PIECE_END)
}

// Whether the first n entries do.
fn entries_right(mem: &[u8], base: usize, pieces: usize, n: usize) -> bool
    requires { LogWithin mem.now pieces × (log_sound mem.now pieces 64 ≡ true) × (base + 16 * n ≤ length mem.now) }
    ensures { result ≡ all (entry_right mem.now base pieces) n }
{
    for i in 0..n {
        if !entry_right(mem, base, pieces, i) {
            return false;
        }
    }
    true
}

// The certificate of the pieces that h counts, of which so many have a byte.
pub fn certificate_of(mem: &[u8], h: Header, count: usize) -> Certified<'_>
    requires { Stored mem.now (header_of h) count }
    ensures { StandsFor mem.now (header_of h) count result.entries.line }
{
    let line = Line {
        bytes: mem,
        base: certificate_at(h),
        count,
        kind: LineKind::Logged,
    };
    let entries = Ordered { line };
    Certified { entries }
}

// Whether no two pieces of a log that is right conflict, and the certificate of an open index is theirs.
pub fn order_right(mem: &[u8], h: Header) -> bool
    requires { (heading_at mem.now ≡ some (header_of h)) × ((header_of h).phase ≡ 0) × (log_right mem.now (header_of h) ≡ true) }
    ensures { result ≡ order_right mem.now (header_of h) }
{
    let base = certificate_at(h);
    let count = filled(mem, h.payload);
    if !entries_right(mem, base, h.payload, count) {
        return false;
    }
    let line = Line {
        bytes: mem,
        base,
        count,
        kind: LineKind::Logged,
    };
    if !line.in_line() {
        return false;
    }
    let entries = Ordered { line };
    Certified { entries }.none_inside()
}

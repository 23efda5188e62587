// The lists of a node: the locations of tails in the work area, sorted, each once, written into the image.
#![tactic(auto)]

ghost use Rattle.std.specs.Prelude.{◌≡◌, cond, ◌+◌, ◌*◌, ◌≤◌, ◌<◌, [], length};
ghost use Rattle.std.proofs.lemmas.List.Edits.{sets};
ghost use Rattle.definitions.specs.Location.{location_bytes};
ghost use Rattle.tails.specs.Groups.{locations_of};
ghost use Rattle.tail_words.specs.Tail.{tail_in, tails_in};
ghost use Rattle.list_writer.specs.Written.{takes, taken, Copied, ListWritten};

use definitions::LOCATION_SIZE;
use tail_groups::Span;
use tails::TAIL_SIZE;

// Where an image ends, and the nodes and entries written so far.
#[derive(Clone, Copy)]
pub struct End {
    pub at: usize,
    pub nodes: usize,
    pub entries: usize,
}

// Which tails a list is made of.
#[derive(Clone, Copy)]
pub enum Listed {
    All,
    Wholes,
}

// Copies the location of tail i to index to.
fn put_tail_location(mem: &mut [u8], work: usize, i: usize, to: usize)
    requires { (to + 24 ≤ length mem.old) × (work + 56 * i + 56 ≤ length mem.old) }
    ensures { mem.new ≡ sets mem.old to (location_bytes (tail_in mem.old work i).entry.at) }
{
    let l = location::location_at(mem, work + TAIL_SIZE * i + 24);
    location::put_location(mem, to, l);
}

// Whether tail i is taken.
fn is_taken(mem: &[u8], work: usize, i: usize, listed: Listed) -> bool
    requires { work + 56 * i + 56 ≤ length mem.now }
    ensures { result ≡ takes listed (tail_in mem.now work i) }
{
    match listed {
        Listed::All => true,
        Listed::Wholes => words::get64(mem, work + TAIL_SIZE * i + 16) % 2 == 1,
    }
}

// Copies the location of tail i behind the n locations at index at, where it is taken; how many there are then.
fn put_taken(mem: &mut [u8], work: usize, i: usize, listed: Listed, at: usize, n: usize) -> usize
    requires { (at + 8 + 24 * (n + cond (takes listed (tail_in mem.old work i)) 1 0) ≤ length mem.old) × (work + 56 * i + 56 ≤ length mem.old) }
    ensures count { result ≡ n + cond (takes listed (tail_in mem.old work i)) 1 0 }
    ensures bytes { mem.new ≡ cond (takes listed (tail_in mem.old work i)) (sets mem.old (at + 8 + 24 * n) (location_bytes (tail_in mem.old work i).entry.at)) mem.old }
{
    if is_taken(mem, work, i, listed) {
        put_tail_location(mem, work, i, at + 8 + LOCATION_SIZE * n);
        return n + 1;
    }
    n
}

// Copies the locations of a span's tails that are taken behind the count at index at; how many there are.
fn put_run(mem: &mut [u8], s: Span, listed: Listed, at: usize) -> usize
    requires { (s.lo ≤ s.hi) × (s.work + 56 * s.hi ≤ length mem.old) × (at + 8 + 24 * length (taken listed (tails_in mem.old s.work s.lo s.hi)) ≤ s.work) }
    ensures { Copied mem.old mem.new at result (locations_of (taken listed (tails_in mem.old s.work s.lo s.hi))) }
{
    let mut n = 0;
    for i in s.lo..s.hi {
        n = put_taken(mem, s.work, i, listed, at, n);
    }
    n
}

// The end behind a list of n locations.
fn behind_list(e: End, n: usize) -> End
    requires { (e.at + 8 + 24 * n < 18446744073709551616) × (e.entries ≤ e.at) }
    ensures { (result.at ≡ e.at + 8 + 24 * n) × (result.nodes ≡ e.nodes) × (result.entries ≡ e.entries + n) }
{
    End {
        at: e.at + 8 + LOCATION_SIZE * n,
        nodes: e.nodes,
        entries: e.entries + n,
    }
}

// Writes an empty list.
fn put_none(mem: &mut [u8], e: End) -> End
    requires { (e.at + 8 ≤ length mem.old) × (e.entries ≤ e.at) }
    ensures { ListWritten mem.old mem.new [] e result }
{
    words::put64(mem, e.at, 0);
    behind_list(e, 0)
}

// Writes the list of the location of the single tail i, which is empty where that is not taken: it needs no sort.
fn put_single_list(mem: &mut [u8], work: usize, i: usize, listed: Listed, e: End) -> End
    requires { (work + 56 * (i + 1) ≤ length mem.old) × (e.at + 8 + 24 * length (taken listed (tails_in mem.old work i (i + 1))) ≤ work) × (e.entries ≤ e.at) }
    ensures { ListWritten mem.old mem.new (locations_of (taken listed (tails_in mem.old work i (i + 1)))) e result }
{
    let n = put_taken(mem, work, i, listed, e.at, 0);
    words::put64(mem, e.at, n as u64);
    behind_list(e, n)
}

// Writes the list of the locations of a span's tails that are taken.
fn put_long_list(mem: &mut [u8], s: Span, listed: Listed, e: End) -> End
    requires { (s.lo ≤ s.hi) × (s.work + 56 * s.hi ≤ length mem.old) × (e.at + 8 + 24 * length (taken listed (tails_in mem.old s.work s.lo s.hi)) ≤ s.work) × (e.entries ≤ e.at) }
    ensures { ListWritten mem.old mem.new (locations_of (taken listed (tails_in mem.old s.work s.lo s.hi))) e result }
{
    let n = put_run(mem, s, listed, e.at);
    let kept = list_closing::close_list(mem, e.at, n);
    behind_list(e, kept)
}

// The same. Most spans have no tail or one, which is known where this is called: so it is made a part of its callers.
#[inline(always)]
pub fn put_list(mem: &mut [u8], s: Span, listed: Listed, e: End) -> End
    requires { (s.lo ≤ s.hi) × (s.work + 56 * s.hi ≤ length mem.old) × (e.at + 8 + 24 * length (taken listed (tails_in mem.old s.work s.lo s.hi)) ≤ s.work) × (e.entries ≤ e.at) }
    ensures { ListWritten mem.old mem.new (locations_of (taken listed (tails_in mem.old s.work s.lo s.hi))) e result }
{
    if s.hi == s.lo {
        return put_none(mem, e);
    }
    if s.hi - s.lo == 1 {
        return put_single_list(mem, s.work, s.lo, listed, e);
    }
    put_long_list(mem, s, listed, e)
}

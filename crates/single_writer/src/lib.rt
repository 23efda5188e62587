// Nodes with one child and leaves, and the fronts of all nodes.
#![tactic(auto)]

ghost use Rattle.std.specs.Prelude.{◌≡◌, ◌+◌, ◌-◌, ◌≤◌, ◌<◌, length};
ghost use Rattle.tail_words.specs.Tail.{tail_in};
ghost use Rattle.single_writer.specs.Nodes.{SpanAsked, SpanWritten};
ghost use Rattle.single_writer.specs.Singles.{SingleWritten, LeafWritten};
ghost use Rattle.single_writer.specs.Heads.{ListsAsked, ListsWritten, HeadAsked, FrontAsked, Front};

use list_writer::{End, Listed};
use tail_groups::Span;

// A node up to its table: where the tails begin that go on, and where the image ends.
#[derive(Clone, Copy)]
pub struct Head {
    pub below: usize,
    pub end: End,
}

// Writes the lists of a node, as a part of what calls it: its tails end inside their pieces up to parts, with them up to below, and go on from there.
#[inline(always)]
fn put_lists(mem: &mut [u8], s: Span, parts: usize, below: usize, e: End) -> End
    requires { ListsAsked mem.old s.work s.lo parts below s.hi e }
    ensures { ListsWritten mem.old mem.new s.work s.lo parts below s.hi e result }
{
    let prefixes = Span { hi: parts, ..s };
    let chunks = Span {
        lo: parts,
        hi: below,
        ..s
    };
    let suffixes = Span { lo: below, ..s };
    let past_prefixes = list_writer::put_list(mem, prefixes, Listed::All, e);
    let past_chunks = list_writer::put_list(mem, chunks, Listed::All, past_prefixes);
    list_writer::put_list(mem, suffixes, Listed::Wholes, past_chunks)
}

// The end behind the kind of one more node.
fn behind_kind(e: End) -> End
    requires { (e.at + 1 < 18446744073709551616) × (e.nodes ≤ e.at) }
    ensures { (result.at ≡ e.at + 1) × (result.nodes ≡ e.nodes + 1) × (result.entries ≡ e.entries) }
{
    End {
        at: e.at + 1,
        nodes: e.nodes + 1,
        ..e
    }
}

// Writes the kind of a node of n children, and its lists; a part of its callers too, most of which have a single tail.
#[inline(always)]
pub fn put_front(mem: &mut [u8], s: Span, parts: usize, below: usize, n: usize, e: End) -> End
    requires { FrontAsked mem.old s.work s.lo s.hi s.depth parts below n e }
    ensures { Front mem.old mem.new s.work s.lo s.hi s.depth n e result }
{
    let at = e.at;
    mem[at] = slot_writer::node_kind(n).number();
    put_lists(mem, s, parts, below, behind_kind(e))
}

// Writes the node of the single tail i, which goes on behind its first d bytes, up to the node below it.
fn put_single(mem: &mut [u8], work: usize, i: usize, d: usize, e: End) -> End
    requires { HeadAsked mem.old work i (i + 1) d e × (64 ≤ e.at) × (d < length (tail_in mem.old work i).entry.path) }
    ensures { SingleWritten mem.old mem.new work i d e result }
{
    let s = Span {
        work,
        lo: i,
        hi: i + 1,
        depth: d,
    };
    let front = put_front(mem, s, i, i, 1, e);
    let table = front.at;
    let byte = tail_groups::tail_byte(mem, work, i, d);
    words::put64(mem, table, 1);
    mem[table + 8] = byte;
    slot_writer::put_slot(mem, table + 9, table + 17, 1);
    End {
        at: table + 18,
        ..front
    }
}

// Writes the node of the single tail i, which ends after its first d bytes.
fn put_leaf(mem: &mut [u8], work: usize, i: usize, d: usize, e: End) -> End
    requires { HeadAsked mem.old work i (i + 1) d e × (length (tail_in mem.old work i).entry.path ≡ d) }
    ensures { LeafWritten mem.old mem.new work i d e result }
{
    let s = Span {
        work,
        lo: i,
        hi: i + 1,
        depth: d,
    };
    let inside = tail_groups::ends(mem, work, i, d, false);
    let front = put_front(mem, s, i + usize::from(inside), i + 1, 0, e);
    let table = front.at;
    words::put64(mem, table, 0);
    End {
        at: table + 8,
        ..front
    }
}

// Writes the node of the single tail i at depth d, and all below it: one node for each byte that it goes on for.
pub fn put_singles(mem: &mut [u8], work: usize, i: usize, d: usize, e: End) -> End
    requires { SpanAsked mem.old work i (i + 1) d e (16 - d) }
    ensures { SpanWritten mem.old mem.new work i (i + 1) d e (16 - d) result }
{
    let mut end = e;
    let mut k = d;
    while tail_groups::goes_on(mem, work, i, k) {
        end = put_single(mem, work, i, k, end);
        k += 1;
    }
    put_leaf(mem, work, i, k, end)
}

// The slots of a table, written entry by entry.
#![tactic(auto)]

ghost use Rattle.std.specs.Prelude.{◌≡◌, ◌+◌, ◌-◌, ◌*◌, ◌≤◌, ◌<◌, length, set};
ghost use Rattle.std.proofs.lemmas.List.Edits.{sets};
ghost use Rattle.words.specs.Words.{bytes64};
ghost use Rattle.kinds.specs.Kinds.{kind_number, kind_of};
ghost use Rattle.slot_writer.specs.Turns.{Opened, EntryAsked, GroupEntry, Known, DensePicked, TurnAsked, Picked, child_in};

use image_format::{DENSE_ENTRIES, DENSE_SIZE, SLOT_SIZE};
use kinds::NodeKind;
use list_writer::End;
use tail_groups::{Grouping, Span};

// The table of a node: its kind, where its entries begin, where its children begin, and how many turns they take.
#[derive(Clone, Copy)]
pub struct Table {
    pub kind: NodeKind,
    pub base: usize,
    pub start: usize,
    pub turns: usize,
}

// What a turn of a table is for: a group, or none; and where the image ends then.
#[derive(Clone, Copy)]
pub struct Turn {
    pub group: Option<usize>,
    pub end: End,
}

// The kind of a node of n children.
pub fn node_kind(n: usize) -> NodeKind
    requires { n ≤ 256 }
    ensures { kind_number result ≡ kind_of n }
{
    kinds::kind_of(n).unwrap()
}

// Begins a table of n groups at index at: kinds 2 and 3 have a count.
pub fn put_count(mem: &mut [u8], at: usize, n: usize) -> Table
    requires { (n ≤ 256) × (at + 8 + 64 * n ≤ length mem.old) }
    ensures { Opened mem.old mem.new at n result }
{
    let kind = node_kind(n);
    if let NodeKind::Dense = kind {
        return Table {
            kind,
            base: at,
            start: at + DENSE_SIZE,
            turns: DENSE_ENTRIES,
        };
    }
    words::put64(mem, at, n as u64);
    Table {
        kind,
        base: at + 8,
        start: at + 8 + n * SLOT_SIZE,
        turns: n,
    }
}

// The end one byte further on.
pub fn behind_flag(e: End) -> End
    requires { e.at + 1 < 18446744073709551616 }
    ensures { (result.at ≡ e.at + 1) × (result.nodes ≡ e.nodes) × (result.entries ≡ e.entries) }
{
    End { at: e.at + 1, ..e }
}

// Writes the offset of index at to index to, and a flag to index at.
pub fn put_slot(mem: &mut [u8], to: usize, at: usize, flag: u8)
    requires { (to + 8 ≤ length mem.old) × (at + 1 ≤ length mem.old) × (64 ≤ at) }
    ensures { mem.new ≡ set (sets mem.old to (bytes64 (at - 64))) at flag }
{
    words::put64(mem, to, (at - 64) as u64);
    mem[at] = flag;
}

// Writes the entry of group g of a table of kind 2 or 3 whose entries begin at base, and the flag 1 to index at.
pub fn put_entry(mem: &mut [u8], s: Span, base: usize, groups: &Grouping, g: usize, at: usize)
    requires { EntryAsked mem.old s.work s.lo s.hi s.depth base groups.now.count groups.now g at }
    ensures { GroupEntry mem.old mem.new s.work s.lo s.hi s.depth base g at }
{
    let rank = tail_groups::rank(&groups.firsts[..groups.count], groups.firsts[g]);
    let place = base + rank * SLOT_SIZE;
    let byte = tail_groups::tail_byte(mem, s.work, groups.starts[g], s.depth);
    mem[place] = byte;
    put_slot(mem, place + 1, at, 1);
}

// The group of byte j, where met children are written: the next one, or none where that has another byte.
fn dense_group(mem: &[u8], s: Span, groups: &Grouping, j: usize, met: usize) -> Option<usize>
    requires { Known mem.now s.work s.lo s.hi s.depth groups.now.count groups.now }
    ensures { DensePicked mem.now s.work s.lo s.hi s.depth groups.now.count j met result }
{
    if groups.count <= met {
        return None;
    }
    let byte = tail_groups::tail_byte(mem, s.work, groups.starts[met], s.depth);
    if usize::from(byte) == j {
        return Some(met);
    }
    None
}

// The group of turn j, where met children are written: by arrival in kind 3, by byte in kinds 2 and 1.
pub fn group_of(
    mem: &[u8],
    s: Span,
    t: Table,
    groups: &Grouping,
    j: usize,
    met: usize,
) -> Option<usize>
    requires { TurnAsked mem.now s.work s.lo s.hi s.depth t groups.now.count groups.now j met }
    ensures { Picked mem.now s.work s.lo s.hi s.depth t groups.now.count j met result }
{
    match t.kind {
        NodeKind::ByArrival => tail_groups::with_rank(&groups.firsts[..groups.count], j),
        NodeKind::ByByte => Some(j),
        NodeKind::Dense => dense_group(mem, s, groups, j, met),
    }
}

// The tails of group g, which share one more byte.
pub fn child_span(groups: &Grouping, s: Span, g: usize) -> Span
    requires { (s.depth < 16) × (g < 256) }
    ensures { result ≡ child_in groups.now s g }
{
    Span {
        lo: groups.starts[g],
        hi: groups.starts[g + 1],
        depth: s.depth + 1,
        ..s
    }
}

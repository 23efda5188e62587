// The fields of one node of an image in layout order.
#![tactic(auto)]

ghost use Rattle.std.specs.Prelude.{◌≡◌, ◌+◌, ◌*◌, ◌≤◌, length, eqb, cond, true, IfOk, IfErr};
ghost use Rattle.kinds.specs.Kinds.{kind_number};
ghost use Rattle.image_format.specs.Reading.{Table, all_met, read_list, read_head, open_table};
ghost use Rattle.fields.specs.Answers.{step_of, list_of, head_of, table_of};
ghost use Rattle.fields.specs.Singles.{Bare, SingleWithoutLists, SingleBeforeChild, SinglesBelow};

pub mod children;

pub use children::Children;
use definitions::{LOCATION_SIZE, Refusal};
use image_format::{DENSE_ENTRIES, DENSE_SIZE, SLOT_SIZE};
use kinds::NodeKind;

// The nodes and entries of an image.
#[derive(Clone, Copy, Debug, PartialEq, Eq)]
pub struct Counts {
    pub nodes: usize,
    pub entries: usize,
}

// Where a part of an image ends and what it counts.
#[derive(Clone, Copy)]
pub struct Past {
    pub at: usize,
    pub nodes: usize,
    pub entries: usize,
}

// Where a list ends, and its entries.
#[derive(Clone, Copy)]
struct ListEnd {
    at: usize,
    entries: usize,
}

// A node up to its table: its kind, where its lists end and what they count.
#[derive(Clone, Copy)]
pub struct Head {
    pub kind: NodeKind,
    pub at: usize,
    pub entries: usize,
}

// What stands where a child is due.
#[derive(Clone, Copy)]
pub enum Due {
    Child,
    Gap,
    Nothing,
}

// A list: its count and its locations. It can only be cut short.
// Most lists are empty: that is seen by itself, which is faster than to divide the room.
fn read_list(s: &[u8], at: usize) -> Result<ListEnd, Refusal>
    requires { at ≤ length s.now }
    ensures list { list_of result ≡ read_list s.now at }
    ensures cut_short { IfErr result (λ r. r ≡ Refusal.CutShort) }
{
    let room = s.len() - at;
    if room < 8 {
        return Err(Refusal::CutShort);
    }
    let n = words::get64(s, at) as usize;
    if n == 0 {
        return Ok(ListEnd {
            at: at + 8,
            entries: 0,
        });
    }
    if (room - 8) / LOCATION_SIZE < n {
        return Err(Refusal::CutShort);
    }
    Ok(ListEnd {
        at: at + 8 + n * LOCATION_SIZE,
        entries: n,
    })
}

// The node at an index up to its table: its kind and its three lists.
pub fn read_head(s: &[u8], at: usize) -> Result<Head, Refusal>
    requires { at ≤ length s.now }
    ensures { head_of result ≡ read_head s.now at }
{
    if at == s.len() {
        return Err(Refusal::CutShort);
    }
    let Ok(kind) = NodeKind::try_from(s[at]) else {
        return Err(Refusal::UnknownKind);
    };
    let prefixes = read_list(s, at + 1)?;
    let chunks = read_list(s, prefixes.at)?;
    let suffixes = read_list(s, chunks.at)?;
    Ok(Head {
        kind,
        at: suffixes.at,
        entries: prefixes.entries + chunks.entries + suffixes.entries,
    })
}

// The table of a node of kind Dense at an index.
fn open_dense<'a>(s: &'a [u8], at: usize) -> Result<Children<'a>, Refusal>
    requires { at ≤ length s.now }
    ensures table { table_of result ≡ open_table s.now 1 at }
    ensures bytes { IfOk result (λ c. c.bytes.now ≡ s.now) }
{
    if s.len() - at < DENSE_SIZE {
        return Err(Refusal::CutShort);
    }
    Ok(Children {
        bytes: s,
        kind: NodeKind::Dense.number(),
        base: at,
        count: 0,
        start: at + DENSE_SIZE,
        turns: DENSE_ENTRIES,
    })
}

// How many turns a node with n children has that is not of kind Dense.
fn turns_of(kind: NodeKind, n: usize) -> usize
    ensures { result ≡ cond (eqb (kind_number kind) 3) n 256 }
{
    if kind == NodeKind::ByArrival {
        n
    } else {
        DENSE_ENTRIES
    }
}

// The table at an index, of a node of a kind.
pub fn open_table<'a>(s: &'a [u8], kind: NodeKind, at: usize) -> Result<Children<'a>, Refusal>
    requires { at ≤ length s.now }
    ensures table { table_of result ≡ open_table s.now (kind_number kind) at }
    ensures bytes { IfOk result (λ c. c.bytes.now ≡ s.now) }
{
    if kind == NodeKind::Dense {
        return open_dense(s, at);
    }
    if s.len() - at < 8 {
        return Err(Refusal::CutShort);
    }
    let count = words::get64(s, at) as usize;
    if !kinds::fits_kind(kind, count) {
        return Err(Refusal::ImageBroken);
    }
    let base = at + 8;
    tables::table_fault(s, base, count)?;
    Ok(Children {
        bytes: s,
        kind: kind.number(),
        base,
        count,
        start: base + count * SLOT_SIZE,
        turns: turns_of(kind, count),
    })
}

// The end of the children of a node of a kind's number, so many met: in kind 1 they must be enough.
pub fn all_met(kind: u8, met: usize, past: Past) -> Result<Past, Refusal>
    ensures { (t : Table) → t.kind ≡ kind → step_of result ≡ all_met t past.at met past.nodes past.entries }
{
    if kind == 1 && !kinds::fits_kind(NodeKind::Dense, met) {
        return Err(Refusal::ImageBroken);
    }
    Ok(past)
}

// Whether the node at an index is bare: of kind 3, with neither prefix nor chunk.
// Compared with 0 a word would be tested byte by byte, so the counts are compared with each other.
pub fn is_bare(s: &[u8], at: usize) -> bool
    requires { at + 17 ≤ length s.now }
    ensures { result ≡ true → Bare s.now at }
{
    let kind = s[at];
    let prefixes = words::get64(s, at + 1);
    let chunks = words::get64(s, at + 9);
    prefixes == chunks && chunks == (kind / 4) as u64 && kind == 3
}

// Whether it has no suffix either, and one child.
pub fn is_single_without_lists(s: &[u8], at: usize) -> bool
    requires { at + 33 ≤ length s.now }
    ensures { result ≡ true → SingleWithoutLists s.now at }
{
    if !is_bare(s, at) {
        return false;
    }
    let suffixes = words::get64(s, at + 17);
    let children = words::get64(s, at + 25);
    suffixes == children / 2 && children == 1
}

// The bytes of such a node up to its child, where that is due.
pub const SINGLE_SIZE: usize = 43;

// Whether such a node stands at an index, with its child where it is due.
fn is_single_before_child(s: &[u8], at: usize) -> bool
    requires { at ≤ length s.now }
    ensures { result ≡ true → SingleBeforeChild s.now at }
{
    if s.len() - at < SINGLE_SIZE || !is_single_without_lists(s, at) {
        return false;
    }
    let flag = at + 42;
    words::get64(s, at + 34) == flag as u64 && s[flag] == 1
}

// How many such nodes stand below each other from an index on, at most so many.
pub fn singles_below(s: &[u8], at: usize, most: usize) -> usize
    requires { at ≤ length s.now }
    ensures { SinglesBelow s.now at most result }
{
    for k in 0..most {
        if !is_single_before_child(s, at + SINGLE_SIZE * k) {
            return k;
        }
    }
    most
}

// Nodes of an image, found in place by their index.
#![tactic(auto)]

ghost use Rattle.std.specs.Prelude.{◌≡◌, cond, ℕ, ◌+◌, ◌*◌, ◌^◌, ◌≤◌, ◌<◌, length, get_or, eqb};
ghost use Rattle.words.specs.Words.{le64};
ghost use Rattle.image_format.specs.Held.{sparse_entries};
ghost use Rattle.image_walk.specs.Parts.{list_in, parts_at};
ghost use Rattle.image_walk.specs.Tables.{dense_slot, slot_in, entries_at, node_for};
ghost use Rattle.image_walk.specs.Bounds.{TableHere};
ghost use Rattle.image_walk.specs.Here.{Laid};
ghost use Rattle.image_walk.specs.Answers.{child_of_answer, entry_of_answer};

use image_format::{DENSE_ENTRIES, SLOT_SIZE};
use location_lists::List;

// Where a table stands, and how many entries it has: 256 in kind 1, some of them empty, and at most 96 in kinds 2 and 3.
#[derive(Clone, Copy)]
pub struct Table {
    pub at: usize,
    pub count: usize,
}

// An entry of a table: a byte, and where the child for it stands.
#[derive(Clone, Copy)]
pub struct Entry {
    pub byte: u8,
    pub node: usize,
}

// Where the parts of a node stand. Its children are the entries of its table.
#[derive(Clone, Copy)]
pub struct Node {
    pub prefixes: List,
    pub chunks: List,
    pub suffixes: List,
    pub table: Table,
}

// The number in the eight bytes from index at, as a count or an index.
fn size_at(s: &[u8], at: usize) -> usize
    requires { at + 8 ≤ length s.now }
    ensures { result ≡ le64 s.now at }
{
    words::get64(s, at) as usize
}

// The list behind its count at index at.
fn list_at(s: &[u8], at: usize) -> List
    requires { at + 8 ≤ length s.now }
    ensures { result ≡ list_in s.now at }
{
    List {
        at: at + 8,
        count: size_at(s, at),
    }
}

// The table behind the lists of a node of that kind, which end at index at: in kinds 2 and 3 behind its count.
fn table_behind(s: &[u8], kind: u8, at: usize) -> Table
    requires { at + 8 ≤ length s.now }
    ensures { result ≡ cond (eqb kind 1) (record { at = at; count = 256 }) (record { at = at + 8; count = le64 s.now at }) }
{
    if kind == 1 {
        return Table {
            at,
            count: DENSE_ENTRIES,
        };
    }
    Table {
        at: at + 8,
        count: size_at(s, at),
    }
}

// The node whose kind byte stands at index at.
pub fn node_at(s: &[u8], at: usize) -> Node
    requires { Laid s.now at }
    ensures { result ≡ parts_at s.now at }
{
    let prefixes = list_at(s, at + 1);
    let chunks = list_at(s, prefixes.end());
    let suffixes = list_at(s, chunks.end());
    Node {
        prefixes,
        chunks,
        suffixes,
        table: table_behind(s, s[at], suffixes.end()),
    }
}

// Entry j of a table of kind 1 at index table.
fn dense_slot(s: &[u8], table: usize, j: usize) -> Option<Entry>
    requires { TableHere s.now table 256 × (j < 256) }
    ensures { entry_of_answer result ≡ dense_slot s.now table j }
{
    let flag = size_at(s, table + j * 8);
    if s[flag] == 0 {
        return None;
    }
    Some(Entry {
        byte: j as u8,
        node: flag + 1,
    })
}

// Entry j of a table; one of 256 entries is of kind 1.
pub fn slot_in(s: &[u8], table: Table, j: usize) -> Option<Entry>
    requires { TableHere s.now table.at table.count × (j < table.count) }
    ensures { entry_of_answer result ≡ slot_in s.now table.at table.count j }
{
    if table.count == DENSE_ENTRIES {
        return dense_slot(s, table.at, j);
    }
    let e = table.at + j * SLOT_SIZE;
    Some(Entry {
        byte: s[e],
        node: size_at(s, e + 1) + 1,
    })
}

// The child for a byte in a table of byte and offset.
fn sparse_child(s: &[u8], table: Table, byte: u8) -> Option<usize>
    requires { TableHere s.now table.at table.count × (table.count ≡ 256 → ⊥) }
    ensures { child_of_answer result ≡ node_for (entries_at s.now table.at table.count) byte }
{
    for j in 0..table.count {
        let e = table.at + j * SLOT_SIZE;
        if s[e] == byte {
            return Some(size_at(s, e + 1) + 1);
        }
    }
    None
}

// The child for a byte in a table; one of 256 entries is of kind 1.
pub fn child_in(s: &[u8], table: Table, byte: u8) -> Option<usize>
    requires { TableHere s.now table.at table.count }
    ensures { child_of_answer result ≡ node_for (entries_at s.now table.at table.count) byte }
{
    if table.count == DENSE_ENTRIES {
        return dense_slot(s, table.at, byte as usize).map(|e| e.node);
    }
    sparse_child(s, table, byte)
}

// The child of the node n for a byte.
pub fn child_of(s: &[u8], n: Node, byte: u8) -> Option<usize>
    requires { TableHere s.now n.table.at n.table.count }
    ensures { child_of_answer result ≡ node_for (entries_at s.now n.table.at n.table.count) byte }
{
    child_in(s, n.table, byte)
}

// Whether it is the image of an empty index, which has a 0 in place of the root's kind.
pub fn is_empty(s: &[u8]) -> bool
    requires { 0 < length s.now }
    ensures { result ≡ eqb (get_or s.now 0 0) 0 }
{
    s[0] == 0
}

// Runs of nodes with one child, stepped over at once.
#![tactic(auto)]

ghost use Rattle.std.specs.Prelude.{◌≡◌, ℕ, true, ◌+◌, ◌<◌, ◌≤◌, length, IfSome};
ghost use Rattle.single_runs.specs.Runs.{is_leaf, SingleTable, BareSingle, byte_behind, Down, StepsTo, RunTo};
ghost use Rattle.image_walk.specs.Parts.{parts_at};
ghost use Rattle.image_walk.specs.Tables.{slot_in};
ghost use Rattle.image_walk.specs.Here.{Laid};
ghost use Rattle.node_rule.specs.Parts.{HasTable};
ghost use Rattle.single_runs.specs.Singles.{SingleWithSuffix, SingleIn, SingleBelow, SinglesTo};

use definitions::LOCATION_SIZE;
use image_format::HEAD_SIZE;
use image_walk::{Node, Table};

// Where the parts of a node without prefixes and chunks stand: its suffix count, its first suffix, and its child count where
// it has one suffix.
const SUFFIX_COUNT: usize = 17;

const SUFFIXES: usize = 25;

const CHILD_COUNT: usize = 49;

// From a table of one entry to the child behind it; to that child's one suffix, and to its table.
const TO_CHILD: usize = 10;

const TO_SUFFIX: usize = 35;

const TO_TABLE: usize = 67;

// Whether a node is a leaf with one prefix, and neither chunk nor suffix.
pub fn is_leaf(n: Node) -> bool
    ensures { result ≡ is_leaf n }
{
    n.table.count == 0 && n.chunks.count == 0 && n.suffixes.count == 0 && n.prefixes.count == 1
}

// The table behind its count at an index, if that is 1.
fn single_table(s: &[u8], behind: usize) -> Option<usize>
    requires { behind + 8 ≤ length s.now }
    ensures { IfSome result (SingleTable s.now behind) }
{
    if words::get64(s, behind) != 1 {
        return None;
    }
    Some(behind + 8)
}

// The table of the node at an index, if that has one child and neither prefix nor chunk.
fn bare_single_table(s: &[u8], at: usize) -> Option<usize>
    requires { Laid s.now at }
    ensures { IfSome result (BareSingle (parts_at s.now at)) }
{
    if !fields::is_bare(s, at) {
        return None;
    }
    let n = words::get64(s, at + SUFFIX_COUNT) as usize;
    if n == 0 {
        return single_table(s, at + SUFFIXES);
    }
    single_table(s, at + SUFFIXES + LOCATION_SIZE * n)
}

// The byte of the only child in a table of one entry, if the child stands right behind it.
fn byte_behind(s: &[u8], table: usize) -> Option<u8>
    requires { HasTable s.now table 1 }
    ensures { result ≡ byte_behind (slot_in s.now table 1 0) (table + 10) }
{
    let only = Table {
        at: table,
        count: 1,
    };
    let entry = image_walk::slot_in(s, only, 0)?;
    if entry.node != table + TO_CHILD {
        return None;
    }
    Some(entry.byte)
}

// The tables of a node and of its front.
#[derive(Clone, Copy)]
pub struct Pair {
    pub table: usize,
    pub other: usize,
}

// The children in two tables of one entry, if their bytes are the same and neither is owed or owes a location.
fn both_down(s: &[u8], from: Pair) -> Option<Pair>
    requires { HasTable s.now from.table 1 × HasTable s.now from.other 1 }
    ensures { IfSome result (Down s.now from) }
{
    // The child stands behind the table. A sum, and not the offset, lets the next loads start before this one ends.
    let due = from.table + TO_CHILD;
    let front_due = from.other + TO_CHILD;
    let byte = byte_behind(s, from.table)?;
    let front = byte_behind(s, from.other)?;
    if front != byte {
        return None;
    }
    if !fields::is_single_without_lists(s, due) {
        return None;
    }
    let other = bare_single_table(s, front_due)?;
    Some(Pair {
        table: due + HEAD_SIZE,
        other,
    })
}

// How many levels a run goes on, and where it ends.
#[derive(Clone, Copy)]
pub struct Run<T> {
    pub levels: usize,
    pub end: T,
}

impl<T> Run<T> {
    // No level: it ends where it starts.
    pub fn none(end: T) -> Self
        ensures { result ≡ record { levels = 0; end = end } }
    {
        Run { levels: 0, end }
    }
}

// The run from a place on, by the step from each level to the next; at most so many.
fn run_by<T: Copy, F: Fn(T) -> Option<T>>(from: T, most: usize, step: F) -> Run<T>
    requires { (k : ℕ) (x : T) → k < most → StepsTo (λ a b. F.post step a (Some b)) from k x → F.pre step x }
    ensures few { result.levels ≤ most }
    ensures steps { StepsTo (λ a b. F.post step a (Some b)) from result.levels result.end }
{
    let mut end = from;
    for levels in 0..most {
        let Some(next) = step(end) else {
            return Run { levels, end };
        };
        end = next;
    }
    Run { levels: most, end }
}

// The run from a node and its front on, by their tables, which have one entry.
pub fn common_run(s: &[u8], from: Pair, most: usize) -> Run<Pair>
    requires { HasTable s.now from.table 1 × HasTable s.now from.other 1 }
    ensures { RunTo s.now from most result.levels result.end }
{
    run_by(from, most, |p| both_down(s, p))
}

// Whether the node at an index is of kind 3 and has one suffix, one child, and neither prefix nor chunk.
fn is_single_with_suffix(s: &[u8], at: usize) -> bool
    requires { Laid s.now at }
    ensures { result ≡ true → SingleWithSuffix s.now at }
{
    if !fields::is_bare(s, at) {
        return false;
    }
    words::get64(s, at + SUFFIX_COUNT) == 1 && words::get64(s, at + CHILD_COUNT) == 1
}

// Whether the child in a table of one entry stands behind it and is such a node.
fn has_single_with_suffix(s: &[u8], table: usize) -> bool
    requires { HasTable s.now table 1 }
    ensures { result ≡ true → SingleIn s.now table }
{
    byte_behind(s, table).is_some() && is_single_with_suffix(s, table + TO_CHILD)
}

// The table of the node in a table, which is such a node, if that leads to one with the same suffix.
fn next_single(s: &[u8], table: usize) -> Option<usize>
    requires { HasTable s.now table 1 × SingleIn s.now table }
    ensures { IfSome result (SingleBelow s.now table) }
{
    let next = table + TO_TABLE;
    if !has_single_with_suffix(s, next) {
        return None;
    }
    let suffix = location::location_at(s, table + TO_SUFFIX);
    if !location_lists::is_at(s, next + TO_SUFFIX, suffix) {
        return None;
    }
    Some(next)
}

// The run from a table of one entry on.
pub fn single_run(s: &[u8], table: usize, most: usize) -> Run<usize>
    requires { HasTable s.now table 1 }
    ensures { SinglesTo s.now table most result.levels result.end }
{
    if !has_single_with_suffix(s, table) {
        return Run::none(table);
    }
    run_by(table, most, |t| next_single(s, t))
}

// The nodes whose paths have one byte more in front.
#![tactic(auto)]

ghost use Rattle.std.specs.Prelude.{◌≡◌, ℕ, ◌+◌, ◌*◌, ◌≤◌, cond, eqb, Bool, length, take};
ghost use Rattle.image_walk.specs.Bounds.{TableHere};
ghost use Rattle.location_lists.specs.Lists.{SameSpans};
ghost use Rattle.node_rule.specs.Parts.{HasTable};
ghost use Rattle.fronts.specs.Fronts.{HasFronts};
ghost use Rattle.fronts.specs.FrontRule.{RootFronts, NextFronts, SaysFronts};
ghost use Rattle.fronts.specs.Ahead.{part_read, shares_read};
ghost use Rattle.fronts.specs.Masks.{is_absent, with_byte, all_bits, SaysMask};
ghost use Rattle.fronts.specs.Marks.{Tests, SaysEach, SaysEachFront, has_child, SaysMarks};

use image_format::DENSE_ENTRIES;
use image_walk::Table;
use location_lists::Lists;

// The nodes whose path has one byte more in front are a node's fronts. Each is its table, and a mask of that table's bytes.
#[derive(Clone, Copy)]
pub struct Front {
    pub table: Table,
    pub mask: u64,
}

impl Front {
    // The front with a table whose bytes are not looked at.
    pub fn new(table: Table) -> Self
        ensures { result ≡ record { table = table; mask = all_bits } }
    {
        Front {
            table,
            mask: u64::MAX,
        }
    }
}

// The fronts of a depth on the stack: one for each byte.
pub const LEVEL_SIZE: usize = 256;

// The fronts on the stack: those of 17 depths.
pub const STACK_SIZE: usize = 4352;

// The fronts of the root, which are its children in a table; how many.
pub fn root_fronts(s: &[u8], table: Table, fronts: &mut [Front]) -> usize
    requires { HasTable s.now table.at table.count × (256 ≤ length fronts.old) }
    ensures { RootFronts s.now table.at table.count fronts.new result }
{
    let mut count = 0;
    for j in 0..table.count {
        if let Some(entry) = image_walk::slot_in(s, table, j) {
            let child = image_walk::node_at(s, entry.node);
            fronts[count] = Front {
                table: child.table,
                mask: mask_of(s, child.table),
            };
            count += 1;
        }
    }
    count
}

// The fronts of a child by byte, one depth further on: the children by byte of the fronts at depth; how many. The lists
// become their chunks and prefixes.
fn fronts_by(
    s: &[u8],
    byte: u8,
    depth: usize,
    fronts: &mut [Front; STACK_SIZE],
    count: usize,
    lists: &mut Lists<'_>,
) -> usize
    requires { HasFronts s.now fronts.old (depth * 256) count × (depth ≤ 15) × (512 ≤ length lists.old.each.now) }
    ensures says { NextFronts s.now byte depth fronts.old count fronts.new result lists.new }
    ensures lent { SameSpans lists.old lists.new }
{
    let from = depth * LEVEL_SIZE;
    let to = (depth + 1) * LEVEL_SIZE;
    let mut met = 0;
    lists.clear();
    for i in 0..count {
        let front = fronts[from + i];
        if !is_absent(front.mask, byte) {
            if let Some(at) = image_walk::child_in(s, front.table, byte) {
                let child = image_walk::node_at(s, at);
                fronts[to + met] = Front {
                    table: child.table,
                    mask: mask_of(s, child.table),
                };
                met += 1;
                node_rule::add_front(lists, child);
            }
        }
    }
    met
}

// The child by byte at index at, of a node at depth.
#[derive(Clone, Copy)]
pub struct Place {
    pub byte: u8,
    pub at: usize,
    pub depth: usize,
}

// The fronts of a child; how many. Below the root they are many, and are read ahead with all below them.
pub fn next_fronts(
    s: &[u8],
    child: Place,
    fronts: &mut [Front; STACK_SIZE],
    count: usize,
    lists: &mut Lists<'_>,
) -> usize
    requires { HasFronts s.now fronts.old (child.depth * 256) count × (child.depth ≤ 15) × (512 ≤ length lists.old.each.now) }
    ensures says { NextFronts s.now child.byte child.depth fronts.old count fronts.new result lists.new }
    ensures lent { SameSpans lists.old lists.new }
{
    look_ahead(s, child, fronts, count, lists);
    fronts_by(s, child.byte, child.depth, fronts, count, lists)
}

// Reads a word of each 64 bytes of the n from index at on, as far as they are there.
fn read_part(s: &[u8], at: usize, n: usize) -> u64
    ensures { result ≡ part_read s.now at n }
{
    let parts = n.min(s.len().saturating_sub(at)) / 64;
    let mut sum = 0;
    for i in 0..parts {
        sum ^= words::get64(s, at + i * 64);
    }
    sum
}

// Reads of the image an even share below the child by byte of each front of the root, and one below the node at index at,
// which has the same byte.
fn read_ahead(s: &[u8], byte: u8, fronts: &[Front], at: usize) -> u64
    requires { HasFronts s.now fronts.now 0 (length fronts.now) }
    ensures { result ≡ shares_read s.now byte fronts.now at }
{
    let count = fronts.len();
    if count == 0 {
        return 0;
    }
    let share = s.len() / count;
    let mut sum = read_part(s, at, share);
    for front in fronts {
        if let Some(p) = image_walk::child_in(s, front.table, byte) {
            sum ^= read_part(s, p, share / count);
        }
    }
    sum
}

// Reads ahead for a child of the root.
fn look_ahead(
    s: &[u8],
    child: Place,
    fronts: &[Front; STACK_SIZE],
    count: usize,
    lists: &mut Lists<'_>,
)
    requires { HasFronts s.now fronts.now (child.depth * 256) count }
    ensures { lists.new ≡ cond (eqb child.depth 0) (record lists.old { ahead = shares_read s.now child.byte (take count fronts.now) child.at }) lists.old }
{
    if child.depth == 0 {
        lists.ahead = read_ahead(s, child.byte, &fronts[..count], child.at);
    }
}

// Whether a mask tells that a byte is not among its bytes.
fn is_absent(mask: u64, byte: u8) -> bool
    ensures { result ≡ is_absent mask byte }
{
    (mask >> (byte % 64)) % 2 == 0
}

// The mask with one byte more.
fn with_byte(mask: u64, byte: u8) -> u64
    ensures { result ≡ with_byte mask byte }
{
    mask | (1u64 << (byte % 64))
}

// The mask of the bytes in a table; one of 256 entries has every bit.
fn mask_of(s: &[u8], table: Table) -> u64
    requires { HasTable s.now table.at table.count }
    ensures { SaysMask s.now table.at table.count result }
{
    if table.count == DENSE_ENTRIES {
        return u64::MAX;
    }
    let mut mask = 0;
    for j in 0..table.count {
        if let Some(entry) = image_walk::slot_in(s, table, j) {
            mask = with_byte(mask, entry.byte);
        }
    }
    mask
}

// Whether a test holds of each byte for which a table has a child.
fn has_each<F: Fn(u8) -> bool>(s: &[u8], table: Table, has: &F) -> bool
    requires table { HasTable s.now table.at table.count }
    requires calls { F.IsAlwaysCallable has.now }
    ensures { (p : ℕ → Bool) → Tests (F.post has.now) p → SaysEach s.now p table.at table.count result }
{
    for j in 0..table.count {
        if let Some(entry) = image_walk::slot_in(s, table, j) {
            if !has(entry.byte) {
                return false;
            }
        }
    }
    true
}

// Whether it holds of each byte for which one of some fronts has a child.
fn has_each_front<F: Fn(u8) -> bool>(s: &[u8], fronts: &[Front], has: &F) -> bool
    requires fronts { HasFronts s.now fronts.now 0 (length fronts.now) }
    requires calls { F.IsAlwaysCallable has.now }
    ensures { (p : ℕ → Bool) → Tests (F.post has.now) p → SaysEachFront s.now p fronts.now result }
{
    for front in fronts {
        if !has_each(s, front.table, has) {
            return false;
        }
    }
    true
}

// Whether a table has a child for a byte.
fn has_child(s: &[u8], table: Table, byte: u8) -> bool
    requires { TableHere s.now table.at table.count }
    ensures { result ≡ has_child s.now table.at table.count byte }
{
    image_walk::child_in(s, table, byte).is_some()
}

// For each byte whether a table has a child for it.
fn marks_of(s: &[u8], table: Table) -> [bool; 256]
    requires { HasTable s.now table.at table.count }
    ensures { SaysMarks s.now table.at table.count result }
{
    let mut has = [false; 256];
    for j in 0..table.count {
        if let Some(entry) = image_walk::slot_in(s, table, j) {
            has[entry.byte as usize] = true;
        }
    }
    has
}

// The most entries of a table in which bytes are looked for.
const FEW: usize = 8;

// Whether a table has a child for each byte for which one of the fronts has one.
pub fn fronts_within(s: &[u8], table: Table, fronts: &[Front]) -> bool
    requires { HasTable s.now table.at table.count × HasFronts s.now fronts.now 0 (length fronts.now) }
    ensures { SaysFronts s.now table.at table.count fronts.now result }
{
    if table.count <= FEW {
        return has_each_front(s, fronts, &|byte| has_child(s, table, byte));
    }
    let marks = marks_of(s, table);
    has_each_front(s, fronts, &|byte| marks[byte as usize])
}

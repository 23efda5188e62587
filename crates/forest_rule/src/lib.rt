// The index rule at all nodes below the root: each child with its fronts, runs of nodes with one child at once.
#![tactic(auto)]

ghost use Rattle.std.specs.Prelude.{◌≡◌, ◌≤◌, length, IfSome};
ghost use Rattle.location_lists.specs.Lists.{SameSpans};
ghost use Rattle.node_rule.specs.Parts.{HasTable};
ghost use Rattle.single_runs.specs.Runs.{LeafSays, SaysNone};
ghost use Rattle.forest_rule.specs.Says.{ChildAsked, ChildSays, ChildrenAsked, ChildrenSays, RunSays};

use fronts::{Front, LEVEL_SIZE, Place, STACK_SIZE};
use image_walk::Table;
use location_lists::{List, Lists};
use single_runs::{Pair, Run};

// No locations.
const NO_LIST: List = List { at: 0, count: 0 };

// Whether the child in a table of one entry has neither chunk nor suffix.
fn owes_none(s: &[u8], table: usize, lists: &mut Lists<'_>) -> bool
    requires { HasTable s.now table 1 × (512 ≤ length lists.old.each.now) }
    ensures says { SaysNone s.now table result }
    ensures lent { SameSpans lists.old lists.new }
{
    let only = Table {
        at: table,
        count: 1,
    };
    node_rule::child_lists(s, only, lists);
    lists.is_union(s, NO_LIST, 0)
}

// Whether the children in two tables of one entry, of a node and of its front, are right, if they are leaves by the same byte.
fn leaf_right(s: &[u8], tables: Pair, lists: &mut Lists<'_>) -> Option<bool>
    requires { HasTable s.now tables.table 1 × HasTable s.now tables.other 1 × (512 ≤ length lists.old.each.now) }
    ensures says { IfSome result (LeafSays s.now tables) }
    ensures lent { SameSpans lists.old lists.new }
{
    let table = Table {
        at: tables.table,
        count: 1,
    };
    let other = Table {
        at: tables.other,
        count: 1,
    };
    let entry = image_walk::slot_in(s, table, 0)?;
    let front = image_walk::slot_in(s, other, 0)?;
    if entry.byte != front.byte {
        return None;
    }
    let c = image_walk::node_at(s, entry.node);
    if !single_runs::is_leaf(c) {
        return None;
    }
    let f = image_walk::node_at(s, front.node);
    if f.table.count != 0 {
        return None;
    }
    lists.clear();
    node_rule::add_front(lists, f);
    Some(lists.is_union(s, c.prefixes, 1))
}

// The children in the table of a node at depth, where left levels are left below the node.
#[derive(Clone, Copy)]
pub struct Siblings {
    pub table: Table,
    pub depth: usize,
    pub left: usize,
}

// What a run below a node tells: whether all below the node is right, where that is known at its end, or how many levels
// it goes on, and the table where it ends. All above that is right.
#[derive(Clone, Copy)]
enum RunEnd {
    Said(bool),
    GoesOn(Run<usize>),
}

// The run below a node that has one child and fronts; its last front is put on the stack.
fn run_with_front(
    s: &[u8],
    below: Siblings,
    fronts: &mut [Front; STACK_SIZE],
    count: usize,
    lists: &mut Lists<'_>,
) -> RunEnd
    requires { ChildrenAsked s.now below fronts.old count × (below.table.count ≡ 1) × (512 ≤ length lists.old.each.now) }
    ensures says { RunSays s.now below fronts.old count fronts.new result }
    ensures lent { SameSpans lists.old lists.new }
{
    let here = RunEnd::GoesOn(Run::none(below.table.at));
    let front = fronts[below.depth * LEVEL_SIZE].table;
    if count != 1 || front.count != 1 {
        return here;
    }
    let tables = Pair {
        table: below.table.at,
        other: front.at,
    };
    let run = single_runs::common_run(s, tables, below.left);
    if let Some(right) = leaf_right(s, run.end, lists) {
        return RunEnd::Said(right);
    }
    if run.levels == 0 {
        return here;
    }
    if !owes_none(s, run.end.table, lists) {
        return RunEnd::Said(false);
    }
    let last = Table {
        at: run.end.other,
        count: 1,
    };
    fronts[(below.depth + run.levels) * LEVEL_SIZE] = Front::new(last);
    RunEnd::GoesOn(Run {
        levels: run.levels,
        end: run.end.table,
    })
}

// The run below a node, if there is one.
fn run_below(
    s: &[u8],
    below: Siblings,
    fronts: &mut [Front; STACK_SIZE],
    count: usize,
    lists: &mut Lists<'_>,
) -> RunEnd
    requires { ChildrenAsked s.now below fronts.old count × (512 ≤ length lists.old.each.now) }
    ensures says { RunSays s.now below fronts.old count fronts.new result }
    ensures lent { SameSpans lists.old lists.new }
{
    if below.table.count != 1 {
        return RunEnd::GoesOn(Run::none(below.table.at));
    }
    if count != 0 {
        return run_with_front(s, below, fronts, count, lists);
    }
    RunEnd::GoesOn(single_runs::single_run(s, below.table.at, below.left))
}

// One child: its prefixes are the chunks and prefixes of its fronts, one address
// further on, and it and all below it is right, where left levels are left below it.
#[cycle(rule)]
fn child_right(
    s: &[u8],
    child: Place,
    fronts: &mut [Front; STACK_SIZE],
    count: usize,
    lists: &mut Lists<'_>,
    left: usize,
) -> bool
    requires { ChildAsked s.now child fronts.old count left × (512 ≤ length lists.old.each.now) }
    ensures says { ChildSays s.now child fronts.old count left fronts.new result }
    ensures lent { SameSpans lists.old lists.new }
{
    let c = image_walk::node_at(s, child.at);
    let met = fronts::next_fronts(s, child, fronts, count, lists);
    if !lists.is_union(s, c.prefixes, 1) {
        return false;
    }
    let below = Siblings {
        table: c.table,
        depth: child.depth + 1,
        left,
    };
    // The nodes below come first, so that the image is read in its order.
    if !children_right(s, below, fronts, met, lists) {
        return false;
    }
    node_rule::node_right(s, c, below.depth, lists)
}

// The children of a node one after another: each is right, and each child of a front is a front of one of them.
#[cycle(rule)]
fn each_right(
    s: &[u8],
    here: Siblings,
    fronts: &mut [Front; STACK_SIZE],
    count: usize,
    lists: &mut Lists<'_>,
) -> bool
    requires { ChildrenAsked s.now here fronts.old count × (512 ≤ length lists.old.each.now) }
    ensures says { ChildrenSays s.now here fronts.old count fronts.new result }
    ensures lent { SameSpans lists.old lists.new }
{
    if here.left == 0 {
        return true;
    }
    for j in 0..here.table.count {
        if let Some(entry) = image_walk::slot_in(s, here.table, j) {
            let child = Place {
                byte: entry.byte,
                at: entry.node,
                depth: here.depth,
            };
            if !child_right(s, child, fronts, count, lists, here.left - 1) {
                return false;
            }
        }
    }
    let from = here.depth * LEVEL_SIZE;
    fronts::fronts_within(s, here.table, &fronts[from..from + count])
}

// The children of a node, after the run below it.
#[cycle(rule)]
pub fn children_right(
    s: &[u8],
    below: Siblings,
    fronts: &mut [Front; STACK_SIZE],
    count: usize,
    lists: &mut Lists<'_>,
) -> bool
    requires { ChildrenAsked s.now below fronts.old count × (512 ≤ length lists.old.each.now) }
    ensures says { ChildrenSays s.now below fronts.old count fronts.new result }
    ensures lent { SameSpans lists.old lists.new }
{
    match run_below(s, below, fronts, count, lists) {
        RunEnd::Said(right) => right,
        RunEnd::GoesOn(run) => {
            let here = Siblings {
                table: Table {
                    at: run.end,
                    count: below.table.count,
                },
                depth: below.depth + run.levels,
                left: below.left - run.levels,
            };
            each_right(s, here, fronts, count, lists)
        }
    }
}

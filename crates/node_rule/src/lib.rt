// The index rule at one node: its lists in order, its suffixes, what it owes.
#![tactic(auto)]

ghost use Rattle.std.specs.Prelude.{◌≡◌, ◌+◌, ◌*◌, ◌^◌, ◌≤◌, ◌<◌, length};
ghost use Rattle.trie.specs.Test.{lists_right};
ghost use Rattle.location_lists.specs.Lists.{SameSpans};
ghost use Rattle.node_rule.specs.Parts.{HasTable, HasParts, lists_of};
ghost use Rattle.node_rule.specs.OneNode.{with_two, ChildLists, is_owed, SaysSuffixes, SaysNode};

use image_walk::{Node, Table};
use location_lists::{List, Lists};

// Whether a node other than the root that has no child has a prefix or a chunk, and the root has no prefix.
fn is_owed(n: Node, depth: usize) -> bool
    ensures { result ≡ is_owed n depth }
{
    if depth == 0 {
        return n.prefixes.count == 0;
    }
    0 < n.table.count || 0 < n.prefixes.count || 0 < n.chunks.count
}

// Whether the three lists are sorted, and the chunks pass the checks on a piece of depth bytes.
fn lists_right(s: &[u8], n: Node, depth: usize) -> bool
    requires { HasParts s.now n }
    ensures { result ≡ lists_right depth (lists_of s.now n) }
{
    location_lists::is_ascending(s, n.prefixes)
        && location_lists::is_ascending(s, n.chunks)
        && location_lists::is_ascending(s, n.suffixes)
        && location_lists::are_sound(s, n.chunks, depth)
}

// Adds two lists of locations.
pub fn add_two(lists: &mut Lists<'_>, first: List, then: List)
    requires { (lists.old.count + 2 ≤ length lists.old.each.now) × (first.at + first.count * 24 < 2 ^ 64) × (then.at + then.count * 24 < 2 ^ 64) }
    ensures { lists.new ≡ with_two lists.old first then }
{
    lists.add(first);
    lists.add(then);
}

// Adds the chunks and prefixes of a node whose path has one byte more in front.
pub fn add_front(lists: &mut Lists<'_>, n: Node)
    requires { (lists.old.count + 2 ≤ length lists.old.each.now) × (n.chunks.at + n.chunks.count * 24 < 2 ^ 64) × (n.prefixes.at + n.prefixes.count * 24 < 2 ^ 64) }
    ensures { lists.new ≡ with_two lists.old n.chunks n.prefixes }
{
    add_two(lists, n.chunks, n.prefixes);
}

// Makes the lists those of the chunks and suffixes of the children in a table.
pub fn child_lists(s: &[u8], table: Table, lists: &mut Lists<'_>)
    requires { HasTable s.now table.at table.count × (512 ≤ length lists.old.each.now) }
    ensures says { ChildLists s.now table.at table.count lists.new }
    ensures lent { SameSpans lists.old lists.new }
{
    lists.clear();
    for j in 0..table.count {
        if let Some(entry) = image_walk::slot_in(s, table, j) {
            let child = image_walk::node_at(s, entry.node);
            add_two(lists, child.chunks, child.suffixes);
        }
    }
}

// Whether the suffixes of n are the chunks and suffixes of its children.
fn suffixes_right(s: &[u8], n: Node, lists: &mut Lists<'_>) -> bool
    requires { HasParts s.now n × (512 ≤ length lists.old.each.now) }
    ensures says { SaysSuffixes s.now n result }
    ensures lent { SameSpans lists.old lists.new }
{
    child_lists(s, n.table, lists);
    lists.is_union(s, n.suffixes, 0)
}

// What the rule says of one node and the lists of its children.
pub fn node_right(s: &[u8], n: Node, depth: usize, lists: &mut Lists<'_>) -> bool
    requires { HasParts s.now n × (512 ≤ length lists.old.each.now) }
    ensures says { SaysNode s.now n depth result }
    ensures lent { SameSpans lists.old lists.new }
{
    is_owed(n, depth) && lists_right(s, n, depth) && suffixes_right(s, n, lists)
}

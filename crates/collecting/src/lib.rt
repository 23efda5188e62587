// Collecting places from an image in place: what a node and all under it hold goes into a set of places.
#![tactic(auto)]

ghost use Rattle.std.specs.Prelude.{◌≡◌, ◌+◌, ◌*◌, ◌≤◌, ◌++◌, length, MatchOption, None, ⊤};
ghost use Rattle.definitions.specs.Location.{locations_in};
ghost use Rattle.image_walk.specs.Bounds.{TableHere};
ghost use Rattle.image_walk.specs.Here.{Laid};
ghost use Rattle.place_buffer.specs.Buffer.{Taken};
ghost use Rattle.collecting.specs.Collected.{Standing, Siblings, LeadsTo, Collected, AllCollected, Ended, Followed};

use image_walk::{Node, Table};
use location_lists::List;
use place_buffer::PlaceSet;

// Where following ends: the first node with other than one child, and how many levels are left below it.
#[derive(Clone, Copy)]
struct Stop {
    node: Node,
    left: usize,
}

// Adds the locations of a list in img to a set. Most lists are empty, and these cost no call.
fn take_any(img: &[u8], list: List, places: &mut PlaceSet<'_>) -> Option<()>
    requires { list.at + list.count * 24 ≤ length img.now }
    ensures { Taken places.old places.new (locations_in img.now list.count list.at) result }
{
    if list.count == 0 {
        if places.known.full {
            return None;
        }
        return Some(());
    }
    places.take_list(img, list)
}

// Adds the prefixes and chunks of a node.
fn take_both(img: &[u8], n: Node, places: &mut PlaceSet<'_>) -> Option<()>
    requires { (n.prefixes.at + n.prefixes.count * 24 ≤ length img.now) × (n.chunks.at + n.chunks.count * 24 ≤ length img.now) }
    ensures { Taken places.old places.new (locations_in img.now n.prefixes.count n.prefixes.at ++ locations_in img.now n.chunks.count n.chunks.at) result }
{
    take_any(img, n.prefixes, places)?;
    take_any(img, n.chunks, places)
}

// Where the only entry of a table leads; none where it has none, or several.
fn only_child(img: &[u8], table: Table) -> Option<usize>
    requires { TableHere img.now table.at table.count }
    ensures { MatchOption result ⊤ (λ at. LeadsTo img.now table at) }
{
    if table.count != 1 {
        return None;
    }
    image_walk::slot_in(img, table, 0).map(|e| e.node)
}

// Follows nodes with one child from index at down, and adds the prefixes and chunks of those that it leaves behind.
fn follow_single(img: &[u8], at: usize, left: usize, places: &mut PlaceSet<'_>) -> Option<Stop>
    requires { Standing img.now left at }
    ensures { MatchOption result (Collected img.now left at places.old places.new None) (λ e. Followed img.now left at places.old places.new e.node e.left) }
{
    if places.known.full {
        return None;
    }
    let mut node = image_walk::node_at(img, at);
    let mut rest = left;
    while let Some(next) = only_child(img, node.table) {
        take_both(img, node, places)?;
        node = image_walk::node_at(img, next);
        rest -= 1;
    }
    Some(Stop { node, left: rest })
}

// Adds the prefixes and chunks of the nodes that a table leads to, and of all under them.
// Each of those nodes has at most left levels below it.
#[cycle(collect_all_substrings_collect_children)]
fn collect_children(img: &[u8], table: Table, left: usize, places: &mut PlaceSet<'_>) -> Option<()>
    requires { Siblings img.now left table.at table.count }
    ensures { AllCollected img.now left table.at table.count places.old places.new result }
{
    if places.known.full {
        return None;
    }
    for j in 0..table.count {
        if let Some(e) = image_walk::slot_in(img, table, j) {
            collect_all_substrings(img, e.node, left, places)?;
        }
    }
    Some(())
}

// Adds the prefixes and chunks of the node at index at and of all under it: at most left levels.
#[cycle(collect_all_substrings_collect_children)]
pub fn collect_all_substrings(
    img: &[u8],
    at: usize,
    left: usize,
    places: &mut PlaceSet<'_>,
) -> Option<()>
    requires { Standing img.now left at }
    ensures { Collected img.now left at places.old places.new result }
{
    let end = follow_single(img, at, left, places)?;
    take_both(img, end.node, places)?;
    if end.left == 0 {
        return Some(());
    }
    collect_children(img, end.node.table, end.left - 1, places)
}

// Adds the suffixes and the chunks of the node at index at.
pub fn find_suffixes(img: &[u8], at: usize, places: &mut PlaceSet<'_>) -> Option<()>
    requires { Laid img.now at }
    ensures { Ended img.now at places.old places.new result }
{
    let n = image_walk::node_at(img, at);
    places.take_list(img, n.suffixes)?;
    places.take_list(img, n.chunks)
}

// Conflicts among the pieces of an image, found in place: its chunks against the root's suffixes, where all of them stand.
#![tactic(auto)]

ghost use Rattle.std.specs.Prelude.{◌≡◌, true, not, ◌+◌, ◌≤◌};
ghost use Rattle.definitions.specs.Calls.{last_number};
ghost use Rattle.definitions.specs.Conflicts.{free};
ghost use Rattle.location.specs.Plain.{plain};
ghost use Rattle.location_lists.specs.Lists.{held, Within};
ghost use Rattle.lined_locations.specs.Line.{location_of};
ghost use Rattle.trie.specs.Trie.{trie_pieces};
ghost use Rattle.trie.specs.Test.{index_rule};
ghost use Rattle.image_format.specs.Held.{trie_in};
ghost use Rattle.image_format.specs.Reading.{RightImage};
ghost use Rattle.image_conflicts.specs.Due.{lives_inside, all_clear, Ending, chunks_due};
ghost use Rattle.image_conflicts.specs.Cited.{NodeAsked, NodeSays, ChildrenAsked, ChildrenSays};

use definitions::{LOCATION_SIZE, PIECE_SIZE};
use image_walk::Node;
use lined_locations::{Line, LineKind, Ordered};
use location::SpacetimeLocation;
use location_lists::List;

// Whether no location behind the first address of a piece of m bytes at x, and before its end, lives together with it.
fn is_clear(v: Ordered<'_>, x: SpacetimeLocation, m: usize) -> bool
    requires { (1 ≤ m) × (x.address.0 + m ≤ last_number) }
    ensures { result ≡ not (lives_inside (location_of v.entry.line) v.entry.line.count m (plain x)) }
{
    let a = x.address.0;
    let g = v.first_from(0, a + 1, 0);
    !v.lives_among(g, x, a + m as u64)
}

// Whether that is so of each location of a list. A piece of one byte has no address behind its first.
fn all_clear(v: Ordered<'_>, list: List, m: usize) -> bool
    requires { Within v.line.bytes.now list × Ending m (held v.line.bytes.now list) }
    ensures { result ≡ all_clear (location_of v.entry.line) v.entry.line.count m (held v.entry.line.bytes.now list) }
{
    if m < 2 {
        return true;
    }
    for j in 0..list.count {
        let x = location::location_at(v.line.bytes, list.at + j * LOCATION_SIZE);
        if !is_clear(v, x, m) {
            return false;
        }
    }
    true
}

// How many chunks are due behind those of a node at depth m; none where two pieces conflict.
fn chunks_due(v: Ordered<'_>, chunks: List, m: usize, due: usize) -> Option<usize>
    requires { Within v.line.bytes.now chunks × Ending m (held v.line.bytes.now chunks) }
    ensures { result ≡ chunks_due (location_of v.entry.line) v.entry.line.count m (held v.entry.line.bytes.now chunks) due }
{
    let rest = due.checked_sub(chunks.count)?;
    all_clear(v, chunks, m).then_some(rest)
}

// How many chunks are due behind the children of the node n, which are at depth m, and all below them.
#[cycle(due)]
fn children_due(v: Ordered<'_>, n: Node, m: usize, left: usize, due: usize) -> Option<usize>
    requires { ChildrenAsked v.line.bytes.now n m left }
    ensures { ChildrenSays v.entry.line n m left due result }
{
    if left == 0 {
        return Some(due);
    }
    let mut rest = due;
    for j in 0..n.table.count {
        if let Some(entry) = image_walk::slot_in(v.line.bytes, n.table, j) {
            rest = node_due(v, entry.node, m, left - 1, rest)?;
        }
    }
    Some(rest)
}

// How many chunks are due behind the node at index at, at depth m, and all below it. Where a node has no suffixes there is
// no piece below it.
#[cycle(due)]
fn node_due(v: Ordered<'_>, at: usize, m: usize, left: usize, due: usize) -> Option<usize>
    requires { NodeAsked v.line.bytes.now at m left }
    ensures { NodeSays v.entry.line at m left due result }
{
    let n = image_walk::node_at(v.line.bytes, at);
    let rest = chunks_due(v, n.chunks, m, due)?;
    if n.suffixes.count == 0 {
        return Some(rest);
    }
    children_due(v, n, m + 1, left, rest)
}

// Whether no two pieces of an image conflict, for one whose layout is right and that meets the index rule. Each location
// is that of a chunk, so that there are more chunks than locations exactly if two share one.
pub fn conflict_free(s: &[u8]) -> bool
    requires { RightImage s.now × (index_rule (trie_in s.now) ≡ true) }
    ensures { result ≡ free (trie_pieces (trie_in s.now)) }
{
    if image_walk::is_empty(s) {
        return true;
    }
    let root = image_walk::node_at(s, 0);
    let line = Line {
        bytes: s,
        base: root.suffixes.at,
        count: root.suffixes.count,
        kind: LineKind::Row,
    };
    line.in_line() && children_due(Ordered { line }, root, 1, PIECE_SIZE, line.count).is_some()
}

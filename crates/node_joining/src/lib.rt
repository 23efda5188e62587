// The pieces of one node of an image joined with the places behind them.
#![tactic(auto)]

ghost use Rattle.std.specs.Prelude.{◌≡◌, true, ◌+◌, ◌-◌, ◌≤◌, ◌<◌, length, get_or, drop, eqb};
ghost use Rattle.definitions.specs.Places.{first_of};
ghost use Rattle.trie.specs.Find.{joins_each, ends_found};
ghost use Rattle.place_buffer.specs.Buffer.{Taken};
ghost use Rattle.joining.specs.Lists.{Ascends, listed, spanned};
ghost use Rattle.node_joining.specs.Found.{rooted, last_of, ended_lists};
ghost use Rattle.node_joining.specs.Layout.{lists_of, Listed, ended_at, ended_in, EndedHere, EndsNothing, ending_in, Ending, LaidOut};

use image_walk::Node;
use joining::Span;
use location_lists::List;
use place_buffer::PlaceSet;

// What ends at a node. Inside a query its prefixes are an empty list.
#[derive(Clone, Copy)]
pub struct Ended {
    pub prefixes: List,
    pub chunks: List,
}

// What ends at a node or goes beyond it, inside a query; two empty lists where there is no node.
#[derive(Clone, Copy)]
pub struct Beyond {
    pub suffixes: List,
    pub chunks: List,
}

// What is asked of an image: the query's bytes, with the places of its last byte.
#[derive(Clone, Copy)]
pub struct Query<'a> {
    pub img: &'a [u8],
    pub bytes: &'a [u8],
    pub last: Beyond,
    pub ghost some: { 0 < length bytes.now },
    pub ghost ending: { ∥ Ending img.now (last_of bytes.now) last ∥₁ },
}

// A step along a query from its byte i on: the node n is reached by those before byte j.
#[derive(Clone, Copy)]
pub struct Step {
    pub i: usize,
    pub j: usize,
    pub n: Node,
}

impl Ended {
    // What ends at the node n, at the query's front or inside it.
    fn at(n: Node, front: bool) -> Ended
        ensures { result ≡ ended_at front n }
    {
        Ended {
            prefixes: List {
                at: n.prefixes.at,
                count: if front { n.prefixes.count } else { 0 },
            },
            chunks: n.chunks,
        }
    }

    // Whether that is nothing.
    fn is_empty(self) -> bool
        ensures { result ≡ true → EndsNothing self }
    {
        self.prefixes.count == 0 && self.chunks.count == 0
    }
}

// Joins what ends at a node, k bytes long, with the places of a span, which stands before the set.
// Inside a query there are no prefixes, and they cost no call then.
fn join_node(img: &[u8], e: Ended, k: usize, behind: Span, places: &mut PlaceSet<'_>) -> Option<()>
    requires { EndedHere img.now e × (behind.from ≤ behind.to) × (behind.to ≤ places.old.known.base) }
    ensures { Taken places.old places.new (joins_each k (ended_in img.now e) (spanned places.old.scratch.now behind)) result }
{
    if e.prefixes.count == 0 {
        return joining::filter_results(img, e.chunks, k, behind, places);
    }
    joining::filter_results(img, e.prefixes, k, behind, places)?;
    joining::filter_results(img, e.chunks, k, behind, places)
}

// Joins what ends at a node, k bytes long, with a sorted list.
fn join_list(img: &[u8], e: Ended, k: usize, to: List, places: &mut PlaceSet<'_>) -> Option<()>
    requires { EndedHere img.now e × Ascends img.now to }
    ensures { Taken places.old places.new (joins_each k (ended_in img.now e) (listed img.now to)) result }
{
    joining::filter_lists(img, e.prefixes, k, to, places)?;
    joining::filter_lists(img, e.chunks, k, to, places)
}

// Joins what ends at a node, k bytes long, with the places of the query's last byte, which are two lists.
fn join_last(query: Query, e: Ended, k: usize, places: &mut PlaceSet<'_>) -> Option<()>
    requires { EndedHere query.img.now e }
    ensures { Taken places.old places.new (joins_each k (ended_in query.entry.img.now e) (ending_in query.entry.img.now query.entry.last)) result }
{
    join_list(query.img, e, k, query.last.suffixes, places)?;
    join_list(query.img, e, k, query.last.chunks, places)
}

// Joins what ends at the node of a step with the places of the query from j on, for those of the query from i on.
pub fn join_behind(
    query: Query,
    step: Step,
    ends: &[usize],
    places: &mut PlaceSet<'_>,
) -> Option<()>
    requires { Listed query.img.now step.n × (step.i < step.j) × (step.j < length query.bytes.now) × LaidOut (rooted query.img.now) query.bytes.now (step.i + 1) ends.now places.old.scratch.now × (places.old.known.base ≡ get_or ends.now (step.i + 1) 0) }
    ensures { Taken places.old places.new (joins_each (step.j - step.i) (ended_lists (eqb step.i 0) (lists_of query.entry.img.now step.n)) (first_of (ends_found (rooted query.entry.img.now) (drop step.j query.entry.bytes.now)))) result }
{
    if places.known.full {
        return None;
    }
    let j = step.j;
    let k = j - step.i;
    let e = Ended::at(step.n, step.i == 0);
    if e.is_empty() {
        return Some(());
    }
    if j + 1 == query.bytes.len() {
        return join_last(query, e, k, places);
    }
    let from = ends[j + 1];
    let to = ends[j];
    join_node(query.img, e, k, Span { from, to }, places)
}

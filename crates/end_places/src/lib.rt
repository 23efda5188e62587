// The places of one end of a query.
#![tactic(auto)]

ghost use Rattle.std.specs.Prelude.{◌≡◌, ◌+◌, ◌<◌, length, get_or, drop, eqb};
ghost use Rattle.collecting.specs.Collected.{Standing};
ghost use Rattle.place_buffer.specs.Buffer.{Taken};
ghost use Rattle.node_joining.specs.Found.{rooted, along_from};
ghost use Rattle.node_joining.specs.Layout.{Sound, Reached, LaidOut, EndFound};

use node_joining::{Query, Step};
use place_buffer::PlaceSet;

// A query of a sound image: what stays the same while its places are searched for.
#[derive(Clone, Copy)]
pub struct Search<'a> {
    pub query: Query<'a>,
    pub ghost sound: { ∥ Sound query.img.now ∥₁ },
}

// Adds what ends at the node at index at or goes beyond it.
fn find_beyond(img: &[u8], at: usize, front: bool, places: &mut PlaceSet<'_>) -> Option<()>
    requires { Standing img.now 16 at }
    ensures { Reached img.now at front places.old places.new result }
{
    if front {
        return collecting::collect_all_substrings(img, at, 16, places);
    }
    collecting::find_suffixes(img, at, places)
}

// Adds the places of the query from i on to a set, which stands behind those of its shorter ends.
fn find_places(search: Search, i: usize, ends: &[usize], places: &mut PlaceSet<'_>) -> Option<()>
    requires { (i < length search.query.bytes.now) × LaidOut (rooted search.query.img.now) search.query.bytes.now (i + 1) ends.now places.old.scratch.now × (places.old.known.base ≡ get_or ends.now (i + 1) 0) }
    ensures { Taken places.old places.new (along_from (eqb i 0) (rooted search.entry.query.img.now) (drop i search.entry.query.bytes.now)) result }
{
    if places.known.full {
        return None;
    }
    let query = search.query;
    let mut n = image_walk::node_at(query.img, 0);
    for j in i..query.bytes.len() - 1 {
        let Some(at) = image_walk::child_of(query.img, n, query.bytes[j]) else {
            return Some(());
        };
        n = image_walk::node_at(query.img, at);
        let step = Step { i, j: j + 1, n };
        node_joining::join_behind(query, step, ends, places)?;
    }
    let Some(end) = image_walk::child_of(query.img, n, query.bytes[query.bytes.len() - 1]) else {
        return Some(());
    };
    find_beyond(query.img, end, i == 0, places)
}

// Finds the places of the query from i on and puts them behind those of its shorter ends, sorted, each once.
// The number of the place behind them; none where they have no room.
pub fn find_end(search: Search, i: usize, ends: &[usize], scratch: &mut [u8]) -> Option<usize>
    requires { (i < length search.query.bytes.now) × LaidOut (rooted search.query.img.now) search.query.bytes.now (i + 1) ends.now scratch.old }
    ensures { EndFound (rooted search.entry.query.img.now) search.entry.query.bytes.now i ends.now scratch.old scratch.new result }
{
    let mut places = PlaceSet::behind(scratch, ends[i + 1]);
    find_places(search, i, ends, &mut places)?;
    places.tidy();
    Some(places.known.count)
}

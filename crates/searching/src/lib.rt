// Searching: the places of each end of a query, from its back, in scratch; then the rows.
#![tactic(auto)]

ghost use Rattle.std.specs.Prelude.{◌≡◌, ◌/◌, ◌≤◌, ◌<◌, length, OnSome};
ghost use Rattle.trie.specs.Rule.{Rule};
ghost use Rattle.image_format.specs.Held.{trie_in};
ghost use Rattle.row_buffer.specs.Answer.{finding_of, finding_in, AtFront};
ghost use Rattle.image_format.specs.Reading.{RightImage};
ghost use Rattle.node_joining.specs.Found.{rooted, last_of};
ghost use Rattle.node_joining.specs.Layout.{Sound, Ending, AllFound, Tabled, TableFound};
ghost use Rattle.searching.specs.Search.{search_answer};

use definitions::{LOCATION_SIZE, Refusal};
use end_places::Search;
use location_lists::List;
use node_joining::{Beyond, Query};

const NO_LIST: List = List { at: 0, count: 0 };

// The places of the query's last byte: two lists of its node.
fn last_places(img: &[u8], q: &[u8]) -> Beyond
    requires { Sound img.now × (0 < length q.now) }
    ensures { Ending img.now (last_of q.now) result }
{
    let root = image_walk::node_at(img, 0);
    let Some(at) = image_walk::child_of(img, root, q[q.len() - 1]) else {
        return Beyond {
            suffixes: NO_LIST,
            chunks: NO_LIST,
        };
    };
    let n = image_walk::node_at(img, at);
    Beyond {
        suffixes: n.suffixes,
        chunks: n.chunks,
    }
}

// Finds the places of all ends of the query, from its back, where so many are kept for those of its last byte: ends[i] counts
// those from i on. None where they have no room.
fn find_from(search: Search, count: usize, ends: &mut [usize], scratch: &mut [u8]) -> Option<()>
    requires { (1 < length search.query.bytes.now) × (length search.query.bytes.now < length ends.old) × (count ≤ length scratch.old / 24) }
    ensures { AllFound (rooted search.entry.query.img.now) search.entry.query.bytes.now count scratch.old ends.new scratch.new result }
{
    let end = search.query.bytes.len() - 1;
    ends[end] = count;
    for i in (0..end).rev() {
        ends[i] = end_places::find_end(search, i, ends, scratch)?;
    }
    Some(())
}

// Finds the places of all ends of the query, if they have room although those of the last byte that repeat count twice.
fn find_loosely(search: Search, ends: &mut [usize], scratch: &mut [u8]) -> Option<()>
    requires { (1 < length search.query.bytes.now) × (length search.query.bytes.now < length ends.old) }
    ensures { OnSome result (Tabled (rooted search.entry.query.img.now) search.entry.query.bytes.now ends.new scratch.new) }
{
    let last = search.query.last;
    let most = last.suffixes.count + last.chunks.count;
    if scratch.len() / LOCATION_SIZE < most {
        return None;
    }
    find_from(search, most, ends, scratch)
}

// Finds the places of all ends of the query. None where they have no room.
fn find_exactly(search: Search, ends: &mut [usize], scratch: &mut [u8]) -> Option<()>
    requires { (1 < length search.query.bytes.now) × (length search.query.bytes.now < length ends.old) }
    ensures { TableFound (rooted search.entry.query.img.now) search.entry.query.bytes.now scratch.old ends.new scratch.new result }
{
    let Query { img, last, .. } = search.query;
    let count = place_lookup::count_both(
        img,
        last.suffixes.at,
        last.suffixes.count,
        last.chunks.at,
        last.chunks.count,
    );
    if scratch.len() / LOCATION_SIZE < count {
        return None;
    }
    find_from(search, count, ends, scratch)
}

// Finds the places of all ends of the query. None where they have no room.
// Those of the last byte are many, and stand sorted in the image: they are only counted, and exactly only where room is scarce.
fn find_all(search: Search, ends: &mut [usize], scratch: &mut [u8]) -> Option<()>
    requires { length search.query.bytes.now < length ends.old }
    ensures { TableFound (rooted search.entry.query.img.now) search.entry.query.bytes.now scratch.old ends.new scratch.new result }
{
    if search.query.bytes.len() == 1 {
        ends[1] = 0;
        ends[0] = end_places::find_end(search, 0, ends, scratch)?;
        return Some(());
    }
    match find_loosely(search, ends, scratch) {
        Some(()) => Some(()),
        None => find_exactly(search, ends, scratch),
    }
}

// The rows of a query of at most 256 bytes in a sound image, where so many rows have room. Answers how many they are.
// An empty query has none, nor has an empty index.
pub fn search_image(img: &[u8], q: &[u8], scratch: &mut [u8], room: usize) -> Result<usize, Refusal>
    requires { RightImage img.now × Rule (trie_in img.now) × (length q.now ≤ 256) }
    ensures found { finding_in result ≡ finding_of (search_answer (trie_in img.now) q.now (length scratch.old) room) }
    ensures rows { AtFront (search_answer (trie_in img.now) q.now (length scratch.old) room).rows scratch.new }
{
    if q.is_empty() || image_walk::is_empty(img) {
        return Ok(0);
    }
    let query = Query {
        img,
        bytes: q,
        last: last_places(img, q),
    };
    let mut ends = [0usize; 257];
    let Some(()) = find_all(Search { query }, &mut ends, scratch) else {
        return Err(Refusal::ScratchTooSmall);
    };
    row_buffer::hand_over(scratch, ends[1], ends[0], room)
}

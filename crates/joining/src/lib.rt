// Joins locations that end where places begin, and adds what they have in common to a set of places.
#![tactic(auto)]

ghost use Rattle.std.specs.Prelude.{◌≡◌, ◌+◌, ◌*◌, ◌≤◌, ◌<◌, MatchOption};
ghost use Rattle.words.specs.Words.{le64};
ghost use Rattle.definitions.specs.Location.{location_at};
ghost use Rattle.definitions.specs.Places.{joins};
ghost use Rattle.location.specs.Plain.{plain};
ghost use Rattle.trie.specs.Find.{joins_each};
ghost use Rattle.place_buffer.specs.Buffer.{Taken};
ghost use Rattle.joining.specs.Lists.{Inside, Ascends, listed, spanned};
ghost use Rattle.joining.specs.Below.{below_count, NoneAt, FirstAt};

use definitions::LOCATION_SIZE;
use location::SpacetimeLocation;
use location_lists::List;
use place_buffer::PlaceSet;

// The places number from to to - 1 of scratch.
#[derive(Clone, Copy)]
pub struct Span {
    pub from: usize,
    pub to: usize,
}

// Location number i of a list.
fn location_in(img: &[u8], list: List, i: usize) -> SpacetimeLocation
    requires { Inside img.now list × (i < list.count) }
    ensures { plain result ≡ location_at img.now (list.at + i * 24) }
{
    location::location_at(img, list.at + i * LOCATION_SIZE)
}

// How many of a sorted list have an address below key.
fn count_below(img: &[u8], list: List, key: u64) -> usize
    requires { Ascends img.now list }
    ensures { result ≡ below_count key (listed img.now list) }
{
    halving::partition_point(0, list.count, |i| {
        words::get64(img, list.at + i * LOCATION_SIZE) < key
    })
}

// The number of the first location of a sorted list with the address key; none where none has it.
fn first_at(img: &[u8], list: List, key: u64) -> Option<usize>
    requires { Ascends img.now list }
    ensures { MatchOption result (NoneAt img.now list key) (FirstAt img.now list key) }
{
    let first = count_below(img, list, key);
    if first < list.count && location_in(img, list, first).address.0 == key {
        Some(first)
    } else {
        None
    }
}

// Joins x to those of a sorted list with the address of the first, from number first on.
fn join_from(
    img: &[u8],
    list: List,
    first: usize,
    x: SpacetimeLocation,
    places: &mut PlaceSet<'_>,
) -> Option<()>
    requires { Ascends img.now list × FirstAt img.now list (le64 img.now (list.at + first * 24)) first }
    ensures { Taken places.old places.new (joins (plain x) (le64 img.now (list.at + first * 24)) (listed img.now list)) result }
{
    if places.known.full {
        return None;
    }
    let key = location_in(img, list, first).address.0;
    for i in first..list.count {
        let m = location_in(img, list, i);
        if key < m.address.0 {
            return Some(());
        }
        if let Some(both) = x.overlap(m) {
            places.place(both)?;
        }
    }
    Some(())
}

// Joins a sorted list of locations of k bytes with the places of a span, which stands before the set.
// What each location has in common with the places that begin where it ends is added to the set.
pub fn filter_results(
    img: &[u8],
    list: List,
    k: usize,
    behind: Span,
    places: &mut PlaceSet<'_>,
) -> Option<()>
    requires { Ascends img.now list × (behind.from ≤ behind.to) × (behind.to ≤ places.old.known.base) }
    ensures { Taken places.old places.new (joins_each k (listed img.now list) (spanned places.old.scratch.now behind)) result }
{
    if places.known.full {
        return None;
    }
    if list.count == 0 {
        return Some(());
    }
    for t in behind.from..behind.to {
        let m = places.location(t);
        let Some(key) = m.address.0.checked_sub(k as u64) else {
            continue;
        };
        let Some(first) = first_at(img, list, key) else {
            continue;
        };
        join_from(img, list, first, m, places)?;
    }
    Some(())
}

// Joins a list of locations of k bytes with a sorted list.
// It serves where those are many: each location looks up where it ends.
pub fn filter_lists(
    img: &[u8],
    list: List,
    k: usize,
    to: List,
    places: &mut PlaceSet<'_>,
) -> Option<()>
    requires { Inside img.now list × Ascends img.now to }
    ensures { Taken places.old places.new (joins_each k (listed img.now list) (listed img.now to)) result }
{
    if places.known.full {
        return None;
    }
    for u in 0..list.count {
        let l = location_in(img, list, u);
        let Some(key) = l.address.0.checked_add(k as u64) else {
            continue;
        };
        let Some(first) = first_at(img, to, key) else {
            continue;
        };
        join_from(img, to, first, l, places)?;
    }
    Some(())
}

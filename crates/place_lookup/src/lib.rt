// Places that ascend in a slice, 24 bytes a place: how many come before one, whether one is there, how many two lists have together.
#![tactic(auto)]

ghost use Rattle.std.specs.Prelude.{◌≡◌, ◌+◌, ◌*◌, ◌≤◌, ◌++◌, length};
ghost use Rattle.definitions.specs.Location.{normal, locations_in};
ghost use Rattle.location.specs.Plain.{plain};
ghost use Rattle.place_lookup.specs.Lookup.{Ascending, before_count, There};

use definitions::LOCATION_SIZE;
use location::SpacetimeLocation;

// How many of the n ascending places from byte at on come before l.
pub fn places_before(scratch: &[u8], at: usize, n: usize, l: SpacetimeLocation) -> usize
    requires { (at + n * 24 ≤ length scratch.now) × Ascending (locations_in scratch.now n at) }
    ensures { result ≡ before_count (plain l) (locations_in scratch.now n at) }
{
    halving::partition_point(0, n, |i| {
        location::location_at(scratch, at + i * LOCATION_SIZE).before(l)
    })
}

// Whether l is one of the n ascending places from byte at on: it is, where the first that is not before it is not after it.
pub fn is_there(scratch: &[u8], at: usize, n: usize, l: SpacetimeLocation) -> bool
    requires { (at + n * 24 ≤ length scratch.now) × Ascending (locations_in scratch.now n at) }
    ensures { There result (plain l) (locations_in scratch.now n at) }
{
    let i = places_before(scratch, at, n, l);
    i < n && !l.before(location::location_at(scratch, at + i * LOCATION_SIZE))
}

// How many places two ascending lists have together: the n locations from byte a of img on, and the m from byte b on.
pub fn count_both(img: &[u8], a: usize, n: usize, b: usize, m: usize) -> usize
    requires { (a + n * 24 ≤ length img.now) × (b + m * 24 ≤ length img.now) × Ascending (locations_in img.now n a) × Ascending (locations_in img.now m b) }
    ensures { result ≡ length (normal (locations_in img.now n a ++ locations_in img.now m b)) }
{
    let mut count = n;
    for j in 0..m {
        let l = location::location_at(img, b + j * LOCATION_SIZE);
        if !is_there(img, a, n, l) {
            count += 1;
        }
    }
    count
}

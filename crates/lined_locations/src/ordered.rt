// Locations in line, and how they are searched.

ghost use Rattle.std.specs.Prelude.{◌≡◌, ◌-◌, ◌≤◌};
ghost use Rattle.location.specs.Plain.{plain};
ghost use Rattle.conflicts.specs.Lined.{earlier, first_from, lives_among, Lined};
ghost use Rattle.lined_locations.specs.Line.{location_of};

use crate::Line;
use location::SpacetimeLocation;

// A line whose locations are alive, each ahead of those behind it.
#[derive(Clone, Copy)]
pub struct Ordered<'a> {
    pub line: Line<'a>,
    pub ghost lined: { Lined line.count (location_of line) },
}

impl Ordered<'_> {
    // The first location from number from on that does not come before address b and tick c.
    pub fn first_from(self, from: usize, b: u64, c: u64) -> usize
        requires { from ≤ self.line.count }
        ensures { result ≡ first_from (location_of self.entry.line) (self.entry.line.count - from) from b c }
    {
        let line = self.line;
        halving::partition_point(from, line.count, |i| comes_before(line.location(i), b, c))
    }

    // Whether a location from number from on at an address below end lives together with x. At one address the last that is
    // created before x ends decides: those before it have ended earlier.
    pub fn lives_among(self, from: usize, x: SpacetimeLocation, end: u64) -> bool
        requires { from ≤ self.line.count }
        ensures { result ≡ lives_among (location_of self.entry.line) (self.entry.line.count - from) from (plain x) end }
    {
        let mut g = from;
        while g < self.line.count {
            let l = self.line.location(g);
            let b = l.address.0;
            if end <= b {
                return false;
            }
            let q = self.first_from(g, b, x.destroyed_at.0);
            if g < q && x.created_at.0 < self.line.location(q - 1).destroyed_at.0 {
                return true;
            }
            g = self.first_from(q, b + 1, 0);
        }
        false
    }
}

// Whether l comes before address b and tick c. By branches: where blocks come in order the search goes one way, and the processor
// foresees it.
fn comes_before(l: SpacetimeLocation, b: u64, c: u64) -> bool
    ensures { result ≡ earlier (plain l) b c }
{
    if l.address.0 < b {
        return true;
    }
    if b < l.address.0 {
        return false;
    }
    l.created_at.0 < c
}

// Locations in line, found in memory by their number: one after the other, or in a log by the numbers of a certificate.
#![tactic(auto)]

ghost use Rattle.std.specs.Prelude.{◌≡◌, ◌-◌, ◌<◌};
ghost use Rattle.location.specs.Plain.{plain};
ghost use Rattle.conflicts.specs.Lined.{is_ahead, in_line};
ghost use Rattle.lined_locations.specs.Places.{Within};

use definitions::LOCATION_SIZE;
use location::SpacetimeLocation;
use memory_header::{HEADER_SIZE, LOGGED_SIZE};

mod ordered;

pub use ordered::Ordered;

// What an entry of a certificate takes in bytes: a number and an end.
pub const CERTIFIED_SIZE: usize = 16;

// The location of a piece in the log stands behind its length and its bytes.
const PIECE_LOCATION: usize = 24;

// How locations stand in memory.
#[derive(Clone, Copy, Debug, PartialEq, Eq)]
pub enum LineKind {
    // One behind the other, 24 bytes each.
    Row,
    // In the log, by the numbers of a certificate.
    Logged,
}

// So many locations within the memory. The row begins at index base, or the certificate does.
#[derive(Clone, Copy)]
pub struct Line<'a> {
    pub bytes: &'a [u8],
    pub base: usize,
    pub count: usize,
    pub kind: LineKind,
    pub ghost within: { Within kind bytes.now base count },
}

impl Line<'_> {
    ghost use Rattle.lined_locations.specs.Line.{place_of, location_of};

    // Where location i stands.
    #[tactic(auto, using(crate::proofs::Places::logged_within))]
    fn place(self, i: usize) -> usize
        requires { i < self.count }
        ensures { result ≡ place_of self.entry i }
    {
        match self.kind {
            LineKind::Row => self.base + LOCATION_SIZE * i,
            LineKind::Logged => {
                let number = words::get64(self.bytes, self.base + CERTIFIED_SIZE * i) as usize;
                HEADER_SIZE + LOGGED_SIZE * number + PIECE_LOCATION
            }
        }
    }

    // Location i.
    pub fn location(self, i: usize) -> SpacetimeLocation
        requires { i < self.count }
        ensures { plain result ≡ location_of self.entry i }
    {
        location::location_at(self.bytes, self.place(i))
    }

    // Whether each location is ahead of the next.
    pub fn in_line(self) -> bool
        ensures { result ≡ in_line (location_of self.entry) (self.entry.count - 1) }
    {
        for i in 1..self.count {
            if !ahead(self.location(i - 1), self.location(i)) {
                return false;
            }
        }
        true
    }
}

// Whether l is at a lesser address than m, or at the same one and has ended when m is created.
fn ahead(l: SpacetimeLocation, m: SpacetimeLocation) -> bool
    ensures { result ≡ is_ahead (plain l) (plain m) }
{
    l.address < m.address || l.address == m.address && l.destroyed_at <= m.created_at
}

// Locations in space and time: where a block stood, from which tick on and until which.
#![tactic(auto)]

ghost use Rattle.std.specs.Prelude.{◌≡◌, ◌+◌, ◌^◌, ◌≤◌, ◌<◌, length};
ghost use Rattle.std.proofs.lemmas.List.Edits.{sets};
ghost use Rattle.definitions.specs.Location as D;
ghost use Rattle.location.specs.Plain.{plain, common_of};

// An address. It is added only to byte counts.
#[derive(Clone, Copy, Debug, PartialEq, Eq, PartialOrd, Ord)]
pub struct Address(pub u64);

// A tick. Nothing is added to it.
#[derive(Clone, Copy, Debug, PartialEq, Eq, PartialOrd, Ord)]
pub struct Tick(pub u64);

// Where something stands, from which tick on and until which. The order of its fields is that of locations.
#[derive(Clone, Copy, Debug, PartialEq, Eq, PartialOrd, Ord)]
pub struct SpacetimeLocation {
    pub address: Address,
    pub created_at: Tick,
    pub destroyed_at: Tick,
}

impl SpacetimeLocation {
    // From plain numbers, as they stand in files.
    pub fn new(address: u64, created_at: u64, destroyed_at: u64) -> Self
        ensures { plain result ≡ record { address = address; created = created_at; destroyed = destroyed_at } }
    {
        Self {
            address: Address(address),
            created_at: Tick(created_at),
            destroyed_at: Tick(destroyed_at),
        }
    }

    // The same life, n bytes further on.
    pub fn moved(self, n: usize) -> Self
        requires { self.address.0 + n < 2 ^ 64 }
        ensures { plain result ≡ D.moved (plain self) n }
    {
        let created_at = self.created_at;
        let destroyed_at = self.destroyed_at;
        Self {
            address: Address(self.address.0 + n as u64),
            created_at,
            destroyed_at,
        }
    }

    // The life that both have in common. Lives that only touch have none, since nothing lives at the tick of its end.
    pub fn overlap(self, other: SpacetimeLocation) -> Option<SpacetimeLocation>
        ensures { common_of result ≡ D.overlap (plain self) (plain other) }
    {
        if self.created_at < other.destroyed_at && other.created_at < self.destroyed_at {
            return Some(SpacetimeLocation {
                address: self.address.min(other.address),
                created_at: self.created_at.max(other.created_at),
                destroyed_at: self.destroyed_at.min(other.destroyed_at),
            });
        }
        None
    }

    // Whether it comes first in the order of locations: address, creation, end.
    pub fn before(self, other: SpacetimeLocation) -> bool
        ensures { result ≡ D.is_lt (D.order (plain self) (plain other)) }
    {
        self < other
    }
}

// The location in the 24 bytes from index at on.
pub fn location_at(s: &[u8], at: usize) -> SpacetimeLocation
    requires { at + 24 ≤ length s.now }
    ensures { plain result ≡ D.location_at s.now at }
{
    SpacetimeLocation::new(
        words::get64(s, at),
        words::get64(s, at + 8),
        words::get64(s, at + 16),
    )
}

// Writes a location to the 24 bytes from index at on.
pub fn put_location(s: &mut [u8], at: usize, l: SpacetimeLocation)
    requires { at + 24 ≤ length s.old }
    ensures { s.new ≡ sets s.old at (D.location_bytes (plain l)) }
{
    words::put64(s, at, l.address.0);
    words::put64(s, at + 8, l.created_at.0);
    words::put64(s, at + 16, l.destroyed_at.0);
}

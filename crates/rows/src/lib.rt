// Rows as records: where a query stands, from which tick on and until which. They are handed over in a lent slice.
#![tactic(auto)]

ghost use Rattle.std.specs.Prelude.{◌≡◌, ◌*◌, ◌≤◌, length};
ghost use Rattle.definitions.specs.Location.{locations_in};
ghost use Rattle.location.specs.Plain.{plain};
ghost use Rattle.rows.specs.Rows.{row_of, rows_over};

use definitions::LOCATION_SIZE;
use location::SpacetimeLocation;

// Three numbers side by side, so that programs in other languages can lend rows.
#[repr(C)]
#[derive(Clone, Copy)]
pub struct Row {
    pub address: u64,
    pub created_at: u64,
    pub destroyed_at: u64,
}

impl From<SpacetimeLocation> for Row {
    ghost from_gives = { λ l row. row ≡ row_of (plain l) };

    fn from(l: SpacetimeLocation) -> Self {
        Self {
            address: l.address.0,
            created_at: l.created_at.0,
            destroyed_at: l.destroyed_at.0,
        }
    }
}

// Hands over the n rows at the front of bytes. Rows after the last are left as they are.
pub fn put_rows(rows: &mut [Row], from: &[u8], n: usize)
    requires { (n ≤ length rows.old) × (n * 24 ≤ length from.now) }
    ensures { rows.new ≡ rows_over (locations_in from.now n 0) rows.old }
{
    for i in 0..n {
        rows[i] = Row::from(location::location_at(from, i * LOCATION_SIZE));
    }
}

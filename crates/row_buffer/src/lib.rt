// Rows: places with lives that touch, joined.
#![tactic(auto)]

ghost use Rattle.std.specs.Prelude.{◌≡◌, ◌+◌, ◌-◌, ◌*◌, ◌≤◌, ◌<◌, length};
ghost use Rattle.std.proofs.lemmas.List.Edits.{sets};
ghost use Rattle.definitions.specs.Location.{location_at, location_bytes, locations_in, locations_bytes};
ghost use Rattle.definitions.specs.Rows.{goes_on, combine_split_times};
ghost use Rattle.row_buffer.specs.RowPlaces.{row_size, row_at, ended};
ghost use Rattle.row_buffer.specs.Answer.{finding_of, finding_in, AtFront, rows_answer};

use definitions::{LOCATION_SIZE, Refusal};
use location::SpacetimeLocation;

// Whether the place at byte p goes on from a row with an address and an end.
fn goes_on(scratch: &[u8], p: usize, address: u64, end: u64) -> bool
    requires { p + 24 ≤ length scratch.now }
    ensures { result ≡ goes_on (ended address end) (location_at scratch.now p) }
{
    address == words::get64(scratch, p) && end == words::get64(scratch, p + 8)
}

// How many of the n places from byte at on are of the first one's row.
fn row_end(scratch: &[u8], at: usize, n: usize) -> usize
    requires { (0 < n) × (at + n * 24 ≤ length scratch.now) }
    ensures { result ≡ row_size (locations_in scratch.now n at) }
{
    let address = words::get64(scratch, at);
    let mut end = words::get64(scratch, at + 16);
    for u in 1..n {
        let p = at + u * LOCATION_SIZE;
        if !goes_on(scratch, p, address, end) {
            return u;
        }
        end = words::get64(scratch, p + 16);
    }
    n
}

// Writes the row of the places from byte p to byte q on to byte w: the first one's address and creation, and the last one's end.
fn put_row(scratch: &mut [u8], p: usize, q: usize, w: usize)
    requires { (p + 24 ≤ length scratch.old) × (q + 24 ≤ length scratch.old) × (w + 24 ≤ length scratch.old) }
    ensures { scratch.new ≡ sets scratch.old w (location_bytes (row_at scratch.old p q)) }
{
    let first = location::location_at(scratch, p);
    let last = location::location_at(scratch, q);
    let row = SpacetimeLocation {
        destroyed_at: last.destroyed_at,
        ..first
    };
    location::put_location(scratch, w, row);
}

// Joins the n places from byte at on: their rows come to stand at the front of scratch. Answers how many they are.
// A row is written where a place was read before: there are never more rows than places passed.
#[tactic(auto, using(crate::proofs::Loops::writing_fits))]
pub fn combine_split_times(scratch: &mut [u8], at: usize, n: usize) -> usize
    requires { at + n * 24 ≤ length scratch.old }
    ensures count { result ≡ length (combine_split_times (locations_in scratch.old n at)) }
    ensures bytes { scratch.new ≡ sets scratch.old 0 (locations_bytes (combine_split_times (locations_in scratch.old n at))) }
{
    let mut p = at;
    let mut left = n;
    let mut count = 0;
    while 0 < left {
        let k = row_end(scratch, p, left);
        put_row(
            scratch,
            p,
            p + (k - 1) * LOCATION_SIZE,
            count * LOCATION_SIZE,
        );
        p += k * LOCATION_SIZE;
        left -= k;
        count += 1;
    }
    count
}

// The rows of the places number from to to - 1, at the front of scratch, where so many have room. Answers how many they are.
pub fn hand_over(scratch: &mut [u8], from: usize, to: usize, room: usize) -> Result<usize, Refusal>
    requires { (from ≤ to) × (to * 24 ≤ length scratch.old) }
    ensures found { finding_in result ≡ finding_of (rows_answer (combine_split_times (locations_in scratch.old (to - from) (from * 24))) room) }
    ensures rows { AtFront (rows_answer (combine_split_times (locations_in scratch.old (to - from) (from * 24))) room).rows scratch.new }
{
    let count = combine_split_times(scratch, from * LOCATION_SIZE, to - from);
    if room < count {
        return Err(Refusal::TooManyRows);
    }
    Ok(count)
}

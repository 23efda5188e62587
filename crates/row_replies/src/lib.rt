// The replies with the rows of a search.
#![tactic(auto)]

ghost use Rattle.std.specs.Prelude.{◌+◌, ◌*◌, ◌≤◌, length};
ghost use Rattle.definitions.specs.Location.{locations_in, location_at};
ghost use Rattle.definitions.specs.Program.{place, found};
ghost use Rattle.replies.specs.Written.{reply_bytes};
ghost use Rattle.replies.specs.Outputs.{Writes};
ghost use Rattle.replies.specs.Replies.{replies_bytes};

use definitions::LOCATION_SIZE;
use replies::Output;

// The place of the row in the 24 bytes of scratch from index p on.
fn put_row(out: &mut Output, scratch: &[u8], p: usize)
    requires { (out.old.at + 71 ≤ length out.old.bytes.now) × (p + 24 ≤ length scratch.now) }
    ensures { Writes out.old (reply_bytes (place (location_at scratch.now p))) out.new }
{
    let l = location::location_at(scratch, p);
    out.put_place(l.address.0, l.created_at.0, l.destroyed_at.0);
}

// The places of the n rows at the front of scratch, and how many they are.
pub fn put_rows(out: &mut Output, scratch: &[u8], n: usize)
    requires { (out.old.at + n * 71 + 27 ≤ length out.old.bytes.now) × (n * 24 ≤ length scratch.now) }
    ensures written { Writes out.old (replies_bytes (found (locations_in scratch.now n 0))) out.new }
    ensures upper_bound { out.new.at ≤ out.old.at + n * 71 + 27 }
{
    for i in 0..n {
        put_row(out, scratch, i * LOCATION_SIZE);
    }
    out.put_end(n as u64);
}

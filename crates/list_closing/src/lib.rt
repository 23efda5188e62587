// Locations in memory made a list of the image: sorted, each once, with their count before them.
#![tactic(auto)]

ghost use Rattle.std.specs.Prelude.{◌+◌, ◌*◌, ◌≤◌, length};
ghost use Rattle.definitions.specs.Location.{locations_in};
ghost use Rattle.list_closing.specs.Closed.{Closed};

// Makes a list of the n locations behind index at: sorted, each once, with their count at index at; how many are kept.
fn close_many(mem: &mut [u8], at: usize, n: usize) -> usize
    requires { at + 8 + 24 * n ≤ length mem.old }
    ensures { Closed mem.old mem.new at n (locations_in mem.old n (at + 8)) result }
{
    let from = at + 8;
    sort::sort::<3>(mem, from, n);
    let kept = records::drop_repeats::<3>(mem, from, n);
    words::put64(mem, at, kept as u64);
    kept
}

// The same; a single location, or none, is a list already, which most are.
pub fn close_list(mem: &mut [u8], at: usize, n: usize) -> usize
    requires { at + 8 + 24 * n ≤ length mem.old }
    ensures { Closed mem.old mem.new at n (locations_in mem.old n (at + 8)) result }
{
    if 1 < n {
        return close_many(mem, at, n);
    }
    words::put64(mem, at, n as u64);
    n
}

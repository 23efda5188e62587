// The tally of a header: what record and finish make of it.
#![tactic(auto)]

ghost use Rattle.std.specs.Prelude.{◌≡◌, ◌+◌, ◌^◌, ◌<◌};
ghost use Rattle.tally.specs.Tallied.{recorded, finished};
ghost use Rattle.header_tally.specs.Tallies.{with_tally};

use memory_header::Header;

// The header after a block that charges these nodes and entries: its tally is lent to `record`, and callers see headers alone.
pub fn charged(h: Header, nodes: usize, entries: usize, payload: usize) -> Header
    requires { (h.tally.nodes + nodes < 2 ^ 64) × (h.tally.entries + entries < 2 ^ 64) }
    ensures { result ≡ with_tally h (recorded h.tally nodes entries) payload }
{
    let mut tally = h.tally;
    tally::record(&mut tally, nodes, entries);
    Header {
        tally,
        payload,
        ..h
    }
}

// The header of the finished index, which has these nodes and entries left: its tally is lent to `finish`.
pub fn closed(h: Header, nodes: usize, entries: usize, payload: usize) -> Header
    ensures { result ≡ with_tally h (finished nodes entries) payload }
{
    let mut tally = h.tally;
    tally::finish(&mut tally, nodes, entries);
    Header {
        tally,
        payload,
        ..h
    }
}

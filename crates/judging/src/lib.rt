// A block judged by the header and the certificate of an open index: the header that counts it too, or why it is refused.
#![tactic(auto)]

ghost use Rattle.std.specs.Prelude.{◌≡◌, ◌≤◌, length};
ghost use Rattle.location.specs.Plain.{plain};
ghost use Rattle.memory_header.specs.Answers.{header_of};
ghost use Rattle.definitions.specs.Blocks.{pieces};
ghost use Rattle.definitions.specs.Conflicts.{clash};
ghost use Rattle.certificate.specs.Stored.{pieces_in, Stored};
ghost use Rattle.judging.specs.Judged.{piece_count, block_nodes, counted_within, judged};
ghost use Rattle.judging.specs.Verdicts.{verdict_of};

use definitions::{DATA_LIMIT, PIECE_SIZE, Refusal};
use location::SpacetimeLocation;
use memory_header::Header;

// The nodes that a piece of 16 bytes charges.
const WHOLE_PIECE_NODES: usize = 136;

// The nodes that the pieces of a block of n bytes charge together.
fn block_nodes(n: usize) -> usize
    requires { n ≤ 4096 }
    ensures { result ≡ block_nodes n }
{
    n / PIECE_SIZE * WHOLE_PIECE_NODES + index_memory::piece_nodes(n % PIECE_SIZE)
}

// The header that counts a block of n bytes too, if there is room for it.
fn count_block(h: Header, n: usize) -> Result<Header, Refusal>
    requires { (n ≤ 4096) × (h.tally.nodes ≤ h.capacity.nodes) × (h.tally.entries ≤ h.capacity.entries) × (h.payload ≤ h.tally.entries) }
    ensures { verdict_of result ≡ counted_within (header_of h) n }
{
    let nodes = block_nodes(n);
    let entries = index_memory::entry_charge(n);
    if h.capacity.nodes - h.tally.nodes < nodes {
        return Err(Refusal::TooManyNodes);
    }
    if h.capacity.entries - h.tally.entries < entries {
        return Err(Refusal::TooManyEntries);
    }
    let pieces = piece_count(n);
    Ok(header_tally::charged(h, nodes, entries, h.payload + pieces))
}

// How many pieces a block of n bytes has.
pub fn piece_count(n: usize) -> usize
    requires { n ≤ 4096 }
    ensures { result ≡ piece_count n }
{
    n.div_ceil(PIECE_SIZE).max(1)
}

// A Memory block judged behind the pieces that h counts, of which so many have a byte: the header that counts it too.
pub fn judge(
    mem: &[u8],
    h: Header,
    count: usize,
    l: SpacetimeLocation,
    data: &[u8],
) -> Result<Header, Refusal>
    requires { (h.tally.nodes ≤ h.capacity.nodes) × (h.tally.entries ≤ h.capacity.entries) × (h.payload ≤ h.tally.entries) × Stored mem.now (header_of h) count }
    ensures { verdict_of result ≡ judged (header_of h) (clash (pieces (record { bytes = «data».now; at = plain l })) (pieces_in mem.now (header_of h))) (length «data».now) (plain l) }
{
    let n = data.len();
    if DATA_LIMIT < n {
        return Err(Refusal::DataTooLong);
    }
    if l.destroyed_at.0 <= l.created_at.0 {
        return Err(Refusal::NoLife);
    }
    if u64::MAX - (n as u64) < l.address.0 {
        return Err(Refusal::AddressTooHigh);
    }
    if clashing::clashes(mem, h, count, l, n) {
        return Err(Refusal::Conflict);
    }
    count_block(h, n)
}

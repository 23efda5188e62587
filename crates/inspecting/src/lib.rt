// What a lent memory holds, tested before any call relies on it: no index, an open one, or a finished one.
#![tactic(auto)]

ghost use Rattle.std.specs.Prelude.{◌≡◌};
ghost use Rattle.std.proofs.Math.Option.{some};
ghost use Rattle.memory_header.specs.Answers.{header_of, heading_at};
ghost use Rattle.inspecting.specs.Held.{SaysImage, Inspects};

use definitions::Refusal;
use memory_header::{HEADER_SIZE, Header};
use tally::Phase;

// The index that a memory holds, by its header.
#[derive(Clone, Copy)]
pub enum Held {
    Open(Header),
    Finished(Header),
}

// Whether a finished index's image is right, with the tally that finish sets.
fn image_right(mem: &[u8], h: Header) -> bool
    requires { (heading_at mem.now ≡ some (header_of h)) × ((header_of h).phase ≡ 1) }
    ensures { SaysImage mem.now (header_of h) result }
{
    let Ok(t) = index_rule::check(&mem[HEADER_SIZE..HEADER_SIZE + h.payload]) else {
        return false;
    };
    h.tally.nodes == t.nodes && h.tally.entries == t.entries
}

// What a memory holds: the index rule on all of it.
pub fn inspect(mem: &[u8]) -> Result<Held, Refusal>
    ensures { Inspects mem.now result }
{
    let h = memory_header::header_in(mem).ok_or(Refusal::IndexRuleBroken)?;
    match Phase::try_from(h.tally.phase) {
        Ok(Phase::Open) if index_memory::log_right(mem, h) && certificate::order_right(mem, h) => {
            Ok(Held::Open(h))
        }
        Ok(Phase::Finished) if image_right(mem, h) => Ok(Held::Finished(h)),
        _ => Err(Refusal::IndexRuleBroken),
    }
}

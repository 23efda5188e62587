// Recording a stream into an open index: each block is read and entered, the first refusal stops it, and one header is put at last.
#![tactic(auto)]

ghost use Rattle.std.specs.Prelude.{◌≡◌, ◌≤◌, ◌<◌, length, IfOk};
ghost use Rattle.definitions.specs.BlockStream.{read_block};
ghost use Rattle.definitions.specs.Refusals.{number_in};
ghost use Rattle.definitions.specs.SpaceKinds.{kind_number};
ghost use Rattle.memory_header.specs.Layout.{header_at, with_header};
ghost use Rattle.memory_header.specs.Answers.{header_of};
ghost use Rattle.index_memory.specs.Log.{log_in};
ghost use Rattle.index_memory.specs.Index.{read_index, opened};
ghost use Rattle.block_stream.specs.Answer.{block_of};
ghost use Rattle.recording.specs.Enter.{Pending, judged_by_kind, entered};
ghost use Rattle.stream_recording.specs.Stream.{record_stream};
ghost use Rattle.stream_recording.specs.Progress.{on_or_halted, next_progress, entered_next};
ghost use Rattle.stream_recording.specs.Answers.{Behind, progress_of, entered_of, next_of, Filled, FilledNext, streamed_number, streamed_taken};

use block_stream::Block;
use definitions::Refusal;
use location::SpacetimeLocation;
use memory_header::Header;

// A stream call that stopped at a refusal, behind so many blocks that were taken.
#[derive(Clone, Copy, Debug, PartialEq, Eq)]
pub struct Stopped {
    pub taken: u64,
    pub refusal: Refusal,
}

// What is refused before a block is read has taken none.
impl From<Refusal> for Stopped {
    ghost from_gives = { Behind 0 };

    fn from(refusal: Refusal) -> Stopped {
        Stopped { taken: 0, refusal }
    }
}

// How far a stream is recorded: the header that counts what was taken, how many of its pieces have a byte, the cursor, and how many
// blocks were taken.
#[derive(Clone, Copy)]
struct Progress {
    header: Header,
    filled: usize,
    at: usize,
    taken: u64,
}

// Enters a block of the stream: how far it is recorded then.
fn enter_block(mem: &mut [u8], b: Block<'_>, p: Progress) -> Result<Progress, Refusal>
    requires { Pending mem.old (header_of p.header) × Filled mem.old p × (p.taken < b.next) }
    ensures progress { entered_of p result ≡ on_or_halted (progress_of p) b.entry.next (judged_by_kind mem.old (header_of p.header) (kind_number b.entry.kind) (block_of b.entry)) }
    ensures memory { mem.new ≡ entered mem.old (header_of p.header) (kind_number b.entry.kind) (block_of b.entry) }
    ensures filled { IfOk result (Filled mem.new) }
{
    let l = SpacetimeLocation::new(b.address, b.created_at, b.destroyed_at);
    let kind = b.kind.number();
    let header = recording::enter(mem, p.header, p.filled, kind, l, b.data)?;
    Ok(Progress {
        header,
        filled: recording::filled_after(p.filled, kind, b.data.len()),
        at: b.next,
        taken: p.taken + 1,
    })
}

// Reads the block at the cursor and enters it; none at the stream's end.
fn record_next(mem: &mut [u8], stream: &[u8], p: Progress) -> Result<Option<Progress>, Refusal>
    requires { Pending mem.old (header_of p.header) × Filled mem.old p × (p.taken ≤ p.at) }
    ensures progress { next_of p result ≡ next_progress mem.old (progress_of p) (read_block stream.now p.at) }
    ensures memory { mem.new ≡ entered_next mem.old (header_of p.header) (read_block stream.now p.at) }
    ensures filled { FilledNext mem.new result }
{
    let Some(b) = block_stream::read_block(stream, p.at)? else {
        return Ok(None);
    };
    Ok(Some(enter_block(mem, b, p)?))
}

// Puts the header that counts what was taken, and answers.
fn close(mem: &mut [u8], p: Progress, ended: Result<(), Refusal>) -> Result<u64, Stopped>
    requires { 64 ≤ length mem.old }
    ensures memory { mem.new ≡ with_header mem.old (header_of p.header) }
    ensures number { streamed_number result ≡ number_in ended }
    ensures taken { streamed_taken result ≡ p.taken }
{
    memory_header::put_header(mem, p.header);
    match ended {
        Ok(()) => Ok(p.taken),
        Err(refusal) => Err(Stopped {
            taken: p.taken,
            refusal,
        }),
    }
}

// Records the blocks of a stream into an open index, and answers how many were taken: h is the header of its memory.
pub fn record_blocks(mem: &mut [u8], h: Header, stream: &[u8]) -> Result<u64, Stopped>
    requires { (header_at mem.old ≡ header_of h) × (read_index mem.old ≡ opened (header_of h).capacity (log_in mem.old h.payload 64)) }
    ensures number { streamed_number result ≡ (record_stream mem.old stream.now).refusal }
    ensures taken { streamed_taken result ≡ (record_stream mem.old stream.now).taken }
    ensures memory { mem.new ≡ (record_stream mem.old stream.now).memory }
{
    let filled = certificate::filled(mem, h.payload);
    let mut p = Progress {
        header: h,
        filled,
        at: 0,
        taken: 0,
    };
    loop {
        match record_next(mem, stream, p) {
            Ok(Some(next)) => p = next,
            Ok(None) => return close(mem, p, Ok(())),
            Err(refusal) => return close(mem, p, Err(refusal)),
        }
    }
}

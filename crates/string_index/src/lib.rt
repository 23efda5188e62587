// The calls of the index. Each but opening inspects the lent memory first, so none asks anything of it.
#![tactic(auto)]

ghost use Rattle.std.specs.Prelude.{◌≡◌, IfOk};
ghost use Rattle.definitions.specs.Refusals.{number_in};
ghost use Rattle.location.specs.Plain.{plain};
ghost use Rattle.recording.specs.Record.{record_memory};
ghost use Rattle.stream_recording.specs.Stream.{record_stream};
ghost use Rattle.stream_recording.specs.Answers.{streamed_number, streamed_taken};
ghost use Rattle.saving.specs.Saving.{save_memory, load_memory};
ghost use Rattle.string_index.specs.Finish.{finish_memory};

pub use definitions::Refusal;
pub use handing_over::{search, search_number};
use inspecting::Held;
use location::SpacetimeLocation;
pub use memory_header::open;
pub use rows::Row;
pub use stream_recording::Stopped;

// Records a block: the bytes of one of kind Memory go into an open index.
pub fn record(mem: &mut [u8], kind: u64, l: SpacetimeLocation, data: &[u8]) -> Result<(), Refusal>
    ensures answer { number_in result ≡ (record_memory mem.old kind (record { bytes = «data».now; at = plain l })).refusal }
    ensures memory { mem.new ≡ (record_memory mem.old kind (record { bytes = «data».now; at = plain l })).memory }
{
    match inspecting::inspect(mem)? {
        Held::Open(h) => recording::record_open(mem, h, kind, l, data),
        Held::Finished(_) => Err(Refusal::RecordAfterFinish),
    }
}

// Records the blocks of a stream, up to the first that is refused, and answers how many were taken.
pub fn record_stream(mem: &mut [u8], stream: &[u8]) -> Result<u64, Stopped>
    ensures answer { streamed_number result ≡ (record_stream mem.old stream.now).refusal }
    ensures taken { streamed_taken result ≡ (record_stream mem.old stream.now).taken }
    ensures memory { mem.new ≡ (record_stream mem.old stream.now).memory }
{
    match inspecting::inspect(mem)? {
        Held::Open(h) => stream_recording::record_blocks(mem, h, stream),
        Held::Finished(_) => Err(Stopped::from(Refusal::RecordAfterFinish)),
    }
}

// Finishes an index: its log becomes an image. Finishing again changes nothing.
pub fn finish(mem: &mut [u8]) -> Result<(), Refusal>
    ensures answer { number_in result ≡ (finish_memory mem.old).refusal }
    ensures memory { mem.new ≡ (finish_memory mem.old).memory }
{
    match inspecting::inspect(mem)? {
        Held::Open(h) => finishing::finish_open(mem, h),
        Held::Finished(_) => {}
    }
    Ok(())
}

// Saves the image of a finished index into the buffer, and answers how many bytes it has.
pub fn save(mem: &[u8], out: &mut [u8]) -> Result<usize, Refusal>
    ensures answer { number_in result ≡ (save_memory mem.now out.old).refusal }
    ensures size { IfOk result (λ n. n ≡ (save_memory mem.now out.old).size) }
    ensures buffer { out.new ≡ (save_memory mem.now out.old).buffer }
{
    match inspecting::inspect(mem)? {
        Held::Open(_) => Err(Refusal::BeforeFinish),
        Held::Finished(h) => saving::save_finished(mem, h, out),
    }
}

// Loads an image in place of what the index holds; its capacity stays.
pub fn load(mem: &mut [u8], image: &[u8]) -> Result<(), Refusal>
    ensures answer { number_in result ≡ (load_memory mem.old image.now).refusal }
    ensures memory { mem.new ≡ (load_memory mem.old image.now).memory }
{
    let (Held::Open(h) | Held::Finished(h)) = inspecting::inspect(mem)?;
    saving::load_into(mem, h, image)
}

// The calls for programs in other languages. Each answers the number of its refusal, 0 where there is none.
#![tactic(auto)]

ghost use Rattle.std.specs.Prelude.{◌≡◌, length, set, [], ◌∷◌};
ghost use Rattle.std.proofs.lemmas.List.Edits.{sets};
ghost use Rattle.definitions.specs.BlockStream.{read_block};
ghost use Rattle.definitions.specs.Causes.{ScratchAfter};
ghost use Rattle.definitions.specs.SpaceKinds.{kind_number};
ghost use Rattle.memory_header.specs.Opening.{open_memory};
ghost use Rattle.recording.specs.Record.{record_memory};
ghost use Rattle.stream_recording.specs.Stream.{record_stream};
ghost use Rattle.string_index.specs.Finish.{finish_memory};
ghost use Rattle.handing_over.specs.Search.{search_memory, search_number_memory};
ghost use Rattle.saving.specs.Saving.{save_memory, load_memory};
ghost use Rattle.answer_numbers.specs.Counts.{put_unless_refused};
ghost use Rattle.helmapricot.specs.Stream.{stream_number, with_fields};

use block_stream::Block;
use location::SpacetimeLocation;
use rows::Row;

// Opens an index of a capacity in the lent memory.
#[unsafe(no_mangle)]
pub extern "C" fn helmapricot_open(mem: &mut [u8], nodes: u64, entries: u64) -> u64
    ensures answer { result ≡ (open_memory mem.old (record { nodes = nodes; entries = entries })).refusal }
    ensures memory { mem.new ≡ (open_memory mem.old (record { nodes = nodes; entries = entries })).memory }
{
    answer_numbers::number_of(memory_header::open(mem, nodes, entries))
}

// Records a block.
#[unsafe(no_mangle)]
pub extern "C" fn helmapricot_record(
    mem: &mut [u8],
    kind: u64,
    address: u64,
    created_at: u64,
    destroyed_at: u64,
    data: &[u8],
) -> u64
    ensures answer { result ≡ (record_memory mem.old kind (record { bytes = «data».now; at = record { address = address; created = created_at; destroyed = destroyed_at } })).refusal }
    ensures memory { mem.new ≡ (record_memory mem.old kind (record { bytes = «data».now; at = record { address = address; created = created_at; destroyed = destroyed_at } })).memory }
{
    let l = SpacetimeLocation::new(address, created_at, destroyed_at);
    answer_numbers::number_of(string_index::record(mem, kind, l, data))
}

// Records the blocks of a stream, up to the first that is refused; how many were taken goes into taken, 0 for refusals 1 and 2 too.
#[unsafe(no_mangle)]
pub extern "C" fn helmapricot_record_stream(
    mem: &mut [u8],
    stream: &[u8],
    taken: &mut [u64; 1],
) -> u64
    ensures answer { result ≡ (record_stream mem.old stream.now).refusal }
    ensures memory { mem.new ≡ (record_stream mem.old stream.now).memory }
    ensures taken { taken.new ≡ set taken.old 0 (record_stream mem.old stream.now).taken }
{
    let recorded = string_index::record_stream(mem, stream);
    answer_numbers::put_taken(taken, answer_numbers::stop_numbered(recorded))
}

// Finishes an index, so that it can be searched and saved.
#[unsafe(no_mangle)]
pub extern "C" fn helmapricot_finish(mem: &mut [u8]) -> u64
    ensures answer { result ≡ (finish_memory mem.old).refusal }
    ensures memory { mem.new ≡ (finish_memory mem.old).memory }
{
    answer_numbers::number_of(string_index::finish(mem))
}

// How many rows there are goes into count; a search that is refused leaves it.
#[unsafe(no_mangle)]
pub extern "C" fn helmapricot_search(
    mem: &[u8],
    q: &[u8],
    scratch: &mut [u8],
    rows: &mut [Row],
    count: &mut [u64; 1],
) -> u64
    ensures answer { result ≡ (search_memory mem.now q.now (length scratch.old) rows.old).refusal }
    ensures rows { rows.new ≡ (search_memory mem.now q.now (length scratch.old) rows.old).rows }
    ensures count { count.new ≡ put_unless_refused (search_memory mem.now q.now (length scratch.old) rows.old).refusal (search_memory mem.now q.now (length scratch.old) rows.old).count count.old }
    ensures scratch { ScratchAfter (search_memory mem.now q.now (length scratch.old) rows.old).refusal scratch.old scratch.new }
{
    let found = string_index::search(mem, q, scratch, rows);
    answer_numbers::put_count(count, answer_numbers::numbered(found))
}

// Searches for a donation number that was typed with its check character; what is handed over is as in a search.
#[unsafe(no_mangle)]
pub extern "C" fn helmapricot_search_number(
    mem: &[u8],
    typed: &[u8],
    scratch: &mut [u8],
    rows: &mut [Row],
    count: &mut [u64; 1],
) -> u64
    ensures answer { result ≡ (search_number_memory mem.now typed.now (length scratch.old) rows.old).refusal }
    ensures rows { rows.new ≡ (search_number_memory mem.now typed.now (length scratch.old) rows.old).rows }
    ensures count { count.new ≡ put_unless_refused (search_number_memory mem.now typed.now (length scratch.old) rows.old).refusal (search_number_memory mem.now typed.now (length scratch.old) rows.old).count count.old }
    ensures scratch { ScratchAfter (search_number_memory mem.now typed.now (length scratch.old) rows.old).refusal scratch.old scratch.new }
{
    let found = string_index::search_number(mem, typed, scratch, rows);
    answer_numbers::put_count(count, answer_numbers::numbered(found))
}

// How many bytes the image has goes into size; a save that is refused leaves it.
#[unsafe(no_mangle)]
pub extern "C" fn helmapricot_save(mem: &[u8], out: &mut [u8], size: &mut [u64; 1]) -> u64
    ensures answer { result ≡ (save_memory mem.now out.old).refusal }
    ensures out { out.new ≡ (save_memory mem.now out.old).buffer }
    ensures size { size.new ≡ put_unless_refused (save_memory mem.now out.old).refusal (save_memory mem.now out.old).size size.old }
{
    let saved = string_index::save(mem, out);
    answer_numbers::put_count(size, answer_numbers::numbered(saved))
}

// Loads an image in place of what the index holds.
#[unsafe(no_mangle)]
pub extern "C" fn helmapricot_load(mem: &mut [u8], img: &[u8]) -> u64
    ensures answer { result ≡ (load_memory mem.old img.now).refusal }
    ensures memory { mem.new ≡ (load_memory mem.old img.now).memory }
{
    answer_numbers::number_of(string_index::load(mem, img))
}

// Writes what is known of a block, with the length of its data.
fn put_fields(fields: &mut [u64; 7], b: Block<'_>)
    ensures { fields.new ≡ sets fields.old 0 (1 ∷ kind_number b.entry.kind ∷ b.entry.address ∷ length b.entry.«data».now ∷ b.entry.created_at ∷ b.entry.destroyed_at ∷ b.entry.next ∷ []) }
{
    *fields = [
        1,
        b.kind.number(),
        b.address,
        b.data.len() as u64,
        b.created_at,
        b.destroyed_at,
        b.next as u64,
    ];
}

// The block of a stream at a cursor: 1, its kind, address, length, ticks, and the cursor behind it go into fields.
// The data are the bytes before that cursor. At the stream's end the first field is 0; a refusal leaves them all.
#[unsafe(no_mangle)]
pub extern "C" fn helmapricot_read_block(s: &[u8], at: usize, fields: &mut [u64; 7]) -> u64
    ensures answer { result ≡ stream_number (read_block s.now at) }
    ensures fields { fields.new ≡ with_fields (read_block s.now at) fields.old }
{
    let read = block_stream::read_block(s, at);
    match read {
        Ok(Some(b)) => put_fields(fields, b),
        Ok(None) => fields[0] = 0,
        Err(_) => {}
    }
    answer_numbers::number_of(read)
}

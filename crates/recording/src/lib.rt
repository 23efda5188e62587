// Recording into an open index: a block that is not refused is entered behind the log, and the header put.
#![tactic(auto)]

ghost use Rattle.std.specs.Prelude.{◌≡◌, ◌+◌, ◌-◌, ◌*◌, ◌^◌, ◌≤◌, ◌<◌, min, length};
ghost use Rattle.std.proofs.lemmas.List.Edits.{sets};
ghost use Rattle.definitions.specs.Blocks.{pieces};
ghost use Rattle.location.specs.Plain.{plain};
ghost use Rattle.memory_header.specs.Layout.{header_at};
ghost use Rattle.memory_header.specs.Answers.{header_of};
ghost use Rattle.index_memory.specs.Log.{piece_bytes, log_bytes, log_in};
ghost use Rattle.index_memory.specs.Index.{read_index, opened};
ghost use Rattle.conflicts.specs.Promises.{filled};
ghost use Rattle.certificate.specs.Stored.{pieces_in};
ghost use Rattle.judging.specs.Judged.{piece_count};
ghost use Rattle.definitions.specs.Refusals.{number_in};
ghost use Rattle.judging.specs.Verdicts.{verdict_of};
ghost use Rattle.recording.specs.Cut.{part};
ghost use Rattle.recording.specs.Record.{record_memory, logged, Fitting, filled_after};
ghost use Rattle.recording.specs.Enter.{Pending, judged_by_kind, entered, FilledAfter};

use definitions::{PIECE_SIZE, Refusal, SpaceKind};
use location::SpacetimeLocation;
use memory_header::{HEADER_SIZE, Header, LOGGED_SIZE};

// Writes a piece to the 48 bytes from index at on: its length, its bytes, zeros up to 16 bytes, its location.
fn put_piece(mem: &mut [u8], at: usize, piece: &[u8], l: SpacetimeLocation)
    requires { (at + 48 ≤ length mem.old) × (length piece.now ≤ 16) }
    ensures { mem.new ≡ sets mem.old at (piece_bytes (record { bytes = piece.now; at = plain l })) }
{
    let n = piece.len();
    words::put64(mem, at, n as u64);
    copying::copy(piece, 0, mem, at + 8, n);
    copying::clear(mem, at + 8 + n, at + 24);
    location::put_location(mem, at + 24, l);
}

// Writes the piece of a block from byte start on. Its length is taken, not its end, so that the compiler knows of at most 16 bytes
// when it copies them.
fn put_part(mem: &mut [u8], at: usize, data: &[u8], start: usize, l: SpacetimeLocation)
    requires { (at + 48 ≤ length mem.old) × (start ≤ length «data».now) × (l.address.0 + start < 2 ^ 64) }
    ensures { mem.new ≡ sets mem.old at (piece_bytes (part (record { bytes = «data».now; at = plain l }) start)) }
{
    let n = (data.len() - start).min(PIECE_SIZE);
    put_piece(mem, at, &data[start..start + n], l.moved(start));
}

// Writes the pieces of a block from index from on, the hindmost first.
fn put_pieces(mem: &mut [u8], from: usize, data: &[u8], l: SpacetimeLocation)
    requires { (length «data».now ≤ 4096) × (l.address.0 + length «data».now < 2 ^ 64) × (from + 48 * piece_count (length «data».now) ≤ length mem.old) }
    ensures { mem.new ≡ sets mem.old from (log_bytes (pieces (record { bytes = «data».now; at = plain l }))) }
{
    let count = judging::piece_count(data.len());
    for done in 0..count {
        let start = PIECE_SIZE * (count - done - 1);
        put_part(mem, from + LOGGED_SIZE * done, data, start, l);
    }
}

// Appends the pieces of a block that fits to the log, and enters them into the certificate.
fn append(mem: &mut [u8], h: Header, count: usize, data: &[u8], l: SpacetimeLocation)
    requires { Fitting mem.old (header_of h) count (record { bytes = «data».now; at = plain l }) }
    ensures { mem.new ≡ logged mem.old (header_of h) (pieces (record { bytes = «data».now; at = plain l })) }
{
    put_pieces(mem, HEADER_SIZE + LOGGED_SIZE * h.payload, data, l);
    let n = data.len();
    if n == 0 {
        return;
    }
    ordering::enter_pieces(mem, h, count, judging::piece_count(n));
}

// How many pieces have a byte with a block of n bytes of that kind behind them.
pub fn filled_after(count: usize, kind: u64, n: usize) -> usize
    requires { (kind ≡ 1 → n ≤ 4096) × (count ≤ 1048576) }
    ensures { result ≡ filled_after count kind n }
{
    if kind != SpaceKind::Memory.number() || n == 0 {
        return count;
    }
    count + judging::piece_count(n)
}

// Enters a block into an open index whose header is h, where so many pieces have a byte, and answers the header that counts it
// too; no header is written here. Only the bytes of a block of kind Memory are entered.
pub fn enter(
    mem: &mut [u8],
    h: Header,
    count: usize,
    kind: u64,
    l: SpacetimeLocation,
    data: &[u8],
) -> Result<Header, Refusal>
    requires { Pending mem.old (header_of h) × (count ≡ filled (pieces_in mem.old (header_of h))) }
    ensures verdict { verdict_of result ≡ judged_by_kind mem.old (header_of h) kind (record { bytes = «data».now; at = plain l }) }
    ensures memory { mem.new ≡ entered mem.old (header_of h) kind (record { bytes = «data».now; at = plain l }) }
    ensures filled { FilledAfter (verdict_of result) mem.new count kind (length «data».now) }
{
    match SpaceKind::try_from(kind) {
        Ok(SpaceKind::Memory) => {
            let counted = judging::judge(mem, h, count, l, data)?;
            append(mem, h, count, data, l);
            Ok(counted)
        }
        Ok(_) => Ok(h),
        Err(_) => Err(Refusal::UnknownKind),
    }
}

// Records a block into an open index: h is the header of its memory.
pub fn record_open(
    mem: &mut [u8],
    h: Header,
    kind: u64,
    l: SpacetimeLocation,
    data: &[u8],
) -> Result<(), Refusal>
    requires { (header_at mem.old ≡ header_of h) × (read_index mem.old ≡ opened (header_of h).capacity (log_in mem.old h.payload 64)) }
    ensures answer { number_in result ≡ (record_memory mem.old kind (record { bytes = «data».now; at = plain l })).refusal }
    ensures memory { mem.new ≡ (record_memory mem.old kind (record { bytes = «data».now; at = plain l })).memory }
{
    let count = certificate::filled(mem, h.payload);
    let counted = enter(mem, h, count, kind, l, data)?;
    memory_header::put_header(mem, counted);
    Ok(())
}

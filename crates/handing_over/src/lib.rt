// The rows of a query or of a typed number, handed over in a slice that is lent for them.
#![tactic(auto)]

ghost use Rattle.std.specs.Prelude.{◌≡◌, ◌*◌, ◌≤◌, length, IfOk};
ghost use Rattle.std.specs.Result.{ForOk};
ghost use Rattle.definitions.specs.Causes.{ScratchAfter};
ghost use Rattle.definitions.specs.Refusals.{number_in};
ghost use Rattle.handing_over.specs.Lent.{put_over};
ghost use Rattle.handing_over.specs.Search.{search_memory, search_number_memory};

use definitions::Refusal;
use rows::Row;

// Hands over the rows that were found and stand at the front of scratch; a refusal leaves those that are lent.
fn hand_over(
    found: Result<usize, Refusal>,
    scratch: &[u8],
    rows: &mut [Row],
) -> Result<usize, Refusal>
    requires { ForOk found (λ n. (n ≤ length rows.old) × (n * 24 ≤ length scratch.now)) }
    ensures answer { result ≡ found }
    ensures rows { rows.new ≡ put_over found scratch.now rows.old }
{
    let count = found?;
    rows::put_rows(rows, scratch, count);
    Ok(count)
}

// The rows of a query, handed over in the slice that is lent for them; rows after the last stay. Answers how many there are.
pub fn search(mem: &[u8], q: &[u8], scratch: &mut [u8], rows: &mut [Row]) -> Result<usize, Refusal>
    ensures answer { number_in result ≡ (search_memory mem.now q.now (length scratch.old) rows.old).refusal }
    ensures count { IfOk result (λ n. n ≡ (search_memory mem.now q.now (length scratch.old) rows.old).count) }
    ensures rows { rows.new ≡ (search_memory mem.now q.now (length scratch.old) rows.old).rows }
    ensures scratch { ScratchAfter (search_memory mem.now q.now (length scratch.old) rows.old).refusal scratch.old scratch.new }
{
    let found = finding::find(mem, q, scratch, rows.len());
    hand_over(found, scratch, rows)
}

// The rows of a donation number that was typed with its check character: the search for its 13 characters, if the check fits.
pub fn search_number(
    mem: &[u8],
    typed: &[u8],
    scratch: &mut [u8],
    rows: &mut [Row],
) -> Result<usize, Refusal>
    ensures answer { number_in result ≡ (search_number_memory mem.now typed.now (length scratch.old) rows.old).refusal }
    ensures count { IfOk result (λ n. n ≡ (search_number_memory mem.now typed.now (length scratch.old) rows.old).count) }
    ensures rows { rows.new ≡ (search_number_memory mem.now typed.now (length scratch.old) rows.old).rows }
    ensures scratch { ScratchAfter (search_number_memory mem.now typed.now (length scratch.old) rows.old).refusal scratch.old scratch.new }
{
    let found = number_finding::find_number(mem, typed, scratch, rows.len());
    hand_over(found, scratch, rows)
}

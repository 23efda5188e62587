// Searching a memory for a donation number as it was typed, with its check character.
#![tactic(auto)]

ghost use Rattle.std.specs.Prelude.{◌≡◌, false, length};
ghost use Rattle.definitions.specs.Causes.{first_cause, refusal_of, ScratchAfter};
ghost use Rattle.definitions.specs.Calls.{number_checks};
ghost use Rattle.definitions.specs.Refusals.{number_of};
ghost use Rattle.index_memory.specs.Index.{standing_of, read_index};
ghost use Rattle.row_buffer.specs.Answer.{finding_of, finding_in, AtFront};
ghost use Rattle.number_finding.specs.FindNumber.{find_number_memory};

use check_character::NUMBER_SIZE;
use definitions::Refusal;
use inspecting::Held;

// The refusal of a search for a wrong number: what the memory is refused for comes first.
fn wrong_number(mem: &[u8]) -> Refusal
    ensures { number_of result ≡ refusal_of (first_cause (number_checks (standing_of (read_index mem.now)) false)) }
{
    match inspecting::inspect(mem) {
        Ok(Held::Open(_)) => Refusal::BeforeFinish,
        Ok(Held::Finished(_)) => Refusal::WrongNumber,
        Err(r) => r,
    }
}

// Finds the rows of a typed number, where so many rows have room; they stand at the front of scratch. Answers how many they are.
pub fn find_number(
    mem: &[u8],
    typed: &[u8],
    scratch: &mut [u8],
    room: usize,
) -> Result<usize, Refusal>
    ensures found { finding_in result ≡ finding_of (find_number_memory mem.now typed.now (length scratch.old) room) }
    ensures rows { AtFront (find_number_memory mem.now typed.now (length scratch.old) room).rows scratch.new }
    ensures scratch { ScratchAfter (find_number_memory mem.now typed.now (length scratch.old) room).refusal scratch.old scratch.new }
{
    if !check_character::is_number(typed) {
        return Err(wrong_number(mem));
    }
    finding::find(mem, &typed[..NUMBER_SIZE], scratch, room)
}

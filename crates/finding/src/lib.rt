// Searching a memory: the checks in their order, then the rows into scratch.
#![tactic(auto)]

ghost use Rattle.std.specs.Prelude.{◌≡◌, length};
ghost use Rattle.definitions.specs.Causes.{ScratchAfter};
ghost use Rattle.image_format.specs.Held.{trie_in};
ghost use Rattle.index_memory.specs.Index.{finished, image_part};
ghost use Rattle.memory_header.specs.Answers.{header_of};
ghost use Rattle.inspecting.specs.Held.{ImageIn};
ghost use Rattle.row_buffer.specs.Answer.{finding_of, finding_in, AtFront};
ghost use Rattle.finding.specs.Find.{find_by, find_memory};

use definitions::Refusal;
use inspecting::Held;
use memory_header::{HEADER_SIZE, Header};

// Finds the rows of a query in a finished index, where so many rows have room: h is the header of its memory.
fn find_finished(
    mem: &[u8],
    h: Header,
    q: &[u8],
    scratch: &mut [u8],
    room: usize,
) -> Result<usize, Refusal>
    requires { ImageIn mem.now (header_of h) }
    ensures found { finding_in result ≡ finding_of (find_by (finished (header_of h).capacity (trie_in (image_part mem.now (header_of h)))) q.now (length scratch.old) room) }
    ensures rows { AtFront (find_by (finished (header_of h).capacity (trie_in (image_part mem.now (header_of h)))) q.now (length scratch.old) room).rows scratch.new }
    ensures scratch { ScratchAfter (find_by (finished (header_of h).capacity (trie_in (image_part mem.now (header_of h)))) q.now (length scratch.old) room).refusal scratch.old scratch.new }
{
    if definitions::QUERY_LIMIT < q.len() {
        return Err(Refusal::QueryTooLong);
    }
    searching::search_image(&mem[HEADER_SIZE..HEADER_SIZE + h.payload], q, scratch, room)
}

// Finds the rows of a query, where so many rows have room; they stand at the front of scratch. Answers how many they are.
pub fn find(mem: &[u8], q: &[u8], scratch: &mut [u8], room: usize) -> Result<usize, Refusal>
    ensures found { finding_in result ≡ finding_of (find_memory mem.now q.now (length scratch.old) room) }
    ensures rows { AtFront (find_memory mem.now q.now (length scratch.old) room).rows scratch.new }
    ensures scratch { ScratchAfter (find_memory mem.now q.now (length scratch.old) room).refusal scratch.old scratch.new }
{
    match inspecting::inspect(mem)? {
        Held::Open(_) => Err(Refusal::BeforeFinish),
        Held::Finished(h) => find_finished(mem, h, q, scratch, room),
    }
}

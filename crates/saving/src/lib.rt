// Saving the image of a finished index, and loading an image in place of what a memory holds.
#![tactic(auto)]

ghost use Rattle.std.specs.Prelude.{◌≡◌, IfOk};
ghost use Rattle.std.proofs.Math.Option.{some};
ghost use Rattle.definitions.specs.Refusals.{number_in};
ghost use Rattle.image_format.specs.Held.{trie_in};
ghost use Rattle.image_format.specs.Reading.{right};
ghost use Rattle.image_format.specs.Check.{check_image};
ghost use Rattle.index_memory.specs.Index.{finished, image_part, read_index};
ghost use Rattle.memory_header.specs.Answers.{header_of};
ghost use Rattle.inspecting.specs.Held.{ImageIn};
ghost use Rattle.finished_memory.specs.Room.{capacity_of};
ghost use Rattle.saving.specs.Saving.{save_memory, load_memory};

use definitions::Refusal;
use fields::Counts;
use memory_header::{HEADER_SIZE, Header};

// Saves the image of a finished index: h is the header of its memory. Answers how many bytes of the save buffer are the image.
pub fn save_finished(mem: &[u8], h: Header, out: &mut [u8]) -> Result<usize, Refusal>
    requires { ImageIn mem.now (header_of h) × (read_index mem.now ≡ finished (header_of h).capacity (trie_in (image_part mem.now (header_of h)))) }
    ensures answer { number_in result ≡ (save_memory mem.now out.old).refusal }
    ensures size { IfOk result (λ n. n ≡ (save_memory mem.now out.old).size) }
    ensures buffer { out.new ≡ (save_memory mem.now out.old).buffer }
{
    let s = &mem[HEADER_SIZE..HEADER_SIZE + h.payload];
    let n = s.len();
    if out.len() < n {
        return Err(Refusal::SaveBufferTooShort);
    }
    copying::copy(s, 0, out, 0, n);
    Ok(n)
}

// Loads an image that is right, with these counts, if the capacity in h has room for it.
fn load_right(mem: &mut [u8], h: Header, t: Counts, s: &[u8]) -> Result<(), Refusal>
    requires { (capacity_of (read_index mem.old) ≡ some (header_of h).capacity) × (check_image s.now ≡ right t.nodes t.entries) }
    ensures answer { number_in result ≡ (load_memory mem.old s.now).refusal }
    ensures memory { mem.new ≡ (load_memory mem.old s.now).memory }
{
    if h.capacity.nodes < t.nodes {
        return Err(Refusal::TooManyNodes);
    }
    if h.capacity.entries < t.entries {
        return Err(Refusal::TooManyEntries);
    }
    let payload = s.len();
    copying::copy(s, 0, mem, HEADER_SIZE, payload);
    let closed = header_tally::closed(h, t.nodes, t.entries, payload);
    finished_memory::put_finished(mem, closed);
    Ok(())
}

// Loads an image in place of what a memory holds, whose capacity is in h: nothing else of it is read.
pub fn load_into(mem: &mut [u8], h: Header, s: &[u8]) -> Result<(), Refusal>
    requires { capacity_of (read_index mem.old) ≡ some (header_of h).capacity }
    ensures answer { number_in result ≡ (load_memory mem.old s.now).refusal }
    ensures memory { mem.new ≡ (load_memory mem.old s.now).memory }
{
    let t = index_rule::check(s)?;
    load_right(mem, h, t, s)
}

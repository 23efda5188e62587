// The memory of a finished index, whose image stands: the zeros behind it, and the header.
#![tactic(auto)]

ghost use Rattle.std.specs.Prelude.{◌≡◌};
ghost use Rattle.memory_header.specs.Answers.{header_of};
ghost use Rattle.finished_memory.specs.Finished.{closed, Closable};

use memory_header::{HEADER_SIZE, Header};

// Clears what stands between the payload and the end of what the capacity needs, and writes the header.
pub fn put_finished(mem: &mut [u8], h: Header)
    requires { Closable mem.old (header_of h) }
    ensures { mem.new ≡ closed mem.old (header_of h) }
{
    let end = h.capacity.needed();
    copying::clear(mem, HEADER_SIZE + h.payload, end);
    memory_header::put_header(mem, h);
}

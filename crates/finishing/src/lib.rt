// Finish: the log of an open index becomes an image.
#![tactic(auto)]

ghost use Rattle.std.specs.Prelude.{◌≡◌};
ghost use Rattle.trie.specs.Build.{trie_of};
ghost use Rattle.memory_header.specs.Layout.{header_at};
ghost use Rattle.memory_header.specs.Answers.{header_of};
ghost use Rattle.index_memory.specs.Log.{log_in};
ghost use Rattle.index_memory.specs.Index.{read_index, opened};
ghost use Rattle.finished_memory.specs.Finished.{finished_memory};
ghost use Rattle.finishing.specs.Steps.{TailsAsked, TailsSorted};

use memory_header::{HEADER_SIZE, Header};

// The tails of the log, sorted, from index work on; how many there are.
fn sort_tails(mem: &mut [u8], pieces: usize, work: usize) -> usize
    requires { TailsAsked mem.old pieces work }
    ensures { TailsSorted mem.old mem.new pieces work result }
{
    let n = tail_records::expand(mem, pieces, work);
    sort::sort::<7>(mem, work, n);
    n
}

// Finishes an open index: h is the header of its memory.
pub fn finish_open(mem: &mut [u8], h: Header)
    requires { (header_at mem.old ≡ header_of h) × (read_index mem.old ≡ opened (header_of h).capacity (log_in mem.old h.payload 64)) }
    ensures { mem.new ≡ finished_memory mem.old (header_of h).capacity (trie_of (log_in mem.old h.payload 64)) }
{
    let work = h.capacity.work_at();
    let tails = sort_tails(mem, h.payload, work);
    let end = node_writer::put_image(mem, work, tails);
    let closed = header_tally::closed(h, end.nodes, end.entries, end.at - HEADER_SIZE);
    finished_memory::put_finished(mem, closed);
}

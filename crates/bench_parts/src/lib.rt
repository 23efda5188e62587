// Parts of the calls that the benchmark times by themselves: the layout, the test of an image with conflicts and without, the search
// behind one test.
#![tactic(auto)]

ghost use Rattle.std.specs.Prelude.{◌≡◌, ◌≤◌, min, length};
ghost use Rattle.trie.specs.Rule.{Rule};
ghost use Rattle.definitions.specs.Refusals.{number_in};
ghost use Rattle.image_format.specs.Held.{trie_in};
ghost use Rattle.image_format.specs.Reading.{fault_of, read_image, RightImage};
ghost use Rattle.image_format.specs.Check.{check_image};
ghost use Rattle.definitions.specs.Causes.{ScratchAfter};
ghost use Rattle.row_buffer.specs.Answer.{finding_of, finding_in};
ghost use Rattle.searching.specs.Search.{search_answer};
ghost use Rattle.bench_parts.specs.Parts.{but_conflicts, query_size, last_query, last_of, query_search, counted, image_search, image_counted, ScratchIn};

use answer_numbers::number_of;
use definitions::{QUERY_LIMIT, Refusal};

// The whole test: layout, bytes left over, index rule, conflicts.
#[unsafe(no_mangle)]
pub extern "C" fn helmapricot_judge(img: &[u8]) -> u64
    ensures { result ≡ fault_of (check_image img.now) }
{
    number_of(index_rule::check(img))
}

// All of it but conflicts.
fn check_but_conflicts(img: &[u8]) -> Result<(), Refusal>
    ensures { number_in result ≡ fault_of (but_conflicts img.now) }
{
    image::read_image(img)?;
    if index_rule::index_rule(img) {
        Ok(())
    } else {
        Err(Refusal::ImageBroken)
    }
}

// The same as a number.
#[unsafe(no_mangle)]
pub extern "C" fn helmapricot_check(img: &[u8]) -> u64
    ensures { result ≡ fault_of (but_conflicts img.now) }
{
    number_of(check_but_conflicts(img))
}

// Layout and bytes left over alone.
#[unsafe(no_mangle)]
pub extern "C" fn helmapricot_layout(img: &[u8]) -> u64
    ensures { result ≡ fault_of (read_image img.now) }
{
    number_of(image::read_image(img))
}

// How many bytes each query has; all are one query where they can't have so many.
fn query_size(queries: &[u8], size: usize) -> usize
    ensures { result ≡ query_size queries.now size }
{
    if size == 0 || queries.len() < size {
        queries.len()
    } else {
        size
    }
}

// Searches for each of the queries, size bytes each, and answers for the last. Where they can't be cut evenly, it shares bytes with
// the one before.
fn search_each(
    img: &[u8],
    queries: &[u8],
    size: usize,
    scratch: &mut [u8],
    room: usize,
) -> Result<usize, Refusal>
    requires { RightImage img.now × Rule (trie_in img.now) × (size ≤ 256) × (min 1 (length queries.now) ≤ size) × (size ≤ length queries.now) }
    ensures finding { finding_in result ≡ finding_of (search_answer (trie_in img.now) (last_query queries.now size) (length scratch.old) room) }
{
    let last = queries.len() - size;
    let mut at = 0;
    while at < last {
        let end = at + size;
        let _ = searching::search_image(img, &queries[at..end], scratch, room);
        at = end;
    }
    searching::search_image(img, &queries[last..], scratch, room)
}

// The same for an image that passed the test: how many rows there are is written into count.
fn search_right(
    img: &[u8],
    queries: &[u8],
    size: usize,
    scratch: &mut [u8],
    room: usize,
    count: &mut [u64; 1],
) -> Result<(), Refusal>
    requires { RightImage img.now × Rule (trie_in img.now) }
    ensures answer { number_in result ≡ (query_search (trie_in img.now) (last_of queries.now size) (length scratch.old) room).refusal }
    ensures count { count.new ≡ counted (query_search (trie_in img.now) (last_of queries.now size) (length scratch.old) room) count.old }
    ensures scratch { ScratchAfter (query_search (trie_in img.now) (last_of queries.now size) (length scratch.old) room).refusal scratch.old scratch.new }
{
    let n = query_size(queries, size);
    if QUERY_LIMIT < n {
        return Err(Refusal::QueryTooLong);
    }
    let rows = search_each(img, queries, n, scratch, room)?;
    count[0] = rows as u64;
    Ok(())
}

// Tests an image once and searches it for each of the queries, size bytes each.
fn test_and_search(
    img: &[u8],
    queries: &[u8],
    size: usize,
    scratch: &mut [u8],
    room: usize,
    count: &mut [u64; 1],
) -> Result<(), Refusal>
    ensures answer { number_in result ≡ (image_search img.now (last_of queries.now size) (length scratch.old) room).refusal }
    ensures count { count.new ≡ image_counted img.now (last_of queries.now size) (length scratch.old) room count.old }
    ensures scratch { ScratchIn (check_image img.now) (image_search img.now (last_of queries.now size) (length scratch.old) room) scratch.old scratch.new }
{
    index_rule::check(img)?;
    search_right(img, queries, size, scratch, room, count)
}

// The same for C: so the search can be timed apart from the test. The answer is that of the last search.
#[unsafe(no_mangle)]
pub extern "C" fn helmapricot_search_image(
    img: &[u8],
    queries: &[u8],
    size: usize,
    scratch: &mut [u8],
    room: usize,
    count: &mut [u64; 1],
) -> u64
    ensures answer { result ≡ (image_search img.now (last_of queries.now size) (length scratch.old) room).refusal }
    ensures count { count.new ≡ image_counted img.now (last_of queries.now size) (length scratch.old) room count.old }
    ensures scratch { ScratchIn (check_image img.now) (image_search img.now (last_of queries.now size) (length scratch.old) room) scratch.old scratch.new }
{
    number_of(test_and_search(img, queries, size, scratch, room, count))
}

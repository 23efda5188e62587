// Records each stream of data/ twice, by one call into one index and block by block into another, and prints what each answers
// and whether memories and images are the same. oracle/stream_samples.py made the streams and foretold what is printed.
#![tactic(auto)]

ghost use Rattle.test_streams.specs.Step.{Onward};

use answer_numbers::{stopped_by, taken_of};
use location::SpacetimeLocation;
use std::io;
use std::rt::Files;
use string_index::{Refusal, Stopped};

// The capacity of an index, the memory that it needs, and its longest image.
const NODES: u64 = 8000;

const ENTRIES: u64 = 2000;

const MEMORY_SIZE: usize = 720064;

const IMAGE_SIZE: usize = 560000;

// The files of data/, a stream each.
const STREAMS: [&str; 14] = [
    "whole",
    "no_life",
    "too_high",
    "conflict",
    "conflict_with_the_one_before",
    "too_long",
    "cut_in_data",
    "cut_in_head",
    "unknown_kind",
    "length_past_the_end",
    "too_many_nodes",
    "too_many_entries",
    "conflict_and_too_many",
    "empty",
];

// Prints a number of the recording by one call and of that block by block.
fn print_both<P: Print>(rt: &P, what: &str, n: u64, m: u64) -> io::Result<()> {
    print!(rt; "{what}{n} and {m}")?;
    if n != m {
        print!(rt; ", which differ")?;
    }
    println!(rt)
}

fn print_same<P: Print>(rt: &P, what: &str, a: &[u8], b: &[u8]) -> io::Result<()> {
    let said = if a == b { "the same" } else { "they differ" };
    println!(rt; "{what}{said}")
}

// Opens an index and records a stream by one call.
fn record_stream(mem: &mut [u8], stream: &[u8]) -> Result<u64, Stopped> {
    string_index::open(mem, NODES, ENTRIES)?;
    string_index::record_stream(mem, stream)
}

// Reads the block at a cursor and records it. Where the next one stands, none at the stream's end.
fn record_next(mem: &mut [u8], stream: &[u8], at: usize) -> Result<Option<usize>, Refusal>
    ensures { Onward stream.now at result }
{
    let Some(b) = block_stream::read_block(stream, at)? else {
        return Ok(None);
    };
    let l = SpacetimeLocation::new(b.address, b.created_at, b.destroyed_at);
    string_index::record(mem, b.kind.number(), l, b.data)?;
    Ok(Some(b.next))
}

// Opens an index and records a stream block by block.
fn record_singly(mem: &mut [u8], stream: &[u8]) -> Result<u64, Stopped> {
    string_index::open(mem, NODES, ENTRIES)?;
    let mut taken = 0;
    let mut at = 0;
    loop {
        match record_next(mem, stream, at) {
            Ok(Some(next)) => {
                taken += 1;
                at = next;
            }
            Ok(None) => return Ok(taken),
            Err(refusal) => return Err(Stopped { taken, refusal }),
        }
    }
}

// Finishes an index and saves it: how many bytes its image has.
fn save(mem: &mut [u8], image: &mut [u8]) -> Result<usize, Refusal> {
    string_index::finish(mem)?;
    string_index::save(mem, image)
}

// Both buffers have zeros behind the image, so they are the same where the images are.
fn compare_images<P: Print>(
    rt: &P,
    mem: &mut [u8],
    other: &mut [u8],
    image: &mut [u8],
    other_image: &mut [u8],
) -> io::Result<()> {
    let n = save(mem, image).unwrap_or(0);
    let m = save(other, other_image).unwrap_or(0);
    print_both(rt, "  image bytes: ", n as u64, m as u64)?;
    print_same(rt, "  images: ", image, other_image)
}

// Memories are compared before they are finished: finish drops repeats, so that images do not show them.
fn compare<P: Print>(
    rt: &P,
    mem: &mut [u8],
    other: &mut [u8],
    image: &mut [u8],
    other_image: &mut [u8],
    stream: &[u8],
) -> io::Result<()> {
    let a = record_stream(mem, stream);
    let b = record_singly(other, stream);
    print_both(rt, "  taken: ", taken_of(a), taken_of(b))?;
    print_both(rt, "  stopped by: ", stopped_by(a), stopped_by(b))?;
    print_same(rt, "  memories: ", mem, other)?;
    compare_images(rt, mem, other, image, other_image)
}

// Compares in memory that nothing was recorded into before.
fn compare_anew<P: Print>(rt: &P, stream: &[u8]) -> io::Result<()> {
    let mut mem = [0u8; MEMORY_SIZE];
    let mut other = [0u8; MEMORY_SIZE];
    let mut image = [0u8; IMAGE_SIZE];
    let mut other_image = [0u8; IMAGE_SIZE];
    compare(
        rt,
        &mut mem,
        &mut other,
        &mut image,
        &mut other_image,
        stream,
    )
}

// Compares the two recordings of the stream in a file.
fn show<R: Files + Print>(rt: &R, name: &str) -> io::Result<()> {
    let mut stream = [0u8; 8192];
    let n = reading::read_file(rt, name, &mut stream)?;
    println!(rt; "{name}")?;
    compare_anew(rt, &stream[..n])
}

fn main(rt: HostRuntime) -> io::Result<()> {
    for name in STREAMS {
        show(&rt, name)?;
    }
    Ok(())
}

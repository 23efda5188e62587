// Document 01's recordings 1 and 6, whose rows are lent, and 11, 12 and 13, which no form can hold or whose images are to be seen;
// then blocks and images that conflict, and a donation number as it is typed.
// Prints a line for each answer.
#![tactic(auto)]

ghost use Rattle.std.specs.Prelude.{◌≡◌, ◌+◌, ◌*◌, ◌<◌, ◌≤◌, length, replicate};
ghost use Rattle.std.specs.Option.{ForSome};
ghost use Rattle.std.specs.Result.{ForOk};
ghost use Rattle.handing_over.specs.Search.{search_memory};
ghost use Rattle.test_recordings.specs.Counting.{counting_up};
ghost use Rattle.test_recordings.specs.Handed.{before, IsHanded};

use location::SpacetimeLocation;
use std::io;
use string_index::{Refusal, Row};

// What was refused, where it was.
fn print_refused<P: Print>(rt: &P, what: &str, answer: Result<(), Refusal>) -> io::Result<()> {
    match answer {
        Ok(()) => Ok(()),
        Err(r) => println!(rt; "  {what} refused {}", r.number()),
    }
}

fn open<P: Print>(rt: &P, mem: &mut [u8], nodes: u64, entries: u64) -> io::Result<()> {
    let opened = string_index::open(mem, nodes, entries);
    print_refused(rt, "opening", opened)
}

// That a call was done, or the number of its refusal.
fn print_done<P: Print>(rt: &P, done: &str, answer: Result<(), Refusal>) -> io::Result<()> {
    match answer {
        Ok(()) => println!(rt; " {done}"),
        Err(r) => println!(rt; " refused {}", r.number()),
    }
}

fn record_at<P: Print>(
    rt: &P,
    mem: &mut [u8],
    l: SpacetimeLocation,
    data: &[u8],
) -> io::Result<()> {
    print!(rt; "  block of {}", data.len())?;
    let recorded = string_index::record(mem, 1, l, data);
    print_done(rt, "taken", recorded)
}

// Records a block at an address, from tick 1 to 2.
fn record<P: Print>(rt: &P, mem: &mut [u8], address: u64, data: &[u8]) -> io::Result<()> {
    record_at(rt, mem, SpacetimeLocation::new(address, 1, 2), data)
}

fn finish<P: Print>(rt: &P, mem: &mut [u8]) -> io::Result<()> {
    let finished = string_index::finish(mem);
    print_refused(rt, "finish", finished)
}

// How many rows there are, or the number of the refusal.
fn print_rows<P: Print>(rt: &P, answer: Result<usize, Refusal>) -> io::Result<()> {
    match answer {
        Ok(n) => print!(rt; " has rows {n}"),
        Err(r) => print!(rt; " refused {}", r.number()),
    }
}

// The same, and the first of the rows at the front of scratch, where there is one.
fn print_found<P: Print>(rt: &P, found: Result<usize, Refusal>, scratch: &[u8]) -> io::Result<()>
    requires { ForOk found (λ n. n * 24 ≤ length scratch.now) }
{
    print_rows(rt, found)?;
    if let Ok(n) = found
        && 0 < n
    {
        let l = location::location_at(scratch, 0);
        print!(rt;
            " the first at {} {} {}",
            l.address.0, l.created_at.0, l.destroyed_at.0
        )?;
    }
    println!(rt)
}

fn find<P: Print>(rt: &P, mem: &[u8], q: &[u8]) -> io::Result<()> {
    let mut scratch = [0u8; 240000];
    print!(rt; "  query of {}", q.len())?;
    let found = finding::find(mem, q, &mut scratch, 20);
    print_found(rt, found, &scratch)
}

// The same for a number with its check character.
fn find_number<P: Print>(rt: &P, mem: &[u8], typed: &[u8]) -> io::Result<()> {
    let mut scratch = [0u8; 2400];
    print!(rt; "  number of {}", typed.len())?;
    let found = number_finding::find_number(mem, typed, &mut scratch, 20);
    print_found(rt, found, &scratch)
}

// The image: its size, its first byte, and the number at an index where one is asked for.
fn save<P: Print>(rt: &P, mem: &[u8], at: Option<usize>) -> io::Result<()>
    requires { ForSome at (λ a. a ≤ 39992) }
{
    let mut out = [0u8; 40000];
    match string_index::save(mem, &mut out) {
        Ok(n) => {
            print!(rt; "  image of {n} of kind {}", out[0])?;
            if let Some(at) = at {
                print!(rt; " with {}", words::get64(&out, at))?;
            }
            println!(rt)
        }
        Err(r) => println!(rt; "  saving refused {}", r.number()),
    }
}

fn load<P: Print>(rt: &P, mem: &mut [u8], image: &[u8]) -> io::Result<()> {
    print!(rt; "  image of {}", image.len())?;
    let loaded = string_index::load(mem, image);
    print_done(rt, "loaded", loaded)
}

// Loads an image without its last byte.
fn load_cut<P: Print>(rt: &P, mem: &mut [u8], image: &[u8]) -> io::Result<()> {
    let Some((_, front)) = image.split_last() else {
        return Ok(());
    };
    load(rt, mem, front)
}

// Saves an index, opens another in its memory, and loads the image there.
fn reload<P: Print>(rt: &P, mem: &mut [u8], at: Option<usize>, q: &[u8]) -> io::Result<()>
    requires { ForSome at (λ a. a ≤ 39992) }
{
    let mut out = [0u8; 40000];
    let Ok(n) = string_index::save(mem, &mut out) else {
        return Ok(());
    };
    let Some(image) = out.get(..n) else {
        return Ok(());
    };
    open(rt, mem, 300, 600)?;
    load_cut(rt, mem, image)?;
    load(rt, mem, image)?;
    save(rt, mem, at)?;
    find(rt, mem, q)
}

// What a search answers, and one of the rows that were lent to it.
#[derive(Clone, Copy)]
struct Handed {
    answer: Result<usize, Refusal>,
    row: Row,
}

// A search with four rows lent, whose numbers are 7 before: its answer, and the row at an index afterwards.
fn search(mem: &[u8], q: &[u8], scratch: &mut [u8], at: usize) -> Handed
    requires { at < 4 }
    ensures { IsHanded (search_memory mem.now q.now (length scratch.old) (replicate 4 before)) at result }
{
    let before = Row {
        address: 7,
        created_at: 7,
        destroyed_at: 7,
    };
    let mut rows = [before; 4];
    let answer = string_index::search(mem, q, scratch, &mut rows);
    Handed {
        answer,
        row: rows[at],
    }
}

// One of the rows after a search.
fn print_row<P: Print>(rt: &P, mem: &[u8], q: &[u8], at: usize) -> io::Result<()>
    requires { at < 4 }
{
    let mut scratch = [0u8; 2400];
    let h = search(mem, q, &mut scratch, at);
    println!(rt;
        "  row {} {} {}",
        h.row.address, h.row.created_at, h.row.destroyed_at
    )
}

// The answer of a search, and the first three of the rows lent to it.
fn show<P: Print>(rt: &P, mem: &[u8], q: &[u8]) -> io::Result<()> {
    let mut scratch = [0u8; 2400];
    print!(rt; "  search for {}", q.len())?;
    let h = search(mem, q, &mut scratch, 0);
    print_rows(rt, h.answer)?;
    println!(rt)?;
    print_row(rt, mem, q, 0)?;
    print_row(rt, mem, q, 1)?;
    print_row(rt, mem, q, 2)
}

// Records abc at 100, and de at 103 in two lives that touch.
fn record_three<P: Print>(rt: &P, mem: &mut [u8]) -> io::Result<()> {
    record_at(rt, mem, SpacetimeLocation::new(100, 10, 50), b"abc")?;
    record_at(rt, mem, SpacetimeLocation::new(103, 10, 30), b"de")?;
    record_at(rt, mem, SpacetimeLocation::new(103, 30, 50), b"de")
}

// 1: cd stands at 102. A search before finish is refused, and leaves the rows.
fn one<P: Print>(rt: &P, mem: &mut [u8]) -> io::Result<()> {
    println!(rt; "1")?;
    open(rt, mem, 100, 100)?;
    record_three(rt, mem)?;
    show(rt, mem, b"cd")?;
    finish(rt, mem)?;
    show(rt, mem, b"cd")
}

// 6: aaa at 10; aa stands at 10 and 11.
fn six<P: Print>(rt: &P, mem: &mut [u8]) -> io::Result<()> {
    println!(rt; "6")?;
    open(rt, mem, 100, 100)?;
    record_at(rt, mem, SpacetimeLocation::new(10, 1, 4), b"aaa")?;
    finish(rt, mem)?;
    show(rt, mem, b"aa")
}

// Fills a slice with numbers that rise by 1, a byte each.
fn count_up(data: &mut [u8])
    ensures { «data».new ≡ counting_up (length «data».old) }
{
    for i in 0..data.len() {
        data[i] = (i % 251) as u8;
    }
}

// 11: data of 4,096 and 4,097 bytes, a query of 256 and 257.
fn eleven<P: Print>(rt: &P, mem: &mut [u8]) -> io::Result<()> {
    let mut bytes = [0u8; 4097];
    count_up(&mut bytes);
    println!(rt; "11")?;
    open(rt, mem, 34817, 8192)?;
    record(rt, mem, 1000, &bytes)?;
    record(rt, mem, 1000, &bytes[0..4096])?;
    finish(rt, mem)?;
    find(rt, mem, &bytes[0..256])?;
    find(rt, mem, &bytes[5..261])?;
    find(rt, mem, &bytes[0..257])
}

// A root with n children, one for each of the first n bytes.
fn root<P: Print>(rt: &P, mem: &mut [u8], n: usize) -> io::Result<()> {
    let mut byte = [0u8; 1];
    open(rt, mem, 300, 600)?;
    for i in 0..n {
        byte[0] = (i % 256) as u8;
        let l = SpacetimeLocation::new(i as u64, 1, 2);
        let _ = string_index::record(mem, 1, l, &byte);
    }
    finish(rt, mem)?;
    save(rt, mem, None)?;
    find(rt, mem, &byte)
}

// 12: roots of 8, 9, 96, 97 and 256 children.
fn twelve<P: Print>(rt: &P, mem: &mut [u8]) -> io::Result<()> {
    println!(rt; "12")?;
    root(rt, mem, 8)?;
    root(rt, mem, 9)?;
    root(rt, mem, 96)?;
    root(rt, mem, 97)?;
    reload(rt, mem, None, b"`")?;
    root(rt, mem, 256)
}

// 13: one block 61 at 5; the offset of its node stands at index 58 of the image.
fn thirteen<P: Print>(rt: &P, mem: &mut [u8]) -> io::Result<()> {
    println!(rt; "13")?;
    open(rt, mem, 10, 10)?;
    record(rt, mem, 5, b"a")?;
    finish(rt, mem)?;
    save(rt, mem, Some(58))?;
    reload(rt, mem, Some(58), b"a")
}

// Opens an index and loads an image there.
fn load_into<P: Print>(
    rt: &P,
    mem: &mut [u8],
    nodes: u64,
    entries: u64,
    img: &[u8],
) -> io::Result<()> {
    open(rt, mem, nodes, entries)?;
    load(rt, mem, img)
}

// Loads an image where there is room for it, where there are too few nodes, and where there are too few entries.
fn load_each<P: Print>(rt: &P, mem: &mut [u8], img: &[u8]) -> io::Result<()> {
    load_into(rt, mem, 10, 10, img)?;
    load_into(rt, mem, 1, 10, img)?;
    load_into(rt, mem, 10, 1, img)
}

// Two blocks at one address, and one that conflicts with both.
fn record_conflicting<P: Print>(rt: &P, mem: &mut [u8]) -> io::Result<()> {
    record_at(rt, mem, SpacetimeLocation::new(0, 1, 2), b"a")?;
    record_at(rt, mem, SpacetimeLocation::new(0, 3, 4), b"a")?;
    record_at(rt, mem, SpacetimeLocation::new(0, 1, 4), b"b")
}

// The image of what is held; then with the second piece created in the life of the first: in the root's list alone, which
// breaks the index rule, and in both lists, which is a conflict.
fn load_moved<P: Print>(rt: &P, mem: &mut [u8]) -> io::Result<()> {
    let mut out = [0u8; 172];
    let _ = string_index::save(mem, &mut out);
    load_each(rt, mem, &out)?;
    out[57] = 1;
    load_each(rt, mem, &out)?;
    out[140] = 1;
    load_each(rt, mem, &out)
}

// Blocks and images that conflict.
fn conflicts<P: Print>(rt: &P, mem: &mut [u8]) -> io::Result<()> {
    println!(rt; "conflicts")?;
    open(rt, mem, 10, 10)?;
    record_conflicting(rt, mem)?;
    finish(rt, mem)?;
    load_moved(rt, mem)
}

// A number as it is, with two neighbours exchanged, with a small letter, with another check, without one.
fn find_typed<P: Print>(rt: &P, mem: &[u8]) -> io::Result<()> {
    find_number(rt, mem, b"G123498654321H")?;
    find_number(rt, mem, b"G123489654321H")?;
    find_number(rt, mem, b"g123498654321H")?;
    find_number(rt, mem, b"G123498654321*")?;
    find_number(rt, mem, b"G123498654321")
}

// A number in two writes, typed before finish and behind it.
fn numbers<P: Print>(rt: &P, mem: &mut [u8]) -> io::Result<()> {
    println!(rt; "numbers")?;
    open(rt, mem, 100, 100)?;
    record_at(rt, mem, SpacetimeLocation::new(4096, 10, 50), b"G1234986")?;
    record_at(rt, mem, SpacetimeLocation::new(4104, 12, 60), b"54321")?;
    find_number(rt, mem, b"G123489654321H")?;
    finish(rt, mem)?;
    find_typed(rt, mem)
}

fn run<P: Print>(rt: &P, mem: &mut [u8]) -> io::Result<()> {
    one(rt, mem)?;
    six(rt, mem)?;
    eleven(rt, mem)?;
    twelve(rt, mem)?;
    thirteen(rt, mem)?;
    conflicts(rt, mem)?;
    numbers(rt, mem)
}

// The memory is what 34,817 nodes and 8,192 entries need: a block of 4,096 bytes charges as many.
fn main(rt: HostRuntime) -> io::Result<()> {
    let mut mem = [0u8; 3080320];
    run(&rt, &mut mem)
}

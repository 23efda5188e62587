// Judges the images of data/images (made by oracle/image_vectors.py) and prints what is said of them, a line for each run of
// like answers.
#![tactic(auto)]

mod page;

ghost use Rattle.std.specs.Prelude.{◌≡◌, ◌+◌, ◌≤◌, ◌<◌, length};
ghost use Rattle.fields.specs.Answers.{layout_of};
ghost use Rattle.test_image_vectors.specs.Said.{said_in, said_parts, said_whole};
ghost use Rattle.test_image_vectors.specs.Vector.{reached, damaged_layout, after_damaged, after_whole, after_vector};

use definitions::Refusal;
use fields::Counts;
use page::Page;
use std::io;

// Where the next vector begins, and the image that was judged last.
#[derive(Clone, Copy)]
pub struct Cursor {
    pub at: usize,
    pub start: usize,
    pub len: usize,
}

// Every part of an image from its start.
fn judge_parts<P: Print>(page: &mut Page<'_, P>, img: &[u8])
    ensures { said_in page.new.last ≡ said_parts img.now (length img.now) 0 (said_in page.old.last) }
{
    for n in 0..img.len() {
        page.say(index_rule::check(&img[..n]));
    }
}

// The image with another byte at an index.
fn judge_damaged(bytes: &mut [u8], c: Cursor, index: u64, byte: u8) -> Result<Counts, Refusal>
    requires { c.start + c.len ≤ length bytes.old }
    ensures value { layout_of result ≡ damaged_layout bytes.old c.start c.len index byte }
    ensures bytes_unchanged { bytes.new ≡ bytes.old }
{
    let end = c.start + c.len;
    if c.len as u64 <= index {
        return index_rule::check(&bytes[c.start..end]);
    }
    let i = c.start + index as usize;
    let old = bytes[i];
    bytes[i] = byte;
    let verdict = index_rule::check(&bytes[c.start..end]);
    bytes[i] = old;
    verdict
}

// Mode 2: an index and a byte.
fn damaged<P: Print>(page: &mut Page<'_, P>, bytes: &mut [u8], c: Cursor) -> Cursor
    requires { (c.at + 10 ≤ length bytes.old) × (c.start + c.len ≤ length bytes.old) }
    ensures value { reached result page.new.last ≡ after_damaged bytes.old (reached c page.old.last) }
    ensures bytes_unchanged { bytes.new ≡ bytes.old }
    ensures at_lt_at { (c.at < result.at) × (result.at ≤ length bytes.old) × (result.start + result.len ≤ length bytes.old) }
{
    let index = words::get64(bytes, c.at + 1);
    let byte = bytes[c.at + 9];
    page.say(judge_damaged(bytes, c, index, byte));
    Cursor {
        at: c.at + 10,
        start: c.start,
        len: c.len,
    }
}

// The image, and before it every part of it where they are asked for.
fn judge_image<P: Print>(page: &mut Page<'_, P>, img: &[u8], parts: bool)
    ensures { said_in page.new.last ≡ said_whole img.now (said_in page.old.last) parts }
{
    if parts {
        judge_parts(page, img);
    }
    page.say(index_rule::check(img));
}

// Modes 0 and 1: a length and an image.
fn whole<P: Print>(page: &mut Page<'_, P>, bytes: &[u8], c: Cursor, parts: bool) -> Cursor
    requires { c.at + 10 ≤ length bytes.now }
    ensures value { reached result page.new.last ≡ after_whole bytes.now (reached c page.old.last) parts }
    ensures at_lt_at { (c.at < result.at) × (result.at ≤ length bytes.now) × (result.start + result.len ≤ length bytes.now) }
{
    let start = c.at + 9;
    let room = bytes.len() - start;
    let len = words::get64(bytes, c.at + 1).min(room as u64) as usize;
    let end = start + len;
    judge_image(page, &bytes[start..end], parts);
    Cursor {
        at: end,
        start,
        len,
    }
}

// One vector.
fn step<P: Print>(page: &mut Page<'_, P>, bytes: &mut [u8], c: Cursor) -> Cursor
    requires { (c.at + 10 ≤ length bytes.old) × (c.start + c.len ≤ length bytes.old) }
    ensures value { reached result page.new.last ≡ after_vector bytes.old (reached c page.old.last) }
    ensures bytes_unchanged { bytes.new ≡ bytes.old }
    ensures at_lt_at { (c.at < result.at) × (result.at ≤ length bytes.old) × (result.start + result.len ≤ length bytes.old) }
{
    let mode = bytes[c.at];
    if mode == 2 {
        damaged(page, bytes, c)
    } else {
        whole(page, bytes, c, mode == 1)
    }
}

fn run<P: Print>(page: &mut Page<'_, P>, bytes: &mut [u8]) {
    let mut c = Cursor {
        at: 0,
        start: 0,
        len: 0,
    };
    while c.at + 10 <= bytes.len() {
        c = step(page, bytes, c);
    }
    page.print();
}

fn main(rt: HostRuntime) -> io::Result<()> {
    let mut bytes = [0u8; 524288];
    let n = reading::read_file(&rt, "images", &mut bytes)?;
    let mut page = Page::new(&rt);
    run(&mut page, &mut bytes[..n]);
    page.printed
}

// The block stream: kind 1, address 8, length 8, created 8, destroyed 8, then the data.
#![tactic(auto)]

ghost use Rattle.std.specs.Prelude.{◌≡◌, ◌+◌, length};
ghost use Rattle.definitions.specs.BlockStream.{read_block, data_of};
ghost use Rattle.block_stream.specs.Answer.{read_of, Starts};

use definitions::{Refusal, SpaceKind};

// A block up to its data.
const HEAD_SIZE: usize = 33;

// A block of the stream. Its data are the part of the stream that they are, and the next block stands at next.
#[derive(Clone, Copy)]
pub struct Block<'a> {
    pub kind: SpaceKind,
    pub address: u64,
    pub created_at: u64,
    pub destroyed_at: u64,
    pub data: &'a [u8],
    pub next: usize,
}

// The block at a cursor, its fields checked in layout order; none at the stream's end.
// The length is compared with what is left, since a sum with it could wrap. Always inlined: a stream calls it for each block, and
// handing the block over would take as long as reading it.
#[inline(always)]
pub fn read_block<'a>(s: &'a [u8], at: usize) -> Result<Option<Block<'a>>, Refusal>
    ensures means { read_of result ≡ read_block s.now at }
    ensures starts { Starts s.now at result }
{
    if s.len() < at {
        return Err(Refusal::CutShort);
    }
    let left = s.len() - at;
    if left == 0 {
        return Ok(None);
    }
    let Ok(kind) = SpaceKind::try_from(u64::from(s[at])) else {
        return Err(Refusal::UnknownKind);
    };
    if left < HEAD_SIZE {
        return Err(Refusal::CutShort);
    }
    let n = words::get64(s, at + 9);
    if ((left - HEAD_SIZE) as u64) < n {
        return Err(Refusal::CutShort);
    }
    let start = at + HEAD_SIZE;
    let next = start + n as usize;
    Ok(Some(Block {
        kind,
        address: words::get64(s, at + 1),
        created_at: words::get64(s, at + 17),
        destroyed_at: words::get64(s, at + 25),
        data: &s[start..next],
        next,
    }))
}

// The data of the block at a cursor, as the part of the stream that they are; empty where no block can be read.
pub fn block_data<'a>(s: &'a [u8], at: usize) -> &'a [u8]
    ensures { result.now ≡ data_of (read_block s.now at) }
{
    let Ok(Some(b)) = read_block(s, at) else {
        return &s[0..0];
    };
    b.data
}

// The children of a node of an image, turn by turn.

ghost use Rattle.std.specs.Prelude.{◌≡◌, ◌<◌, length};
ghost use Rattle.image_format.specs.Turns.{Within};

use crate::Due;
use definitions::Refusal;
use image_format::SLOT_SIZE;

// The children of a node: its kind's number, where in an image its table stands and how many entries that has, where the first
// flag is due, and how many turns there are. A number that is no kind's is read as 2.
#[derive(Clone, Copy)]
pub struct Children<'a> {
    pub bytes: &'a [u8],
    pub kind: u8,
    pub base: usize,
    pub count: usize,
    pub start: usize,
    pub turns: usize,
    pub ghost within: { Within (length bytes.now) (record { kind = kind; base = base; count = count; start = start; turns = turns }) },
}

impl<'a> Children<'a> {
    ghost use Rattle.image_format.specs.Reading.{offset, slot_turn, slot_at, turn_at};
    ghost use Rattle.image_format.specs.Turns.{Skips};
    ghost use Rattle.fields.specs.Answers.{table_in, slot_of, turn_of};

    // What stands at an index where the flag for an offset is due.
    fn flag_at(self, off: u64, at: usize) -> Result<Due, Refusal>
        ensures { turn_of result ≡ slot_turn self.entry.bytes.now self.entry.kind at (offset off) }
    {
        if off != at as u64 {
            return Err(Refusal::ImageBroken);
        }
        if self.bytes.len() <= at {
            return Err(Refusal::CutShort);
        }
        match self.bytes[at] {
            1 => Ok(Due::Child),
            0 if self.kind == 1 => Ok(Due::Gap),
            _ => Err(Refusal::ImageBroken),
        }
    }

    // The offset that turn i judges: kinds 1 and 3 have one for each turn, kind 2 for each byte that its table has.
    fn offset_at(self, i: usize) -> Option<u64>
        requires { i < self.turns }
        ensures { slot_of result ≡ slot_at self.entry.bytes.now (table_in self.entry) i }
    {
        match self.kind {
            1 => Some(words::get64(self.bytes, self.base + i * 8)),
            3 => Some(words::get64(self.bytes, self.base + i * SLOT_SIZE + 1)),
            _ => {
                let j = tables::find_byte(self.bytes, self.base, self.count, i as u8)?;
                Some(words::get64(self.bytes, self.base + j * SLOT_SIZE + 1))
            }
        }
    }

    // What stands at an index at turn i.
    pub fn turn_at(self, i: usize, at: usize) -> Result<Due, Refusal>
        requires { i < self.turns }
        ensures { turn_of result ≡ turn_at self.entry.bytes.now (table_in self.entry) i at }
    {
        let Some(off) = self.offset_at(i) else {
            return Ok(Due::Nothing);
        };
        self.flag_at(off, at)
    }

    // The next turn from turn i on at which an offset is judged, or the last: in kind 2 the bytes between are not in the table.
    pub fn next_turn(self, i: usize) -> usize
        requires { i < self.turns }
        ensures { Skips self.entry.bytes.now (table_in self.entry) i result }
    {
        if self.kind == 2 {
            tables::least_byte(self.bytes, self.base, self.count, i)
        } else {
            i
        }
    }
}

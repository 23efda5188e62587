// The header of lent memory: its fields, their test, and opening an index.
#![tactic(auto)]

ghost use Rattle.std.specs.Prelude.{◌≡◌, ◌↔◌, ◌≤◌, IsTrue, length};
ghost use Rattle.definitions.specs.Refusals.{number_in};
ghost use Rattle.memory_header.specs.Layout.{payload_limit, header_from, with_header};
ghost use Rattle.memory_header.specs.Opening.{open_memory};
ghost use Rattle.memory_header.specs.Answers.{header_of, heading_of, heading_at, Within, IsRoomFor};

pub mod capacity;

pub use capacity::Capacity;
use definitions::{CAPACITY_LIMIT, Refusal};
use tally::{Phase, Tally};

// What the header takes, and what a capacity needs for each node and each entry.
pub const HEADER_SIZE: usize = 64;

pub const NODE_SIZE: usize = 64;

pub const ENTRY_SIZE: usize = 104;

// What a piece takes in the log.
pub const LOGGED_SIZE: usize = 48;

// What stands in the header: the capacity, the tally, and the size of the payload: pieces in a log, bytes in an image.
#[derive(Clone, Copy)]
pub struct Header {
    pub capacity: Capacity,
    pub tally: Tally,
    pub payload: usize,
}

// Whether a capacity may be n.
fn is_capacity(n: u64) -> bool
    ensures { IsTrue result ↔ ((1 ≤ n) × (n ≤ 1048576)) }
{
    n != 0 && n <= CAPACITY_LIMIT
}

// The capacity of so many nodes and entries, if an index in this memory can have it.
fn room_for(mem: &[u8], nodes: u64, entries: u64) -> Option<Capacity>
    ensures { IsRoomFor mem.now (record { nodes = nodes; entries = entries }) result }
{
    if !is_capacity(nodes) || !is_capacity(entries) {
        return None;
    }
    let capacity = Capacity {
        nodes: nodes as usize,
        entries: entries as usize,
    };
    if mem.len() < capacity.needed() {
        return None;
    }
    Some(capacity)
}

// ── the header ──

impl Header {
    // The most that the payload may count: pieces in a log, bytes in an image.
    fn payload_limit(self) -> usize
        requires { (self.capacity.nodes ≤ 1048576) × (self.capacity.entries ≤ 1048576) }
        ensures { result ≡ payload_limit (header_of self) }
    {
        if self.tally.phase == Phase::Open.number() {
            return self.capacity.entries;
        }
        self.capacity.payload_size()
    }

    // What it says, in the order in which the numbers stand.
    fn numbers(self) -> [u64; 6]
        ensures { header_from result ≡ header_of self }
    {
        [
            self.capacity.nodes as u64,
            self.capacity.entries as u64,
            self.tally.phase,
            self.tally.nodes as u64,
            self.tally.entries as u64,
            self.payload as u64,
        ]
    }

    // Whether the tally and the payload are within the capacity.
    fn is_within(self) -> bool
        requires { (self.capacity.nodes ≤ 1048576) × (self.capacity.entries ≤ 1048576) }
        ensures { IsTrue result ↔ Within (header_of self) }
    {
        self.tally.nodes <= self.capacity.nodes
            && self.tally.entries <= self.capacity.entries
            && self.payload <= self.payload_limit()
    }
}

// The header of a memory, if there is room for one and it is sound.
pub fn header_in(mem: &[u8]) -> Option<Header>
    ensures { heading_of result ≡ heading_at mem.now }
{
    if mem.len() < HEADER_SIZE {
        return None;
    }
    if words::get64(mem, 48) != 0 || words::get64(mem, 56) != 0 {
        return None;
    }
    let capacity = room_for(mem, words::get64(mem, 0), words::get64(mem, 8))?;
    let phase = Phase::try_from(words::get64(mem, 16)).ok()?;
    let h = Header {
        capacity,
        tally: Tally {
            nodes: words::get64(mem, 24) as usize,
            entries: words::get64(mem, 32) as usize,
            phase: phase.number(),
        },
        payload: words::get64(mem, 40) as usize,
    };
    if h.is_within() { Some(h) } else { None }
}

// Writes the numbers that a header says, whatever they are; its last two are zero.
pub fn put_numbers(mem: &mut [u8], numbers: [u64; 6])
    requires { 64 ≤ length mem.old }
    ensures { mem.new ≡ with_header mem.old (header_from numbers) }
{
    words::put64(mem, 0, numbers[0]);
    words::put64(mem, 8, numbers[1]);
    words::put64(mem, 16, numbers[2]);
    words::put64(mem, 24, numbers[3]);
    words::put64(mem, 32, numbers[4]);
    words::put64(mem, 40, numbers[5]);
    words::put64(mem, 48, 0);
    words::put64(mem, 56, 0);
}

// Writes a header.
pub fn put_header(mem: &mut [u8], h: Header)
    requires { 64 ≤ length mem.old }
    ensures { mem.new ≡ with_header mem.old (header_of h) }
{
    put_numbers(mem, h.numbers());
}

// ── opening ──

// Opens an index of a capacity in the lent memory: only the header is written.
pub fn open(mem: &mut [u8], nodes: u64, entries: u64) -> Result<(), Refusal>
    ensures answer { number_in result ≡ (open_memory mem.old (record { nodes = nodes; entries = entries })).refusal }
    ensures memory { mem.new ≡ (open_memory mem.old (record { nodes = nodes; entries = entries })).memory }
{
    let Some(capacity) = room_for(mem, nodes, entries) else {
        return Err(Refusal::CapacityRefused);
    };
    put_header(
        mem,
        Header {
            capacity,
            tally: Tally {
                nodes: 1,
                entries: 0,
                phase: Phase::Open.number(),
            },
            payload: 0,
        },
    );
    Ok(())
}

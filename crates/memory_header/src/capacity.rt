// How many nodes and entries an index has room for. A capacity may say any two numbers: `header_in` answers headers alone whose
// capacity is in the limit.

ghost use Rattle.std.specs.Prelude.{◌≡◌, ◌≤◌};

use crate::{ENTRY_SIZE, HEADER_SIZE, LOGGED_SIZE, NODE_SIZE};

#[derive(Clone, Copy)]
pub struct Capacity {
    pub nodes: usize,
    pub entries: usize,
}

impl Capacity {
    ghost use Rattle.definitions.specs.Calls.{needed};
    ghost use Rattle.memory_header.specs.Layout.{payload_size, work_at};
    ghost use Rattle.memory_header.specs.Answers.{capacity_of};

    // The bytes of lent memory that it needs.
    pub fn needed(self) -> usize
        requires { (self.nodes ≤ 1048576) × (self.entries ≤ 1048576) }
        ensures { result ≡ needed (capacity_of self) }
    {
        HEADER_SIZE + NODE_SIZE * self.nodes + ENTRY_SIZE * self.entries
    }

    // How many bytes the payload has.
    pub fn payload_size(self) -> usize
        requires { (self.nodes ≤ 1048576) × (self.entries ≤ 1048576) }
        ensures { result ≡ payload_size (capacity_of self) }
    {
        NODE_SIZE * self.nodes + LOGGED_SIZE * self.entries
    }

    // Where the room to work in begins.
    pub fn work_at(self) -> usize
        requires { (self.nodes ≤ 1048576) × (self.entries ≤ 1048576) }
        ensures { result ≡ work_at (capacity_of self) }
    {
        HEADER_SIZE + self.payload_size()
    }
}

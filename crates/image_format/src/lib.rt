// The bytes of an image and how they are read: definitions and what holds of them, and the sizes that the code shares.
#![tactic(auto)]

// An entry in a table of kind 2 or 3: a byte and an offset.
pub const SLOT_SIZE: usize = 9;
// The entries in a table of kind 1, one for each byte.
pub const DENSE_ENTRIES: usize = 256;
// What that table takes: an offset for each.
pub const DENSE_SIZE: usize = 2048;
// A node without lists up to its table: kind, three counts, child count.
pub const HEAD_SIZE: usize = 33;
// The image of an empty index.
pub const EMPTY_SIZE: usize = 25;

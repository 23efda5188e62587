// The numbers of documents 01 and 02 that the code shares: refusals, and limits.
#![tactic(auto)]

pub mod refusal;
pub mod space_kind;

pub use refusal::Refusal;
pub use space_kind::{SpaceKind, UnknownKind};

pub const PIECE_SIZE: usize = 16;

pub const DATA_LIMIT: usize = 4096;

pub const QUERY_LIMIT: usize = 256;

pub const CAPACITY_LIMIT: u64 = 1048576;

// What a location takes in bytes: three numbers.
pub const LOCATION_SIZE: usize = 24;

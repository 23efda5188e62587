#![tactic(auto)]

pub const TAIL_SIZE: usize = 56;

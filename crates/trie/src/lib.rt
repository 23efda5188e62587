// The longest path of a trie.
#![tactic(auto)]

pub const MAX_DEPTH: usize = 16;

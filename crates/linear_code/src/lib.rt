// The chunk code: codewords, and the reading of a code chunk.
#![tactic(auto)]

pub mod codeword;
pub mod search;

// The position code, words: the blocks of a track and the words of positions. It knows the chunk code through its contracts and laws
// alone.
#![tactic(auto)]

pub mod blocks;
pub mod differences;
pub mod layout;
pub mod places;
pub mod splice;
pub mod words;

// What tramread does with its input, part by part: the whole words that have come in, and the bytes short of a word.
#![tactic(auto)]

pub mod tail;
pub mod turn;
pub mod words;

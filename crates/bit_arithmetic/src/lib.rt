// Arithmetic of bits that the chunk code, the Reed-Muller codes and the words of positions share.
#![tactic(auto)]

pub mod powers;

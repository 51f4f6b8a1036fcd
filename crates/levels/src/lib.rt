// A word from a receiver that gives levels, document 02, P5: whether a level is outside the limit; what each level is received as; what
// the levels of a chunk give, folded one by one into one struct, with the receiver's strength; and the reading of a separator by its sum.
#![tactic(auto)]

pub mod level_chunk;
pub mod limits;
pub mod magnitudes;
pub mod received_level;
pub mod separators;
pub mod strength;

// The position code, reading: the position of a received word. It knows the chunk code through its contracts and laws alone,
// words through those of crate position, and the search through positions through those of crate nearest_position.
#![tactic(auto)]

pub mod chunks;
pub mod naming;
pub mod reading;

// Reed-Muller codes: their cards made, and a chunk read by the majority voting of document 004.
#![tactic(auto)]

pub mod limits;
pub mod made;
pub mod products;
pub mod rows;
pub mod sets;
pub mod voting;

// The nearest of the positions that a rule allows: the rules, a received word, its residual against a word, the search through the places of
// two words (`scan`) and through part of a block (`block`), and what a track with two ends makes of them (`two_ends`).
#![tactic(auto)]

pub mod block;
pub mod received;
pub mod residual;
pub mod rule;
pub mod scan;
pub mod two_ends;

// The text that tramread prints: each function puts a line behind those that stand in a lent buffer.
#![tactic(auto)]

pub mod lines;
pub mod text;

// The yard looked at: its tracks, its trams, whether it is sound, and the first of a track's queue.
#![tactic(auto)]

pub mod entries;
pub mod soundness;
pub mod tracks;
pub mod trams;

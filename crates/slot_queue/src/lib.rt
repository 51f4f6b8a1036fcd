// The two calls on the yard: a tram requests a track (`requests`), and releases the track of a sound card by its word (`releases`).
#![tactic(auto)]

pub mod releases;
pub mod requests;

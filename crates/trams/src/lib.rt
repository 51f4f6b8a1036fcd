// What stands at a mark: searches among the trams of a track, on the track of a sound card's code. A stretch is tested as it is given
// (`refusals`), and widened before any search (`widening`). Then it is asked of each tram whether it crosses a mark or lies within two
// (`each_tram`), or which is nearest to a mark (`nearest`).
#![tactic(auto)]

pub mod each_tram;
pub mod nearest;
pub mod refusals;
pub mod widening;

// Stretches widened by 10t at both ends, and cut to 0 and the last position.
ghost use Rattle.std.specs.Prelude.{◌≡◌, ◌+◌, ◌≤◌, ◌<◌};
ghost use Rattle.model.specs.Decoded.{meaning};
ghost use Rattle.model.specs.Order.{last_position};
ghost use Rattle.model.specs.Trams.{margin, widened};

use linear_code::search;
use model::{DecodedCode, Stretch};
use position::blocks;

// 10t, by which a stretch is widened.
pub fn margin_of(code: DecodedCode) -> u32
    ensures { (result ≡ margin (meaning code)) × (result ≤ 310) }
{
    10 * search::radius_of(code)
}

// The track of a sound card's code, as a search needs it: its last position, and 10t.
#[derive(Clone, Copy)]
pub struct Track {
    pub last: u32,
    pub margin: u32,
    ghost fits: { last + margin < 4294967296 },
}

impl Track {
    #[tactic(auto, using(code_theory::proofs::Starts::last_position_bound))]
    pub fn of(code: DecodedCode) -> Track
        ensures last { result.last ≡ last_position (meaning code) }
        ensures margin { result.margin ≡ margin (meaning code) }
    {
        Track {
            last: blocks::last_position(code),
            margin: margin_of(code),
        }
    }

    // A stretch that does not end above the last position, widened.
    #[tactic(auto, unfolding(model::specs::Trams::widened))]
    pub fn widened_stretch(self, s: Stretch) -> Stretch
        requires { s.high ≤ self.last }
        ensures { result ≡ widened self.margin self.last s }
    {
        Stretch {
            low: s.low.saturating_sub(self.margin),
            high: (s.high + self.margin).min(self.last),
        }
    }
}

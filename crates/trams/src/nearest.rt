// The tram nearest to a mark.
ghost use Rattle.std.specs.Prelude.{◌≡◌, ◌≤◌, length};
ghost use Rattle.model.specs.Decoded.{meaning};
ghost use Rattle.model.specs.Trams.{stretch_at, widened};
ghost use Rattle.model.specs.NearestTram.{distance_to, goes_before, nearest_of, nearest_on};
ghost use Rattle.tram_theory.specs.Stretches.{OnTrack};

use super::refusals;
use super::widening::Track;
use model::{DecodedCode, Refusal, Stretch};

// The distance from the mark to a stretch's nearer end, 0 where the stretch crosses the mark.
#[tactic(auto, unfolding(model::specs::NearestTram::distance_to, model::specs::TramsCrossing::crosses))]
fn distance_to(mark: u32, s: Stretch) -> u32
    requires { s.low ≤ s.high }
    ensures { result ≡ distance_to mark s }
{
    if mark < s.low {
        return s.low - mark;
    }
    if s.high < mark {
        return mark - s.high;
    }
    0
}

// Whether a stretch goes before another: it is nearer to the mark, or as near with a smaller low end.
#[tactic(auto, unfolding(model::specs::NearestTram::goes_before))]
fn goes_before(mark: u32, s: Stretch, other: Stretch) -> bool
    requires { (s.low ≤ s.high) × (other.low ≤ other.high) }
    ensures { result ≡ goes_before mark s other }
{
    (distance_to(mark, s), s.low) < (distance_to(mark, other), other.low)
}

// The nearest of all trams, by one pass through the list: a later tram is kept only if it goes before the one kept so far.
fn nearest_of(mark: u32, track: Track, trams: &[Stretch]) -> Option<u32>
    requires { OnTrack track.last trams.now }
    ensures { result ≡ nearest_of mark (λ i. widened track.margin track.last (stretch_at trams.now i)) (length trams.now) }
{
    let mut place = 0;
    let mut kept = track.widened_stretch(*trams.first()?);
    for i in 1..trams.len() {
        let s = track.widened_stretch(trams[i]);
        if goes_before(mark, s, kept) {
            place = i;
            kept = s;
        }
    }
    Some(place as u32)
}

// The tram nearest to a mark, or none of no trams.
#[tactic(auto, using(crate::proofs::SearchAnswers::ways_out))]
pub fn nearest(code: DecodedCode, trams: &[Stretch], mark: u32) -> Result<Option<u32>, Refusal>
    ensures { result ≡ nearest_on (meaning code) trams.now mark }
{
    let track = Track::of(code);
    refusals::refusal_of(track.last, trams, mark, mark)?;
    Ok(nearest_of(mark, track, trams))
}

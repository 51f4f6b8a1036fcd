// Refusals 18 and 19, which look at stretches and marks as they are given: one function for all three searches.
ghost use Rattle.std.specs.Prelude.{◌≡◌};
ghost use Rattle.model.specs.Refusals.{first_refusal, Refused, unless_refused};
ghost use Rattle.model.specs.Trams.{misplaced_pair, any_misplaced, rows_of_trams};

use model::{Refusal, Stretch};

// The most trams of a track.
const MOST_TRAMS: usize = 64;

// Whether a stretch or a pair of marks has its low end above its high end, or its high end above the last position.
#[tactic(auto, unfolding(model::specs::Trams::misplaced_pair))]
fn misplaced(last: u32, low: u32, high: u32) -> bool
    ensures { result ≡ misplaced_pair last low high }
{
    high < low || last < high
}

// Whether the pair of marks is misplaced, or the stretch of any tram.
#[tactic(auto, unfolding(model::specs::Trams::any_misplaced))]
fn any_misplaced(last: u32, trams: &[Stretch], first: u32, second: u32) -> bool
    ensures { result ≡ any_misplaced last trams.now first second }
{
    misplaced(last, first, second) || trams.iter().any(|s| misplaced(last, s.low, s.high))
}

// The refusal, if there is one. A search for one mark has it as both marks of the pair.
pub fn refusal_of(last: u32, trams: &[Stretch], first: u32, second: u32) -> Result<(), Refusal>
    ensures { result ≡ unless_refused (first_refusal (rows_of_trams last trams.now first second)) Refused (Ok tt) }
{
    if MOST_TRAMS < trams.len() {
        return Err(Refusal::TOO_MANY_TRAMS);
    }
    if any_misplaced(last, trams, first, second) {
        return Err(Refusal::MISPLACED_STRETCH);
    }
    Ok(())
}

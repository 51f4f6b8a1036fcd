// The searches that say yes or no of each tram, in list order: which cross a mark, and which lie wholly within two.
ghost use Rattle.std.specs.Prelude.{◌≡◌, Bool, length};
ghost use Rattle.model.specs.Decoded.{meaning};
ghost use Rattle.model.specs.Trams.{stretch_at, widened, answers_by, each_tram_on};
ghost use Rattle.model.specs.TramsCrossing.{crosses};
ghost use Rattle.model.specs.TramsWithin.{lies_within};
ghost use Rattle.model.specs.declared.Stretch.{Stretch};
ghost use Rattle.tram_theory.specs.Stretches.{OnTrack};
ghost use Rattle.trams.specs.Searches.{Computes};

use super::refusals;
use super::widening::Track;
use model::{DecodedCode, Refusal, Stretch};

// The test's answers for all trams; past the count they are no.
fn answers<F: Fn(Stretch) -> bool>(test: F, track: Track, trams: &[Stretch]) -> [bool; 64]
    requires placed { OnTrack track.last trams.now }
    requires callable { F.IsAlwaysCallable test }
    ensures { (asked : Stretch → Bool) → Computes (F.post test) asked
        → result ≡ answers_by asked (λ i. widened track.margin track.last (stretch_at trams.now i)) (length trams.now) }
{
    let mut yes = [false; 64];
    for (i, s) in trams.iter().enumerate() {
        yes[i] = test(track.widened_stretch(*s));
    }
    yes
}

// Asks the test of each tram, where neither 18 nor 19 refuses. The two marks are those that 19 looks at.
#[tactic(auto, using(crate::proofs::SearchAnswers::ways_out))]
fn ask_each<F: Fn(Stretch) -> bool>(
    code: DecodedCode,
    trams: &[Stretch],
    first: u32,
    second: u32,
    test: F,
) -> Result<[bool; 64], Refusal>
    requires callable { F.IsAlwaysCallable test }
    ensures { (asked : Stretch → Bool) → Computes (F.post test) asked
        → result ≡ each_tram_on asked (meaning code) trams.now first second }
{
    let track = Track::of(code);
    refusals::refusal_of(track.last, trams, first, second)?;
    Ok(answers(test, track, trams))
}

// All trams crossing a mark.
#[tactic(auto, unfolding(model::specs::TramsCrossing::crosses))]
pub fn crossing(code: DecodedCode, trams: &[Stretch], mark: u32) -> Result<[bool; 64], Refusal>
    ensures { result ≡ each_tram_on (crosses mark) (meaning code) trams.now mark mark }
{
    ask_each(code, trams, mark, mark, |s| s.low <= mark && mark <= s.high)
}

// All trams wholly within two marks.
#[tactic(auto, unfolding(model::specs::TramsWithin::lies_within))]
pub fn within(
    code: DecodedCode,
    trams: &[Stretch],
    first: u32,
    second: u32,
) -> Result<[bool; 64], Refusal>
    ensures { result ≡ each_tram_on (lies_within first second) (meaning code) trams.now first second }
{
    ask_each(
        code,
        trams,
        first,
        second,
        |s| first <= s.low && s.high <= second,
    )
}

// The calls for C that search among the trams of a track: which cross a mark or lie within two, and which is nearest.
ghost use Rattle.std.specs.Prelude.{◌≡◌, ◌≤◌, length, take, MatchResult};
ghost use Rattle.std.specs.Fn.{FnOnceReturnsAt};
ghost use Rattle.model.specs.Refusals.{status_of};
ghost use Rattle.model.specs.Trams.{TramsAnswer, most_trams, yes_values};
ghost use Rattle.model.specs.TramsCrossing.{crossing_answer};
ghost use Rattle.model.specs.TramsWithin.{within_answer};
ghost use Rattle.model.specs.NearestTram.{nearest_answer, nearest_values};
ghost use Rattle.tram_theory.specs.TramPromises.{CrossingPromises, WithinPromises, NearestPromises};
ghost use Rattle.dunnavish.specs.Crossing.{number_count, trams_lent, most_handed, status_for, left_by, EachCrosses, UnchangedUnlessZero};
ghost use Rattle.dunnavish.specs.Decoding.{each_tram_left, nearest_left};

use super::WRONG_COUNT;
use model::{Refusal, Stretch};

// The place that stands for no tram: the C interface has no Option. Any other is at most 63.
const NO_TRAM: u32 = 4294967295;

// How many trams are handed on at most: one more than a track has, of which the library tells that there are too many.
const MOST_HANDED: usize = 65;

// What is answered of the trams whose low ends and high ends are lent: two lists, as the C interface lends them, and there is no heap to
// put the stretches on, so they stand at the front of a buffer.
fn ask_of_lent<A, F: FnOnce(&[Stretch]) -> A>(lows: &[u32], highs: &[u32], ask: F) -> A
    requires alike { length highs.now ≡ length lows.now }
    requires callable { F.IsAlwaysCallable ask }
    ensures { FnOnceReturnsAt F.FnOnce ask (take most_handed (trams_lent lows.now highs.now)) result }
{
    let held = lows.len().min(MOST_HANDED);
    let mut stretches = [Stretch { low: 0, high: 0 }; MOST_HANDED];
    for i in 0..held {
        stretches[i] = Stretch {
            low: lows[i],
            high: highs[i],
        };
    }
    ask(&stretches[..held])
}

// What a search answers for each tram, into as many lent bytes as there are trams: 1 for yes, 0 for no. Answers the status; where that is
// not 0, the bytes stay as they are.
fn put_answer(answer: Result<[bool; 64], Refusal>, yes: &mut [u8]) -> u32
    requires { MatchResult answer (λ _. length yes.old ≤ most_trams) (λ refusal. ¬ (refusal.number ≡ 0)) }
    ensures status { result ≡ status_of answer }
    ensures left { yes.new ≡ left_by result (yes_values (length yes.old) answer) yes.old }
{
    match answer {
        Ok(answers) => {
            for (i, byte) in yes.iter_mut().enumerate() {
                *byte = u8::from(answers[i]);
            }
            0
        }
        Err(refusal) => refusal.number,
    }
}

// What is answered for each of the trams that are lent, a byte for each.
fn answer_each<F: FnOnce(&[Stretch]) -> Result<[bool; 64], Refusal>>(
    lows: &[u32],
    highs: &[u32],
    yes: &mut [u8],
    ask: F,
) -> u32
    requires callable { F.IsAlwaysCallable ask }
    requires sound { (answer : TramsAnswer)
        → FnOnceReturnsAt F.FnOnce ask (take most_handed (trams_lent lows.now highs.now)) answer
        → MatchResult answer (λ _. length lows.now ≤ most_trams) (λ refusal. ¬ (refusal.number ≡ 0)) }
    ensures { (answer : TramsAnswer)
        → ((given : TramsAnswer)
        → FnOnceReturnsAt F.FnOnce ask (take most_handed (trams_lent lows.now highs.now)) given → given ≡ answer)
        → EachCrosses lows.now highs.now yes.old answer result yes.new }
{
    if highs.len() != lows.len() || yes.len() != lows.len() {
        return WRONG_COUNT;
    }
    put_answer(ask_of_lent(lows, highs, ask), yes)
}

// All trams crossing a mark, a byte for each tram.
#[unsafe(no_mangle)]
pub extern "C" fn dunnavish_trams_crossing(
    card: &[u8],
    lows: &[u32],
    highs: &[u32],
    mark: u32,
    yes: &mut [u8],
) -> u32
    ensures status { result ≡ status_for (length lows.now) highs.now
        (status_for (length lows.now) yes.old
        (status_of (crossing_answer card.now (trams_lent lows.now highs.now) mark))) }
    ensures left { yes.new ≡ left_by result (yes_values (length lows.now)
        (crossing_answer card.now (trams_lent lows.now highs.now) mark)) yes.old }
    ensures unchanged { UnchangedUnlessZero yes.old result yes.new }
    ensures promises { length highs.now ≡ length lows.now
        → length yes.old ≡ length lows.now
        → CrossingPromises card.now (trams_lent lows.now highs.now) mark
        (each_tram_left result yes.new) }
{
    answer_each(
        lows,
        highs,
        yes,
        |trams| depot::trams_crossing(card, trams, mark),
    )
}

// All trams wholly within two marks, a byte for each tram.
#[unsafe(no_mangle)]
pub extern "C" fn dunnavish_trams_within(
    card: &[u8],
    lows: &[u32],
    highs: &[u32],
    first: u32,
    second: u32,
    yes: &mut [u8],
) -> u32
    ensures status { result ≡ status_for (length lows.now) highs.now
        (status_for (length lows.now) yes.old
        (status_of (within_answer card.now (trams_lent lows.now highs.now) first second))) }
    ensures left { yes.new ≡ left_by result (yes_values (length lows.now)
        (within_answer card.now (trams_lent lows.now highs.now) first second)) yes.old }
    ensures unchanged { UnchangedUnlessZero yes.old result yes.new }
    ensures promises { length highs.now ≡ length lows.now
        → length yes.old ≡ length lows.now
        → WithinPromises card.now (trams_lent lows.now highs.now) first second
        (each_tram_left result yes.new) }
{
    answer_each(
        lows,
        highs,
        yes,
        |trams| depot::trams_within(card, trams, first, second),
    )
}

// The place of the tram nearest to a mark into one number, NO_TRAM of no trams.
#[unsafe(no_mangle)]
pub extern "C" fn dunnavish_nearest_tram(
    card: &[u8],
    lows: &[u32],
    highs: &[u32],
    mark: u32,
    values: &mut [u32],
) -> u32
    ensures status { result ≡ status_for (length lows.now) highs.now (status_for number_count values.old
        (status_of (nearest_answer card.now (trams_lent lows.now highs.now) mark))) }
    ensures left { values.new ≡ left_by result (nearest_values
        (nearest_answer card.now (trams_lent lows.now highs.now) mark)) values.old }
    ensures unchanged { UnchangedUnlessZero values.old result values.new }
    ensures promises { length highs.now ≡ length lows.now → length values.old ≡ number_count
        → NearestPromises card.now (trams_lent lows.now highs.now) mark
        (nearest_left result values.new) }
{
    if highs.len() != lows.len() || values.len() != 1 {
        return WRONG_COUNT;
    }
    let answer = ask_of_lent(lows, highs, |trams| depot::nearest_tram(card, trams, mark));
    match answer {
        Ok(place) => {
            values[0] = place.unwrap_or(NO_TRAM);
            0
        }
        Err(refusal) => refusal.number,
    }
}

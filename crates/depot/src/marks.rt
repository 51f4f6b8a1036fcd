// The calls on the trams of a track: which of them stand at a mark or within two, and which is nearest. Their ends are positions that were
// read, and may be off; so each stretch is widened by 10t at both ends before any search. What is said below of the true positions a and b
// of a tram is said where `read_word` answered its low end for a word of a, and its high end for one of b, with at most t damaged bits in
// each chunk, and the search is not refused. Either may be the smaller. (Words of levels, and divided chunks with more damage, may be off
// by more than 10t.)
ghost use Rattle.std.specs.Prelude.{◌≡◌};
ghost use Rattle.model.specs.Refusals.{status_of, if_served};
ghost use Rattle.model.specs.TramsCrossing.{crossing_answer, crossing_refusal};
ghost use Rattle.model.specs.TramsWithin.{within_answer, within_refusal};
ghost use Rattle.model.specs.NearestTram.{nearest_answer, nearest_refusal, nearest_expected, nearest_values};
ghost use Rattle.tram_theory.specs.TramPromises.{CrossingPromises, WithinPromises, NearestPromises};

use card_reader::decode;
use model::{Refusal, Stretch};
use trams::{each_tram, nearest};

// All trams crossing a mark: yes or no for each, in list order. Refused: the card, 1 to 5 or 14; more than 64 trams, 18; a stretch whose
// low end is above its high end, or an end of one or the mark above the last position, 19.
// The promises: a tram is reported as crossing exactly if its widened stretch holds the mark. And none is missed: if the mark lies between
// a and b, the tram is reported as crossing (by the theorem `widened_holds_both`).
pub fn trams_crossing(card: &[u8], trams: &[Stretch], mark: u32) -> Result<[bool; 64], Refusal>
    ensures answer { result ≡ crossing_answer card.now trams.now mark }
    ensures status { status_of result ≡ crossing_refusal card.now trams.now mark }
    ensures promises { CrossingPromises card.now trams.now mark result }
{
    let code = decode::decode(card)?.code;
    each_tram::crossing(code, trams, mark)
}

// All trams wholly within two marks: yes or no for each, in list order. Refused as `trams_crossing`; 19 also where the first mark is above
// the second. The promises: a tram is reported as within exactly if its widened stretch lies between the marks; and then it truly is: a and
// b lie between them.
pub fn trams_within(
    card: &[u8],
    trams: &[Stretch],
    first: u32,
    second: u32,
) -> Result<[bool; 64], Refusal>
    ensures answer { result ≡ within_answer card.now trams.now first second }
    ensures status { status_of result ≡ within_refusal card.now trams.now first second }
    ensures promises { WithinPromises card.now trams.now first second result }
{
    let code = decode::decode(card)?.code;
    each_tram::within(code, trams, first, second)
}

// The tram nearest to a mark, by its place in the list, from 0; of no trams it is none. Refused as `trams_crossing`. The distance is that
// from the mark to the widened stretch's nearer end, 0 where it crosses the mark. The promises: no tram is nearer; none that is as near has
// a smaller widened low end; and none that is as near with the same stands earlier in the list. A tram is at distance 0 exactly if it
// crosses the mark. And no part of any tram, at a position between its a and b, is nearer to the mark than the distance of the tram
// answered.
pub fn nearest_tram(card: &[u8], trams: &[Stretch], mark: u32) -> Result<Option<u32>, Refusal>
    ensures answer { result ≡ nearest_answer card.now trams.now mark }
    ensures status { status_of result ≡ nearest_refusal card.now trams.now mark }
    ensures values { nearest_values result ≡ if_served (status_of result) (nearest_expected card.now trams.now mark) }
    ensures promises { NearestPromises card.now trams.now mark result }
{
    let code = decode::decode(card)?.code;
    nearest::nearest(code, trams, mark)
}

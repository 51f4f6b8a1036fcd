// The call for C that checks a card.
ghost use Rattle.std.specs.Prelude.{◌≡◌, length};
ghost use Rattle.model.specs.Refusals.{status_of};
ghost use Rattle.model.specs.CheckCard.{card_answer, card_values};
ghost use Rattle.code_theory.specs.Offsets.{CheckPromises};
ghost use Rattle.dunnavish.specs.Crossing.{card_count, status_for, left_by, UnchangedUnlessZero};
ghost use Rattle.dunnavish.specs.Decoding.{card_left};

use super::WRONG_COUNT;

// How many numbers a card's check answers.
const CARD_VALUES: usize = 7;

// Checks a card: n, k, track, D, t, d and last position into seven numbers.
#[unsafe(no_mangle)]
pub extern "C" fn dunnavish_check_card(card: &[u8], values: &mut [u32]) -> u32
    ensures status { result ≡ status_for card_count values.old (status_of (card_answer card.now)) }
    ensures left { values.new ≡ left_by result (card_values (card_answer card.now)) values.old }
    ensures unchanged { UnchangedUnlessZero values.old result values.new }
    ensures promises { length values.old ≡ card_count
        → CheckPromises card.now (card_left result values.new) }
{
    if values.len() != CARD_VALUES {
        return WRONG_COUNT;
    }
    match depot::check_card(card) {
        Err(refusal) => refusal.number,
        Ok(summary) => {
            values.copy_from_slice(&[
                summary.n,
                summary.k,
                summary.track,
                summary.distance,
                summary.radius,
                summary.bits,
                summary.last,
            ]);
            0
        }
    }
}

// The call that checks a card, and its answer for a caller that has decoded the card already.
ghost use Rattle.std.specs.Prelude.{◌≡◌, List, ℕ};
ghost use Rattle.model.specs.Refusals.{status_of, if_served};
ghost use Rattle.model.specs.Card.{card_refusal};
ghost use Rattle.model.specs.CheckCard.{card_answer, card_expected, card_values};
ghost use Rattle.code_theory.specs.Offsets.{CheckPromises};
ghost use Rattle.card_reader.specs.DecodedFrom.{DecodedFrom};

use card_reader::decode;
use linear_code::search;
use model::{CardSummary, DecodedCard, Refusal};
use position::{blocks, layout};

// The answer to a check of every card that decodes to `decoded`. The card is not looked at again: a caller that goes on to use the
// code decodes it once.
pub fn card_answer(decoded: Result<DecodedCard, Refusal>) -> Result<CardSummary, Refusal>
    ensures { (card : List ℕ) → DecodedFrom card decoded → result ≡ card_answer card }
{
    let decoded = decoded?;
    let code = decoded.code;
    Ok(CardSummary {
        n: code.n,
        k: code.k,
        track: decoded.track,
        distance: code.distance,
        radius: search::radius_of(code),
        bits: layout::layout_of(code).bits,
        last: blocks::last_position(code),
    })
}

// Checks a card. A sound card is answered with its n, k, track, D, t, d and last position; any other with its refusal, 1 to 5 or 14.
// The promise: an old card, whose bytes 100 to 103 are zero, is answered as document 01 alone has it.
pub fn check_card(card: &[u8]) -> Result<CardSummary, Refusal>
    ensures answer { result ≡ card_answer card.now }
    ensures status { status_of result ≡ card_refusal card.now }
    ensures values { card_values result ≡ if_served (status_of result) (card_expected card.now) }
    ensures promises { CheckPromises card.now result }
{
    card_answer(decode::decode(card))
}

// A card's bytes, checked and decoded.
ghost use Rattle.std.specs.Prelude.{◌≡◌};
ghost use Rattle.card_reader.specs.DecodedFrom.{DecodedFrom};

use super::least_weight;
use card_fields::fields::CARD_BYTES;
use card_fields::{checksum, fields, offset, zeros};
use model::{DecodedCard, DecodedCode, Refusal};

// Any bytes as a card: refused by 1 to 5 or 14, which is tested between 4 and 5; or the track, the offset and the code of a sound card.
// The rows are dependent where a nonempty set of them sums to 0, so where their least weight is 0. The least weight is tested after
// refusal 4, since it is right only if every row lies within n bits.
pub fn decode(card: &[u8]) -> Result<DecodedCard, Refusal>
    ensures { DecodedFrom card.now result }
{
    if card.len() != CARD_BYTES {
        return Err(Refusal::CARD_LENGTH);
    }
    let unused_set = zeros::unused_byte_set(card);
    if checksum::stored_check(card) != checksum::computed_check(card, unused_set) {
        return Err(Refusal::CARD_CHECK);
    }
    let n = fields::byte_at(card, 0);
    let k = fields::byte_at(card, 1);
    if !fields::within_limits(n, k) {
        return Err(Refusal::CODE_LIMITS);
    }
    let rows = fields::rows_of(card);
    if zeros::has_misplaced(n, k, rows, unused_set) {
        return Err(Refusal::MISPLACED_BIT);
    }
    let offset = offset::offset_of(card);
    if offset::offset_is_outside(offset) {
        return Err(Refusal::OFFSET_LIMITS);
    }
    let distance = least_weight::least_weight(n, k, rows);
    if distance == 0 {
        return Err(Refusal::DEPENDENT_ROWS);
    }
    let track = fields::track_of(card);
    Ok(DecodedCard {
        track,
        offset,
        code: DecodedCode {
            n,
            k,
            distance,
            rows,
        },
    })
}

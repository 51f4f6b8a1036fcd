// The check of a card: the one that it carries and the one that it should carry, which refusal 2 compares.
ghost use Rattle.std.specs.Prelude.{◌≡◌, ◌*◌, ◌≤◌, length};
ghost use Rattle.bits.specs.Sums.{sum_below};
ghost use Rattle.model.specs.Card.{check_share, stored_check, computed_check, unused_byte_set};

use super::fields;
use super::fields::{CHECK_AT, UNUSED_AT};

// The check is a sum modulo this prime.
const CHECK_MODULUS: u32 = 65521;

// The check that the card carries.
pub fn stored_check(card: &[u8]) -> u32
    requires { length card.now ≡ 512 }
    ensures { result ≡ stored_check card.now }
{
    fields::high_first(card, CHECK_AT, 2) as u32
}

// The sum over the first `end` places of (place + 1) × byte.
fn weighted_sum(card: &[u8], end: usize) -> u32
    requires { (length card.now ≡ 512) × (end ≤ 510) }
    ensures { (result ≡ sum_below (check_share card.now) end) × (result ≤ 130050 * end) }
{
    let mut total = 0;
    for (p, byte) in card[..end].iter().enumerate() {
        total += (p as u32 + 1) * u32::from(*byte);
    }
    total
}

// The check that the card should carry. Where no unused byte is set, they add nothing. Each sum's end is a constant, so that the
// compiler takes many bytes in one step.
pub fn computed_check(card: &[u8], unused_set: bool) -> u32
    requires { (length card.now ≡ 512) × (unused_set ≡ unused_byte_set card.now) }
    ensures { result ≡ computed_check card.now }
{
    let total = if unused_set {
        weighted_sum(card, CHECK_AT)
    } else {
        weighted_sum(card, UNUSED_AT)
    };
    total % CHECK_MODULUS
}

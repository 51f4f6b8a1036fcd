// The card of a Reed-Muller code.
ghost use Rattle.std.specs.Prelude.{◌≡◌, true};
ghost use Rattle.model.specs.ReedMuller.{reed_muller_card, order_within_limits};

use super::rows::{self, Rows};
use bit_arithmetic::powers;

// The card's 512 bytes: n is 2^m, and the rows are the products of at most r variables.
pub fn made_card(track: u16, r: u32, m: u32) -> [u8; 512]
    requires { order_within_limits r m ≡ true }
    ensures { result ≡ reed_muller_card track r m }
{
    let Rows { count, rows } = rows::product_rows(r, m);
    card_writer::write_card(powers::two_to(m), count, track, rows)
}

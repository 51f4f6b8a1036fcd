// What a card leaves zero, which refusal 4 tests: bits at n or above in its rows, unused rows and unused bytes.
ghost use Rattle.std.specs.Prelude.{◌≡◌, ◌||◌, ◌^◌, leb, length, get_or};
ghost use Rattle.model.specs.Card.{row_too_wide, unused_row_set, unused_byte_set};

use super::fields::{CHECK_AT, UNUSED_AT};

// Has a row a bit at n or above? No number of 64 bits has one at 64 or above.
fn too_wide(n: u32, row: u64) -> bool
    ensures { result ≡ leb (2 ^ n) row }
{
    n < 64 && row >> n != 0
}

// Has some row a bit at n or above?
fn row_too_wide(n: u32, rows: [u64; 12]) -> bool
    ensures { result ≡ row_too_wide n (λ z. get_or rows z 0) }
{
    rows.iter().any(|row| too_wide(n, *row))
}

// Is some unused row, one of the rows k to 11, not zero?
fn unused_row_set(k: u32, rows: [u64; 12]) -> bool
    ensures { result ≡ unused_row_set k (λ z. get_or rows z 0) }
{
    rows.iter().skip(k as usize).any(|row| *row != 0)
}

// Is some byte from 104 to 509 not zero? The bytes are joined and tested once, so that many are taken in one step.
pub fn unused_byte_set(card: &[u8]) -> bool
    requires { length card.now ≡ 512 }
    ensures { result ≡ unused_byte_set card.now }
{
    let mut joined = 0;
    for byte in &card[UNUSED_AT..CHECK_AT] {
        joined |= *byte;
    }
    joined != 0
}

// Is something set that a card leaves zero: a bit at n or above in a row, an unused row, or an unused byte?
pub fn has_misplaced(n: u32, k: u32, rows: [u64; 12], unused_set: bool) -> bool
    ensures { result ≡ (row_too_wide n (λ z. get_or rows z 0) || unused_row_set k (λ z. get_or rows z 0) || unused_set) }
{
    row_too_wide(n, rows) || unused_row_set(k, rows) || unused_set
}

// The fields of a card: its bytes, the numbers in them, the limits of n and k, and the rows. The offset is in offset.rt.
ghost use Rattle.std.specs.Prelude.{◌≡◌, ◌+◌, ◌^◌, ◌≤◌, ◌<◌, length, get_or};
ghost use Rattle.model.specs.Card.{byte, high_first, row_of, track_of, within_limits};

use std::array;

// Where the fields of a card stand: n in byte 0 and k in byte 1, the track number, twelve rows, the offset, bytes that are not used, and
// the check, which ends the card.
pub const TRACK_AT: usize = 2;

pub const ROWS_AT: usize = 4;

pub const OFFSET_AT: usize = 100;

pub const UNUSED_AT: usize = 104;

pub const CHECK_AT: usize = 510;

pub const CARD_BYTES: usize = 512;

// The bytes of a row.
pub const ROW_BYTES: usize = 8;

// Byte i of the card.
pub fn byte_at(card: &[u8], i: usize) -> u32
    requires { i < length card.now }
    ensures { (result ≡ byte card.now i) × (result < 256) }
{
    u32::from(card[i])
}

// The number in the `m` bytes from place `at` on, high byte first: they are the last of eight bytes, the first of which are zero.
pub fn high_first(card: &[u8], at: usize, m: usize) -> u64
    requires { (at + m ≤ length card.now) × (m ≤ 8) }
    ensures { (result ≡ high_first card.now at m) × (result < 256 ^ m) }
{
    let mut bytes = [0; 8];
    bytes[8 - m..].copy_from_slice(&card[at..at + m]);
    u64::from_be_bytes(bytes)
}

// The track number.
pub fn track_of(card: &[u8]) -> u32
    requires { length card.now ≡ 512 }
    ensures { result ≡ track_of card.now }
{
    high_first(card, TRACK_AT, 2) as u32
}

// Are n and k within the card's limits?
pub fn within_limits(n: u32, k: u32) -> bool
    ensures { result ≡ within_limits n k }
{
    (1..=64).contains(&n) && (1..=12).contains(&k) && k <= n
}

// The twelve rows.
pub fn rows_of(card: &[u8]) -> [u64; 12]
    requires { length card.now ≡ 512 }
    ensures { (λ z. get_or result z 0) ≡ row_of card.now }
{
    array::from_fn(|z| high_first(card, ROWS_AT + ROW_BYTES * z, ROW_BYTES))
}

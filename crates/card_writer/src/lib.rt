// The 512 bytes of a card, written from its fields.
#![tactic(auto)]

ghost use Rattle.std.specs.Prelude.{◌≡◌, ◌+◌, ◌≤◌, ◌<◌, length, get_or};
ghost use Rattle.model.specs.CardBytes.{card_of};
ghost use Rattle.card_writer.specs.WithNumber.{with_number};

use card_fields::checksum;
use card_fields::fields::{CARD_BYTES, CHECK_AT, ROW_BYTES, ROWS_AT, TRACK_AT};

// A number into the `m` bytes from place `at` on, high byte first: the last `m` of its eight bytes.
fn put_high_first(bytes: &mut [u8], at: usize, m: usize, number: u64)
    requires { (at + m ≤ length bytes.old) × (m ≤ 8) }
    ensures { bytes.new ≡ with_number bytes.old at m number }
{
    bytes[at..at + m].copy_from_slice(&number.to_be_bytes()[8 - m..]);
}

// The card with these fields: n, k, the track number and the twelve rows, then zeros, then the check. The check is computed last,
// from the fields that stand by then; `false` says that no unused byte is set. A call of its own: put into its callers, it makes the
// compiler keep the bytes four times, which is more stack than a call for C may take.
#[inline(never)]
pub fn write_card(n: u32, k: u32, track: u16, rows: [u64; 12]) -> [u8; 512]
    requires { (n < 256) × (k < 256) }
    ensures { result ≡ card_of n k track (λ z. get_or rows z 0) }
{
    let mut bytes = [0; CARD_BYTES];
    bytes[0] = n as u8;
    bytes[1] = k as u8;
    put_high_first(&mut bytes, TRACK_AT, 2, u64::from(track));
    for (z, row) in rows.iter().enumerate() {
        put_high_first(&mut bytes, ROWS_AT + ROW_BYTES * z, ROW_BYTES, *row);
    }
    let check = checksum::computed_check(&bytes, false);
    put_high_first(&mut bytes, CHECK_AT, 2, u64::from(check));
    bytes
}

// The offset of a card: a signed number of millimetres by two's complement, and its range.
ghost use Rattle.std.specs.Prelude.{◌≡◌, length};
ghost use Rattle.model.specs.Card.{high_first, twos_complement, offset_of, offset_outside};

use super::fields::OFFSET_AT;

// The greatest offset, in millimetres, on either side of the buffer face.
const GREATEST_OFFSET: i32 = 20000;

// The number in bytes 100 to 103, high byte first.
fn offset_bits(card: &[u8]) -> u32
    requires { length card.now ≡ 512 }
    ensures { result ≡ high_first card.now 100 4 }
{
    u32::from_be_bytes([
        card[OFFSET_AT],
        card[OFFSET_AT + 1],
        card[OFFSET_AT + 2],
        card[OFFSET_AT + 3],
    ])
}

// A number of 32 bits, read by two's complement.
fn twos_complement(x: u32) -> i32
    ensures { result ≡ twos_complement x }
{
    x.cast_signed()
}

// The offset. Document 01 names the form: an i32 decoded from two's complement.
pub fn offset_of(card: &[u8]) -> i32
    requires { length card.now ≡ 512 }
    ensures { result ≡ offset_of card.now }
{
    twos_complement(offset_bits(card))
}

// Is an offset outside -20,000 to 20,000?
pub fn offset_is_outside(offset: i32) -> bool
    ensures { result ≡ offset_outside offset }
{
    offset < -GREATEST_OFFSET || GREATEST_OFFSET < offset
}

// A word put together of two at a place. Words are held as [u8; 40]: 320 places.
ghost use Rattle.std.specs.Prelude.{◌≡◌, cond, ℕ, ◌≤◌, ◌<◌, ltb};
ghost use Rattle.bits.specs.Places.{bit};
ghost use Rattle.position.specs.Spliced.{Spliced};

use bit_arithmetic::powers;

// The bits of `low` below place q, and those of `high` from there on.
fn spliced_byte(low: u8, high: u8, q: u32) -> u8
    requires { q ≤ 8 }
    ensures { (p : ℕ) → p < 8 → bit result p ≡ cond (ltb p q) (bit low p) (bit high p) }
{
    let unit = powers::two_to(q);
    (high as u32 / unit * unit + low as u32 % unit) as u8
}

// The word v below place `at`, and u from there on: whole bytes, and the byte that holds the place.
pub fn spliced(u: [u8; 40], v: [u8; 40], at: u32) -> [u8; 40]
    requires { at ≤ 320 }
    ensures { Spliced u v result at }
{
    let whole = (at / 8) as usize;
    let mut word = u;
    word[..whole].copy_from_slice(&v[..whole]);
    if at % 8 != 0 {
        word[whole] = spliced_byte(v[whole], u[whole], at % 8);
    }
    word
}

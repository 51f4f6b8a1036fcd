// Places of a word that is held as [u8; 40], which has 320: one bit, a count of ones, a code chunk as a number.
ghost use Rattle.std.specs.Prelude.{◌≡◌, List, ℕ, ◌+◌, ◌*◌, ◌/◌, ◌%◌, ◌^◌, ◌≤◌, ◌<◌, get_or};
ghost use Rattle.bits.specs.Sums.{sum_below, from_place};
ghost use Rattle.bits.specs.Places.{bit, place};

use bit_arithmetic::powers;

// The bit at place p of any word of which `byte` is byte p / 8. It takes the byte alone, since its callers go from place to
// place of the same words: a whole word, passed by value, would be copied at each place, which took 14 % more instructions for a read on
// the benchmark's rm64.
pub fn bit_of(byte: u8, p: u32) -> u32
    ensures { ((w : List ℕ) → get_or w (p / 8) 0 ≡ byte → result ≡ place w p) × (result < 2) }
{
    ((byte >> (p % 8)) % 2) as u32
}

// The bits of a byte from bit q on, moved up to bit `to` of a number.
fn moved_to(byte: u8, q: u32, to: u32) -> u64
    requires { (q < 8) × (to < 64) }
    ensures { result ≡ byte / 2 ^ q * 2 ^ to % 2 ^ 64 }
{
    ((byte >> q) as u64) << to
}

// The n bits from place `at` on as a number: the rest of the byte that has the first of them, and then byte by byte.
pub fn bits_at(w: [u8; 40], at: u32, n: u32) -> u64
    requires { (at + n ≤ 320) × (n ≤ 64) }
    ensures { (result < 2 ^ n) × ((p : ℕ) → p < n → bit result p ≡ place w (at + p)) }
{
    if n == 0 {
        return 0;
    }
    let first = (at / 8) as usize;
    let end = ((at + n + 7) / 8) as usize;
    let mut value = moved_to(w[first], at % 8, 0);
    for j in first + 1..end {
        value ^= moved_to(w[j], 0, 8 * j as u32 - at);
    }
    value & powers::low_ones(n)
}

// How many of the `len` bits from place `at` on are 1.
pub fn ones_from(w: [u8; 40], at: u32, len: u32) -> u32
    requires { (at + len ≤ 320) × (len ≤ 64) }
    ensures { (result ≡ sum_below (from_place at (place w)) len) × (result ≤ len) }
{
    u64::count_ones(bits_at(w, at, len))
}

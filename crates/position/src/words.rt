// Words: w(i) and the word of a position.
// Inside the library a word is an array of the widest word's forty bytes, built chunk by chunk, passed and returned by value:
// document 01 names this form. Place p is bit p mod 8, lowest first, of byte p / 8, and the places past the word's bits are 0.
ghost use Rattle.std.specs.Prelude.{◌≡◌, ℕ, ◌+◌, ◌%◌, ◌^◌, ◌≤◌, ◌<◌, length};
ghost use Rattle.bits.specs.Sums.{distance, join_at};
ghost use Rattle.bits.specs.Walk.{walk};
ghost use Rattle.bits.specs.Places.{bit, place, cut};
ghost use Rattle.model.specs.Decoded.{meaning};
ghost use Rattle.model.specs.Order.{last_position};
ghost use Rattle.model.specs.Words.{word_bits, word, word_at, word_bytes, word_length};
ghost use Rattle.position.specs.FiveChunks.{FiveChunks};
ghost use Rattle.position.specs.HoldsWord.{HoldsWord};

use super::{blocks, differences, splice};
use bit_arithmetic::powers;
use linear_code::codeword;
use model::DecodedCode;

// The word with one more chunk: the `len` bits of `value` from place `at` on. The value is moved up to where it stands in its first byte;
// each turn adds the lowest byte of what is left of it, until that is 0. (By a count of the chunk's bytes a write took 11 % more
// instructions on card B, since the compiler then takes four bytes in a turn.)
pub fn put_chunk(before: [u8; 40], at: u32, len: u32, value: u64) -> [u8; 40]
    requires { (at + len ≤ 320) × (len ≤ 64) × (value < 2 ^ len) × ((p : ℕ) → at ≤ p → place before p ≡ 0) }
    ensures { (p : ℕ) → place result p ≡ join_at at (place before) (cut len (bit value)) p }
{
    let first = (at / 8) as usize;
    let mut word = before;
    let mut rest = (value as u128) << (at % 8);
    for j in first..40 {
        if rest == 0 {
            break;
        }
        word[j] ^= (rest % 256) as u8;
        rest >>= 8;
    }
    word
}

// The bits of a separator: each the parity of i.
fn separator(i: u32, distance: u32) -> u64
    requires { distance ≤ 64 }
    ensures { (result < 2 ^ distance) × ((p : ℕ) → p < distance → bit result p ≡ i % 2) }
{
    if i % 2 == 0 {
        return 0;
    }
    powers::low_ones(distance)
}

// A word from the numbers of its five chunks, put down one behind the other: code chunks of n bits, separators of d.
pub fn put_down(
    n: u32,
    d: u32,
    separator1: u64,
    chunk1: u64,
    separator2: u64,
    chunk2: u64,
    separator3: u64,
) -> [u8; 40]
    requires room { (n ≤ 64) × (d ≤ 64) × (d + n + d + n + d ≤ 320) }
    requires five { (u : ℕ → ℕ) × FiveChunks n d u separator1 chunk1 separator2 chunk2 separator3 }
    ensures { (u : ℕ → ℕ) → FiveChunks n d u separator1 chunk1 separator2 chunk2 separator3
        → (p : ℕ) → place result p ≡ cut (d + n + d + n + d) u p }
{
    let separator2_at = d + n;
    let chunk2_at = separator2_at + d;
    let separator3_at = chunk2_at + n;
    let to_chunk1 = put_chunk([0u8; 40], 0, d, separator1);
    let to_separator2 = put_chunk(to_chunk1, d, n, chunk1);
    let to_chunk2 = put_chunk(to_separator2, separator2_at, d, separator2);
    let to_separator3 = put_chunk(to_chunk2, chunk2_at, n, chunk2);
    put_chunk(to_separator3, separator3_at, d, separator3)
}

// w(i), from the parity of i and c(i).
pub fn word_of(code: DecodedCode, i: u32) -> [u8; 40]
    ensures { HoldsWord (meaning code) (word (meaning code) i) result }
{
    let parity = separator(i, code.distance);
    let c = codeword::codeword(code, i);
    put_down(code.n, code.distance, parity, c, parity, c, parity)
}

// w(i) with the first m places in which w(i) and w(next) differ taken from w(next): the word m steps into the block that leads from one
// to the other.
pub fn word_in_block(code: DecodedCode, i: u32, next: u32, m: u32) -> [u8; 40]
    requires { m ≤ distance (word_bits (meaning code)) (word (meaning code) i) (word (meaning code) next) }
    ensures { HoldsWord (meaning code) (walk (word (meaning code) i) (word (meaning code) next) m) result }
{
    let u = word_of(code, i);
    let v = word_of(code, next);
    splice::spliced(u, v, differences::place_after(u, v, m))
}

// The word of a position.
pub fn word_at(code: DecodedCode, position: u32) -> [u8; 40]
    requires { position ≤ last_position (meaning code) }
    ensures { HoldsWord (meaning code) (word_at (meaning code) position) result }
{
    let i = blocks::block_of(code, position);
    word_in_block(code, i, i + 1, position - blocks::start_of_block(code, i))
}

// Writes the word of a position to the lent bytes.
pub fn write(code: DecodedCode, position: u32, lent: &mut [u8])
    requires on_track { position ≤ last_position (meaning code) }
    requires lent_len { length lent.old ≡ word_length (meaning code) }
    ensures { lent.new ≡ word_bytes (meaning code) position }
{
    let word = word_at(code, position);
    lent.copy_from_slice(&word[..lent.len()]);
}

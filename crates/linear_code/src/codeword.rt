// A codeword of a decoded code, and the weight of a row.
ghost use Rattle.std.specs.Prelude.{◌≡◌, ℕ, ◌^◌, ◌<◌};
ghost use Rattle.bits.specs.Places.{bit, weight};
ghost use Rattle.model.specs.Decoded.{meaning};
ghost use Rattle.model.specs.Order.{gray, codeword};

use model::DecodedCode;

// Gray(i).
fn gray_number(i: u32) -> u32
    ensures { result ≡ gray i }
{
    i ^ (i >> 1)
}

// Bit z of a number of 32 bits. Of a number of 64, the compiler would take several rows in a step and branch on each of the rest.
fn gray_bit(x: u32, z: u32) -> u64
    requires { z < 32 }
    ensures { (result ≡ bit x z) × (result < 2) }
{
    u64::from((x >> z) % 2)
}

// Codeword i: the sum of the rows whose bits are set in Gray(i), each added as often as its bit says, with no branch.
pub fn codeword(code: DecodedCode, i: u32) -> u64
    ensures { (result ≡ codeword (meaning code) i) × (result < 2 ^ code.n) }
{
    let gray = gray_number(i);
    let mut word: u64 = 0;
    for z in 0..code.k {
        word ^= gray_bit(gray, z) * code.rows[z as usize];
    }
    word
}

// The weight of a row: how many of its places are 1, in any width that holds it.
pub fn row_weight(row: u64) -> u32
    ensures { (n : ℕ) → row < 2 ^ n → result ≡ weight n row }
{
    u64::count_ones(row)
}

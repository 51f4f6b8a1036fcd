// The blocks of a track: where each one starts, and the block of a position.
ghost use Rattle.std.specs.Prelude.{◌≡◌, ℕ, ◌+◌, ◌≤◌, ◌<◌};
ghost use Rattle.model.specs.Decoded.{meaning};
ghost use Rattle.model.specs.Order.{last_codeword, changed_weight, start, last_position, corrected_count, share_of, sum_after_row, sum_before_row};
ghost use Rattle.model.specs.Words.{block_of};
ghost use Rattle.position.specs.RowWeights.{RowWeights};

use bit_arithmetic::powers;
use linear_code::codeword;
use model::DecodedCode;

// The number of the last codeword, 2^k - 1.
pub fn last_codeword(code: DecodedCode) -> u32
    ensures { result ≡ last_codeword (meaning code) }
{
    powers::two_to(code.k) - 1
}

// The weights of the rows.
fn row_weights(code: DecodedCode) -> [u32; 12]
    ensures { RowWeights (meaning code) result }
{
    code.rows.map(codeword::row_weight)
}

// The corrected count of row z: how often the row is added on the way from codeword 0 to codeword i, at codeword 2^z and again each
// 2^(z+1) codewords. Document 003's Algorithm 1 counts max(i - 2^z, 0) / 2^(z+1), rounded down; document 01 corrects that to
// (i + 2^z) / 2^(z+1), rounded down, which is one more where i is at least 2^z.
fn corrected_count(i: u32, z: u32) -> u32
    requires { z < 12 }
    ensures { result ≡ corrected_count i z }
{
    let first = powers::two_to(z);
    if i < first {
        return 0;
    }
    ((i - first) >> (z + 1)) + 1
}

// The sum for the start of block i with one row's share added, 2 × its weight × its corrected count. It stands for the line in the loop
// of Algorithm 1, less its 3D. The limits are a sound card's: places, codewords, rows, last position.
fn sum_after_row(weight: u32, i: u32, z: u32, sum: u32) -> u32
    requires { (weight ≤ 64) × (i ≤ 4095) × (z < 12) × (sum ≤ 1310400) }
    ensures { result ≡ sum + share_of weight i z }
{
    sum + 2 * weight * corrected_count(i, z)
}

// The sum for the start of block i after the first `rows` rows, from the weights of the rows, as Algorithm 1 of document 003 (compute-r)
// sums it: each row's share is added as it comes, and after row z the sum is 3D × i and the shares of rows 0 to z. Its lines stand in
// quotes beside the code, with what document 01 corrects in them (r is its sum for block i, ||a_z|| the weight of row z).
fn sum_of_rows(code: DecodedCode, weights: [u32; 12], i: u32, rows: u32) -> u32
    requires { (i ≤ last_codeword (meaning code)) × RowWeights (meaning code) weights × (rows ≤ code.k) }
    ensures before_row { result ≡ sum_before_row (meaning code) i rows }
    ensures after_row { (z : ℕ) → rows ≡ z + 1 → result ≡ sum_after_row (meaning code) i z }
{
    let distance = code.distance;
    // "r = 0". Corrected: 3D × i, since 3D counts once for each of the i blocks before this one, and not once a row.
    let mut sum = 3 * distance * i;
    // "for z in {0, ..., k - 1} do", which is all rows; here, as many of them as are asked for.
    for z in 0..rows {
        // "r = r + 2 floor(max(i - 2^z, 0) / 2^(z+1)) ||a_z|| + 3D". Corrected: the count, by `corrected_count`; and no 3D.
        sum = sum_after_row(weights[z as usize], i, z, sum);
    }
    // "Return: r"
    sum
}

// The start of block i, from the weights of the rows: the sum after all k rows.
fn start_by(code: DecodedCode, weights: [u32; 12], i: u32) -> u32
    requires { (i ≤ last_codeword (meaning code)) × RowWeights (meaning code) weights }
    ensures { result ≡ start (meaning code) i }
{
    sum_of_rows(code, weights, i, code.k)
}

// The start of block i.
pub fn start_of_block(code: DecodedCode, i: u32) -> u32
    requires { i ≤ last_codeword (meaning code) }
    ensures { result ≡ start (meaning code) i }
{
    start_by(code, row_weights(code), i)
}

// A(i), the weight of the row in which c(i) and c(i+1) differ.
pub fn changed_weight(code: DecodedCode, i: u32) -> u32
    requires { i < last_codeword (meaning code) }
    ensures { (result ≡ changed_weight (meaning code) i) × (result ≤ 64) }
{
    let rows = code.rows;
    let z = u32::trailing_zeros(i + 1) as usize;
    codeword::row_weight(rows[z])
}

// The last position of the track.
pub fn last_position(code: DecodedCode) -> u32
    ensures { result ≡ last_position (meaning code) }
{
    start_of_block(code, last_codeword(code))
}

// The block of a position, by binary search: the last one that starts at or before it.
// A loop of its own: the library's `partition_point` searches a slice, and a table of up to 4,096 starts does not fit a call's stack.
pub fn block_of(code: DecodedCode, position: u32) -> u32
    ensures { result ≡ block_of (meaning code) position }
{
    let weights = row_weights(code);
    let mut low: u32 = 0;
    let mut high = last_codeword(code);
    while low < high {
        let middle = (low + high + 1) / 2;
        if start_by(code, weights, middle) <= position {
            low = middle;
        } else {
            high = middle - 1;
        }
    }
    low
}

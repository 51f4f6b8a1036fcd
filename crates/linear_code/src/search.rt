// Reading a code chunk by search.
ghost use Rattle.std.specs.Prelude.{◌≡◌, ℕ, ◌-◌, ◌^◌, ◌≤◌, ◌<◌, get_or};
ghost use Rattle.std.specs.Int.Bits.{bit_and};
ghost use Rattle.bits.specs.Sums.{marked};
ghost use Rattle.bits.specs.Places.{bit};
ghost use Rattle.model.specs.Card.{radius};
ghost use Rattle.model.specs.Decoded.{meaning};
ghost use Rattle.model.specs.Refusals.{if_served};
ghost use Rattle.model.specs.Reading.{chunk_reading, chunk_refusal, chunk_expected, chunk_status, chunk_values};
ghost use Rattle.model.specs.Levels.{erasure_reading};
ghost use Rattle.linear_code.specs.FirstWithin.{first_within};

use bit_arithmetic::powers;
use model::{DecodedCode, ReadChunk};

// t: a chunk that differs from a codeword in at most so many places differs from every other in more.
pub fn radius_of(code: DecodedCode) -> u32
    ensures { result ≡ radius (meaning code) }
{
    (code.distance - 1) / 2
}

// The rows of a code at the unerased places, and 0 at the others.
fn unerased_rows(code: DecodedCode, unerased: u64) -> [u64; 12]
    requires { code.k ≤ 12 }
    ensures { (z : ℕ) → z < code.k → get_or result z 0 ≡ bit_and (get_or code.rows z 0) unerased }
{
    code.rows.map(|row| row & unerased)
}

// The first codeword that differs from `x` in at most `limit` places, with the count of these places. The codewords are the sums of the
// first k of `rows`, in Gray order.
// Document 01 names the form: nested loops, over codewords and, inside, over bits. A label leaves the bit loop once the limit
// is passed, and the loop over codewords yields its value by `break`. What is kept of codeword i is `apart`, the places in which
// it and x differ: from one codeword to the next they change by one row. The bit loop goes through these places: each turn counts one
// and, unless the limit is passed, clears the lowest that is left. The count that is answered is the number of ones of `apart`, taken
// once the codeword is found: where the bit loop's own count is not kept, each of its turns is compiled to one instruction fewer.
fn search(k: u32, rows: [u64; 12], x: u64, limit: u32) -> Option<ReadChunk>
    requires { (k ≤ 12) × (limit ≤ 64) }
    ensures { result ≡ first_within k rows x limit }
{
    let size = powers::two_to(k);
    let mut apart = x;
    let mut i: u32 = 0;
    loop {
        let mut rest = apart;
        let mut differing: u32 = 0;
        'bits: while rest != 0 {
            differing += 1;
            if limit < differing {
                break 'bits;
            }
            rest &= rest - 1;
        }
        if differing <= limit {
            let bits = u64::count_ones(apart);
            break Some(ReadChunk {
                number: i,
                differing: bits,
            });
        }
        i += 1;
        if i == size {
            break None;
        }
        let z = u32::trailing_zeros(i) as usize;
        apart ^= rows[z];
    }
}

// What the chunk `x` reads as, where `unerased` marks its unerased places: the codeword for which 2 × wrong + erased is below D, with the
// count of wrong places; or that there is none. Rows and chunk are cut to the unerased places, so that the search counts wrong places alone; its limit is the
// most that may be wrong. Of a plain chunk, with nothing erased, this is the codeword within the radius, with the count of places in which
// the two differ. The status is then 0, and the values are the codeword's number and the count. Where there is no such codeword, the
// status is 10.
pub fn read_chunk(code: DecodedCode, x: u64, unerased: u64) -> Option<ReadChunk>
    requires { (x < 2 ^ code.n) × (unerased < 2 ^ code.n) }
    ensures unerased { result ≡ erasure_reading (meaning code) (marked (bit unerased)) (bit x) }
    ensures answer { unerased ≡ 2 ^ code.n - 1 → result ≡ chunk_reading (meaning code) (bit x) }
    ensures status { unerased ≡ 2 ^ code.n - 1 → chunk_status result ≡ chunk_refusal (meaning code) (bit x) }
    ensures values { unerased ≡ 2 ^ code.n - 1
        → chunk_values result ≡ if_served (chunk_status result) (chunk_expected (meaning code) (bit x)) }
{
    let erased = code.n - u64::count_ones(unerased);
    if code.distance <= erased {
        return None;
    }
    let limit = (code.distance - 1 - erased) / 2;
    search(code.k, unerased_rows(code, unerased), x & unerased, limit)
}

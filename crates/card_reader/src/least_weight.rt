// The least weight of a code, by going through the sums of its rows.
// A set of rows is a set of the first rows, the low ones, and a set of the rows behind them. The sums of the low rows stand in a
// table. To each sum of the rows behind, the table's sums are added in one plain loop, which the compiler takes many at a time.
ghost use Rattle.std.specs.Prelude.{◌≡◌, ℕ, ◌-◌, ◌^◌, ◌≤◌, ◌<◌, length, get_or};
ghost use Rattle.std.specs.Int.Count.{ones};
ghost use Rattle.model.specs.Card.{sum_of_rows};
ghost use Rattle.model.specs.Order.{gray};
ghost use Rattle.code_theory.specs.LeastOfSets.{least_of_sets};
ghost use Rattle.card_reader.specs.LeastOf.{LeastOf, ones_with};

use bit_arithmetic::powers;

// How many of k rows are low ones: five at most, for the table has room for 32 sums. The compiler would clear a longer table by a
// call of memset, for every card that is checked.
fn low_rows(k: u32) -> u32
    ensures { (result ≤ 5) × (result ≤ k) }
{
    k.min(5)
}

// The sums of the first `low` rows: entry j is the sum of the rows whose bits are set in Gray(j).
// Each is the one before it with one row added, the one whose number is the count of trailing zeros of its own.
fn low_sums(low: u32, rows: [u64; 12]) -> [u64; 32]
    requires { low ≤ 5 }
    ensures { (j : ℕ) → j < 2 ^ low → get_or result j 0 ≡ sum_of_rows (λ z. get_or rows z 0) low (gray j) }
{
    let mut sums = [0; 32];
    let mut sum = 0;
    // Each turn takes the entry behind i: of a range that ends at a power of two itself the compiler tests every step by a shift.
    for i in 0..powers::two_to(low) - 1 {
        let j = i + 1;
        let z = j.trailing_zeros() as usize;
        sum ^= rows[z];
        sums[j as usize] = sum;
    }
    sums
}

// How many bits of a word are 1. The count is a byte, because a processor compares more bytes at a time than wider numbers.
fn ones_of(word: u64) -> u8
    ensures { result ≡ ones word }
{
    word.count_ones() as u8
}

// The least of `start` and of the weights of the sums, each with `word` added.
fn least_of(sums: &[u64], word: u64, start: u8) -> u8
    ensures { LeastOf (ones_with sums.now word) 0 (length sums.now) start result }
{
    let mut least = start;
    for sum in sums {
        least = least.min(ones_of(*sum ^ word));
    }
    least
}

// The least weight of the sums of nonempty sets of rows, if no row has a bit at n or above: 0 where the rows are dependent, the code's
// least distance where they are not. The sum of no rows, entry 0 of the table with no row behind added, is left out.
pub fn least_weight(n: u32, k: u32, rows: [u64; 12]) -> u32
    requires { (n ≤ 64) × (k ≤ 12) }
    ensures { ((z : ℕ) → z < k → get_or rows z 0 < 2 ^ n) → result ≡ least_of_sets n k (λ z. get_or rows z 0) (2 ^ k - 1) }
{
    let low = low_rows(k);
    let table = low_sums(low, rows);
    let sums = &table[..powers::two_to(low) as usize];
    let mut least = least_of(&sums[1..], 0, n as u8);
    let mut word = 0;
    for set in 1..powers::two_to(k - low) {
        let z = (low + set.trailing_zeros()) as usize;
        word ^= rows[z];
        least = least_of(sums, word, least);
    }
    u32::from(least)
}

// Reading a chunk by the majority voting of document 004.
ghost use Rattle.std.specs.Prelude.{◌≡◌, true, IfNone, IfSome, ℕ, ◌+◌, ◌*◌, ◌^◌, ◌≤◌, ◌<◌};
ghost use Rattle.bits.specs.Places.{bit};
ghost use Rattle.model.specs.Order.{gray};
ghost use Rattle.model.specs.ReedMuller.{sets_up_to, count_of_sets, order_within_limits, voted_reading};
ghost use Rattle.reed_muller.specs.Table.{variable_rows};
ghost use Rattle.reed_muller.specs.RoundResult.{rows_after, Tied, LeftBy};

use super::{products, rows, sets};
use bit_arithmetic::powers;
use model::ReadChunk;

// The number of the codeword that is the sum of the rows whose bits are set in `rows`: the i for which Gray(i) is `rows`. It is the
// exclusive-or of `rows` and of what is left of it by each further halving.
fn number_of(rows: u32) -> u32
    ensures { (gray result ≡ rows) × ((k : ℕ) → rows < 2 ^ k → result < 2 ^ k) }
{
    let mut number = rows;
    let mut rest = rows >> 1;
    // A plain loop: it halves a number until nothing is left, and counts no index.
    while rest != 0 {
        number ^= rest;
        rest >>= 1;
    }
    number
}

// A chunk as far as it has been voted on: what is left of it, and the rows that were voted for, those of more variables above those
// of fewer.
#[derive(Clone, Copy)]
struct Voted {
    left: u64,
    rows: u32,
}

// One round, step 2 of document 004: the coefficient of each product of `size` variables is what most of its class sums of y are, and the
// products with coefficient 1 are taken off. The table is gone through downwards, as the rounds are. A vote that is tied ends the voting.
fn vote_round(
    m: u32,
    size: u32,
    y: u64,
    rows: u32,
    sets: &[u8; 42],
    variables: &[u64; 6],
) -> Option<Voted>
    requires m_bound { (m ≤ 6) × (size ≤ m) × (size ≤ 3) × (y < 2 ^ 2 ^ m) × ((rows + 1) * 2 ^ count_of_sets size m ≤ 4096) × (0 < size) }
    requires sets_value { (sets.now ≡ sets_up_to 6 3) × (variables.now ≡ variable_rows) }
    ensures tied { IfNone result (Tied m size y) }
    ensures left { IfSome result (λ voted. LeftBy m size y voted.left) }
    ensures rows { IfSome result (λ voted. voted.rows ≡ rows_after m size y rows) }
{
    let positions = rows::all_positions(m);
    let count = powers::two_to(m - size);
    let first = sets::start_of(size as usize);
    let end = sets::start_of(size as usize + 1);
    let mut left = y;
    let mut found = rows;
    for &set in sets[first..end].iter().rev() {
        let set = u32::from(set);
        if sets::is_own(set, positions) {
            let classes = products::classes_of(y, set, positions, variables);
            let votes = 2 * (classes.sums & classes.row).count_ones();
            found *= 2;
            if votes == count {
                return None;
            }
            if count < votes {
                left ^= classes.row;
                found += 1;
            }
        }
    }
    Some(Voted { left, rows: found })
}

// Reads a chunk by voting: rounds from the products of r variables down to that of none, and the result is accepted only within t
// bits. Where a codeword lies within t bits no vote is tied, so a tie shows at once that none does.
// Each class of the empty set is one position. So the last round needs no table: its votes for 1 are the ones that are left. The chunk and
// the codeword that was voted for differ in these places, or, where these are most, in all the others.
pub fn vote(r: u32, m: u32, chunk: u64) -> Option<ReadChunk>
    requires { (order_within_limits r m ≡ true) × (chunk < 2 ^ 2 ^ m) }
    ensures { result ≡ voted_reading r m (bit chunk) }
{
    let sets = sets::all_sets();
    let variables = products::all_variables();
    let mut left = chunk;
    let mut rows: u32 = 0;
    for size in (1..=r).rev() {
        let voted = vote_round(m, size, left, rows, &sets, &variables)?;
        left = voted.left;
        rows = voted.rows;
    }
    let n = powers::two_to(m);
    let mut differing = left.count_ones();
    rows *= 2;
    if n < 2 * differing {
        differing = n - differing;
        rows += 1;
    }
    if (powers::two_to(m - r) - 1) / 2 < differing {
        return None;
    }
    Some(ReadChunk {
        number: number_of(rows),
        differing,
    })
}

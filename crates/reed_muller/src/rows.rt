// The rows of a Reed-Muller code: the products of at most r of its m variables, by size and then by set.
ghost use Rattle.std.specs.Prelude.{◌≡◌, true, ◌-◌, ◌^◌, ◌≤◌, get_or};
ghost use Rattle.model.specs.ReedMuller.{count_of_sets, product_of, order_within_limits};

use super::{products, sets};
use bit_arithmetic::powers;

// How many rows there are, and the rows. Those past them are zero.
#[derive(Clone, Copy)]
pub struct Rows {
    pub count: u32,
    pub rows: [u64; 12],
}

// A one at each of the 2^m positions.
pub fn all_positions(m: u32) -> u64
    requires { m ≤ 6 }
    ensures { result ≡ 2 ^ 2 ^ m - 1 }
{
    powers::low_ones(powers::two_to(m))
}

// The rows, by the table of sets: those that are not sets of the m variables are left out. The empty set comes first, whose product is a
// one at each position. A row is the product of its set, whatever word is summed over the classes: here it is 0.
pub fn product_rows(r: u32, m: u32) -> Rows
    requires { order_within_limits r m ≡ true }
    ensures { (result.count ≡ count_of_sets r m) × ((λ z. get_or result.rows z 0) ≡ product_of r m) }
{
    let positions = all_positions(m);
    let sets = sets::all_sets();
    let variables = products::all_variables();
    let end = sets::start_of(r as usize + 1);
    let mut rows = [0u64; 12];
    rows[0] = positions;
    let mut count: usize = 1;
    for &set in &sets[1..end] {
        let set = u32::from(set);
        if sets::is_own(set, positions) {
            let classes = products::classes_of(0, set, positions, &variables);
            rows[count] = classes.row;
            count += 1;
        }
    }
    let count = count as u32;
    Rows { count, rows }
}

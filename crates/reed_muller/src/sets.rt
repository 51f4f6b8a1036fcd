// The sets of at most three of six variables, as one table. It serves every code within the limits: the order is at most 3, and the
// sets of its m variables are those of the table that are below 2^m, in the same order.
ghost use Rattle.std.specs.Prelude.{◌≡◌, ℕ, ◌-◌, ◌^◌, ◌≤◌, ◌<◌, ltb};
ghost use Rattle.model.specs.ReedMuller.{sets_up_to};
ghost use Rattle.reed_muller.specs.Table.{sets_before};

// By size and then by number: 1 set of no variable, 6 of one, 15 of two, 20 of three. A byte each, so that the table is made in a few
// instructions.
const SETS: [u8; 42] = [
    0, 1, 2, 4, 8, 16, 32, 3, 5, 6, 9, 10, 12, 17, 18, 20, 24, 33, 34, 36, 40, 48, 7, 11, 13, 14,
    19, 21, 22, 25, 26, 28, 35, 37, 38, 41, 42, 44, 49, 50, 52, 56,
];

// Where the sets of each size start in the table, and where it ends.
const STARTS: [u8; 5] = [0, 1, 7, 22, 42];

// The table.
pub fn all_sets() -> [u8; 42]
    ensures { result ≡ sets_up_to 6 3 }
{
    SETS
}

// How many sets of fewer than `size` variables there are: where those of that size start.
pub fn start_of(size: usize) -> usize
    requires { size ≤ 4 }
    ensures { result ≡ sets_before size }
{
    usize::from(STARTS[size])
}

// Has a set variables of the code alone? As a number it is then one of the code's positions, each of which is a 1 in `positions`.
pub fn is_own(set: u32, positions: u64) -> bool
    requires { set < 64 }
    ensures { (m : ℕ) → positions ≡ 2 ^ 2 ^ m - 1 → result ≡ ltb set (2 ^ m) }
{
    (positions >> set) % 2 == 1
}

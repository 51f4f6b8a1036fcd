// Products of variables, and the classes of a set.
ghost use Rattle.std.specs.Prelude.{◌≡◌, ℕ, ◌-◌, ◌^◌, ◌≤◌, ◌<◌};
ghost use Rattle.bits.specs.Places.{bit};
ghost use Rattle.model.specs.ReedMuller.{product, product_row, class_sum};
ghost use Rattle.reed_muller.specs.Table.{variable_rows};

// The six variables at the 64 positions: place p of variable v is bit v of p.
const VARIABLES: [u64; 6] = [
    0xaaaa_aaaa_aaaa_aaaa,
    0xcccc_cccc_cccc_cccc,
    0xf0f0_f0f0_f0f0_f0f0,
    0xff00_ff00_ff00_ff00,
    0xffff_0000_ffff_0000,
    0xffff_ffff_0000_0000,
];

// The classes of a set: the positions that name them are the ones of `row`, the set's product, and at each of these `sums` holds the
// sum of y over the class.
#[derive(Clone, Copy)]
pub struct Classes {
    pub sums: u64,
    pub row: u64,
}

// The table of variables.
pub fn all_variables() -> [u64; 6]
    ensures { result ≡ variable_rows }
{
    VARIABLES
}

// The classes of a set that is not empty, among the code's positions, and all sums of y over them at once. For each variable in the
// set the word is added to itself, shifted up by the variable's bit: a position with the variable takes in the one without it.
pub fn classes_of(y: u64, set: u32, positions: u64, variables: &[u64; 6]) -> Classes
    requires { (0 < set) × (set < 64) × (variables.now ≡ variable_rows) }
    ensures sums { (c : ℕ) → c < 64 → product set c ≡ 1 → bit result.sums c ≡ class_sum 6 set (bit y) c }
    ensures row { (m : ℕ) → m ≤ 6 → positions ≡ 2 ^ 2 ^ m - 1 → result.row ≡ product_row m set }
{
    let mut sums = y;
    let mut row = positions;
    let mut rest = set;
    // A plain loop: it takes the lowest one off a number that has some, until none is left, and counts no index.
    loop {
        let others = rest & (rest - 1);
        let v = rest.trailing_zeros() as usize;
        row &= variables[v];
        sums ^= sums << (rest - others);
        rest = others;
        if rest == 0 {
            break;
        }
    }
    Classes { sums, row }
}

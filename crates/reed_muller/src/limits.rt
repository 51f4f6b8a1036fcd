// The limits of order and variables: m is 1 to 6, r is 0 to m, and k, the count of sets of at most r variables, is at most 12.
ghost use Rattle.std.specs.Prelude.{◌≡◌};
ghost use Rattle.model.specs.ReedMuller.{order_within_limits};

// The greatest order within the limits, by the number of variables: up to m 3 it is m, and from there on k bounds it.
const GREATEST_ORDER: [u8; 7] = [0, 1, 2, 3, 2, 1, 1];

// Are r and m within the limits? m is tested before anything is taken from the table by it.
pub fn order_within_limits(r: u32, m: u32) -> bool
    ensures { result ≡ order_within_limits r m }
{
    if m < 1 || 6 < m {
        return false;
    }
    r <= u32::from(GREATEST_ORDER[m as usize])
}

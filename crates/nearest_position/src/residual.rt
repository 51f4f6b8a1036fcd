// The residual of a word against a received one: in how many of the unerased bits the two differ.
ghost use Rattle.std.specs.Prelude.{◌≡◌, ◌≤◌};
ghost use Rattle.bits.specs.Sums.{distance_unerased, marked};
ghost use Rattle.bits.specs.Places.{bit, place};
ghost use Rattle.nearest_position.specs.Received.{received_distance};

use super::received::ReceivedWord;

// In how many of the unerased bits, those marked in `unerased`, two bytes differ.
fn unerased_byte_distance(x: u8, y: u8, unerased: u8) -> u32
    ensures { (result ≡ distance_unerased (marked (bit unerased)) 8 (bit x) (bit y)) × (result ≤ 8) }
{
    ((x ^ y) & unerased).count_ones()
}

// The residual of a word against a received one. Both are passed by value.
pub fn unerased_distance(w: [u8; 40], x: ReceivedWord) -> u32
    ensures { result ≡ received_distance 320 (place w) x }
{
    let mut differing: u32 = 0;
    for j in 0..40 {
        differing += unerased_byte_distance(w[j], x.bits[j], x.unerased[j]);
    }
    differing
}

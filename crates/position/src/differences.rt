// The place up to which two words differ in a given number of places. A word is held as [u8; 40]: 320 places.
ghost use Rattle.std.specs.Prelude.{◌≡◌, ◌≤◌};
ghost use Rattle.bits.specs.Sums.{distance};
ghost use Rattle.bits.specs.Places.{bit, place};

// In how many bits two bytes differ.
fn byte_distance(x: u8, y: u8) -> u32
    ensures { (result ≡ distance 8 (bit x) (bit y)) × (result ≤ 8) }
{
    (x ^ y).count_ones()
}

// A bit before which two bytes differ in exactly m bits.
fn bit_after(x: u8, y: u8, m: u32) -> u32
    requires { m ≤ distance 8 (bit x) (bit y) }
    ensures { (result ≤ 8) × (distance result (bit x) (bit y) ≡ m) }
{
    let mut passed: u32 = 0;
    for q in 0..8 {
        if passed == m {
            return q;
        }
        passed += (((x ^ y) >> q) % 2) as u32;
    }
    8
}

// A place before which u and v differ in exactly m places: found by bytes, and within the last one by bits.
pub fn place_after(u: [u8; 40], v: [u8; 40], m: u32) -> u32
    requires { m ≤ distance 320 (place u) (place v) }
    ensures { (result ≤ 320) × (distance result (place u) (place v) ≡ m) }
{
    let mut passed: u32 = 0;
    for j in 0..40 {
        let more = passed + byte_distance(u[j], v[j]);
        if m < more {
            return 8 * j as u32 + bit_after(u[j], v[j], m - passed);
        }
        passed = more;
    }
    320
}

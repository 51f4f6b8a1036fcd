// Refusal 16: a level that is not a number, infinite, or above 1,000,000 in magnitude.
ghost use Rattle.std.specs.Prelude.{◌≡◌, length};
ghost use Rattle.model.specs.Levels.{outside, any_outside};

use super::magnitudes;

// Is a level outside? An infinite one is above the limit like any other.
fn level_is_outside(level: f32) -> bool
    ensures { result ≡ outside level }
{
    let m = magnitudes::magnitude_of(level);
    m > 1000000.0 || m.is_nan()
}

// Is any of the levels outside? The answers for all of them are joined: the loop has no way out before its end, so that the compiler can
// test several levels at once.
#[tactic(auto, unfolding(model::specs::Levels::any_outside, bits::specs::Searches::any_below))]
pub fn any_outside(levels: &[f32]) -> bool
    ensures { result ≡ any_outside (length levels.now) levels.now }
{
    let mut joined = false;
    for level in levels {
        joined |= level_is_outside(*level);
    }
    joined
}

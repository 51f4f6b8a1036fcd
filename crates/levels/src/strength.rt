// The receiver's strength over the levels of a word: the sum of the magnitudes, and the greatest of them.
ghost use Rattle.std.specs.Prelude.{◌≡◌, cond};
ghost use Rattle.std.specs.Float.Ieee.{lt};
ghost use Rattle.model.specs.Levels.{no_strength};

use model::Strength;

// The strength of no levels: two zeros.
pub fn no_strength() -> Strength
    ensures { result ≡ no_strength }
{
    Strength {
        sum: 0.0,
        greatest: 0.0,
    }
}

// The greater of two magnitudes. (Not `f32::max`, whose contract leaves open which of 0 and -0 it is: ours names it.)
pub fn greater(a: f32, b: f32) -> f32
    ensures { result ≡ cond (lt a b) b a }
{
    if a < b { b } else { a }
}

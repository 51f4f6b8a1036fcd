// The magnitude of a level, for the limit and for the strength.
ghost use Rattle.std.specs.Prelude.{◌≡◌};
ghost use Rattle.model.specs.Levels.{magnitude};

// A level below zero with its sign taken off, and any other as it is. (Not `f32::abs`, which makes 0 of -0: `magnitude` says that it stays.)
pub fn magnitude_of(level: f32) -> f32
    ensures { result ≡ magnitude level }
{
    if level < 0.0 { -level } else { level }
}

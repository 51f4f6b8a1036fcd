// The reading of a separator by the sum of its levels.
ghost use Rattle.std.specs.Prelude.{◌≡◌};
ghost use Rattle.levels.specs.LevelChunks.{read_by_sum};

// What a separator reads whose levels have this sum: 1 if it is below zero, else 0.
pub fn read_by(sum: f32) -> u32
    ensures { result ≡ read_by_sum sum }
{
    u32::from(sum < 0.0)
}

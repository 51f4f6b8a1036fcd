// What the levels of a chunk give, folded in order into a struct that is passed by value: bits, unerased places, the sum of the levels, and
// the receiver's strength. Nothing after this looks at a level.
ghost use Rattle.std.specs.Prelude.{◌≡◌, ◌+◌, ◌*◌, ◌^◌, ◌≤◌, ◌<◌, length};
ghost use Rattle.bits.specs.Sums.{from_place};
ghost use Rattle.model.specs.Levels.{bit_of_level, received_at, sum_of_levels, strength_of};
ghost use Rattle.model.specs.declared.ReceivedLevel.TheVariants.{Level};
ghost use Rattle.level_theory.specs.UnitLevels.{UnitLevelsFrom, zeros_less_ones};
ghost use Rattle.levels.specs.LevelChunks.{OneLevelMore, LevelChunkOf};

use super::{magnitudes, received_level, strength};
use model::{ReceivedLevel, Strength};

// The bits of a chunk and a 1 for each unerased one, place 0 lowest, an erased bit 0 in both; the sum of the chunk's levels; and the
// strength over the levels of the word up to the chunk's last.
#[derive(Clone, Copy)]
pub struct LevelChunk {
    pub bits: u64,
    pub unerased: u64,
    pub sum: f32,
    pub strength: Strength,
}

// What place q of a number is worth.
fn worth_of(q: u32) -> u64
    requires { q < 64 }
    ensures { result ≡ 2 ^ q }
{
    1u64 << q
}

// The bit of a level in a place of this worth: negative for 1.
fn bit_in_place(level: f32, worth: u64) -> u64
    ensures { (result ≡ bit_of_level (Level level) * worth) × (result ≤ worth) }
{
    if level < 0.0 { worth } else { 0 }
}

impl LevelChunk {
    // The chunk with one level more, in a place of this worth. An erased bit adds nothing.
    fn with_received(self, worth: u64, received: ReceivedLevel) -> LevelChunk
        requires { (self.bits + worth < 2 ^ 64) × (self.unerased + worth < 2 ^ 64) }
        ensures { OneLevelMore self worth received result }
    {
        match received {
            ReceivedLevel::Lost => self,
            ReceivedLevel::Level(level) => {
                let m = magnitudes::magnitude_of(level);
                LevelChunk {
                    bits: self.bits + bit_in_place(level, worth),
                    unerased: self.unerased + worth,
                    sum: self.sum + level,
                    strength: Strength {
                        sum: self.strength.sum + m,
                        greatest: strength::greater(self.strength.greatest, m),
                    },
                }
            }
        }
    }
}

// The `len` levels from place `at` on, folded one by one, where `before` is the strength over the levels before them. Document 01 names the
// forms: an enum with Level(f32) and Lost, made from each incoming f32 before separators and chunks are read; a separator sum in f32,
// bit-exact against the fold's definition (`folded`), and exact where levels are 1, -1 or 0 (`exact`): then it is the unerased zeros less
// the unerased ones; and a struct of f32 sum of magnitudes and f32 greatest, passed by value through the word's levels.
pub fn chunk_of_levels(levels: &[f32], at: u32, len: u32, before: Strength) -> LevelChunk
    requires len_in_bounds { (at + len ≤ length levels.now) × (at + len ≤ 320) × (len ≤ 64) }
    requires before_value { before ≡ strength_of (received_at levels.now) at }
    ensures received { LevelChunkOf (received_at levels.now) at len result }
    ensures folded { result.sum ≡ sum_of_levels (from_place at (received_at levels.now)) len }
    ensures exact { UnitLevelsFrom at levels.now len
        → result.sum ≡ zeros_less_ones (from_place at (received_at levels.now)) len }
{
    let mut so_far = LevelChunk {
        bits: 0,
        unerased: 0,
        sum: 0.0,
        strength: before,
    };
    for q in 0..len {
        let received = received_level::received_level(levels[(at + q) as usize]);
        so_far = so_far.with_received(worth_of(q), received);
    }
    so_far
}

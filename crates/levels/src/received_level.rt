// What an arriving level is received as. No other function looks at a level to decide whether its bit is erased.
ghost use Rattle.std.specs.Prelude.{◌≡◌};
ghost use Rattle.model.specs.Levels.{received_level};

use model::ReceivedLevel;

// A zero of either sign is an erased bit, and any other level is a level.
pub fn received_level(level: f32) -> ReceivedLevel
    ensures { result ≡ received_level level }
{
    if level == 0.0 {
        ReceivedLevel::Lost
    } else {
        ReceivedLevel::Level(level)
    }
}

// The call on a word from a receiver that gives levels.
ghost use Rattle.std.specs.Prelude.{◌≡◌};
ghost use Rattle.model.specs.Refusals.{status_of, if_served};
ghost use Rattle.model.specs.ReadLevels.{levels_answer, levels_refusal, levels_expected, strength_expected, position_answer};
ghost use Rattle.model.specs.ReadLevels.{levels_values, strength_values};
ghost use Rattle.level_theory.specs.LevelPromises.{OffByAtMostTwiceWrongAndErased, LevelPromises};

use card_reader::decode;
use model::{LevelsReading, Refusal};

// Reads a word from a receiver that gives levels, negative for 1: what a plain read answers, over the bits that aren't erased, and beside a
// reading the receiver's strength, the sum of the magnitudes and the greatest. A level that is zero, of either sign, is an erased bit.
// Refused: the card, 1 to 5 or 14; not exactly d levels, 15; any of them not a number, infinite, or above 1,000,000 in magnitude, 16; and
// then 9 to 12 and 17 as a plain word.
// A code chunk reads as the codeword for which 2 × wrong + erased is below D, one at most (the theorem `chunks_read_below_d` of crate
// level_theory). What follows is said of the position answer, the answer but for the strength. Of d levels of 1, -1 and 0 that have,
// against the word of any position on the track, 2 × wrong + erased below D in every chunk, it is a position, and off by at most
// 2 × wrong + erased, counted over the whole word (`bounded`). The promises: of d levels of 1 and -1 it is that of the plain reading of the
// word of these bits; of any word that is read, the nearest of the allowed positions over the bits that aren't erased, and the count of
// each chunk's wrong places; and of separators, each read by the sum of its levels, the same as of a plain word.
pub fn read_levels(card: &[u8], levels: &[f32]) -> Result<LevelsReading, Refusal>
    ensures answer { result ≡ levels_answer card.now levels.now }
    ensures status { status_of result ≡ levels_refusal card.now levels.now }
    ensures values { levels_values result ≡ if_served (status_of result) (levels_expected card.now levels.now) }
    ensures strength { strength_values result ≡ if_served (status_of result) (strength_expected card.now levels.now) }
    ensures bounded { OffByAtMostTwiceWrongAndErased card.now levels.now (position_answer result) }
    ensures promises { LevelPromises card.now levels.now (position_answer result) }
{
    let code = decode::decode(card)?.code;
    level_reader::read_level_word(code, levels)
}

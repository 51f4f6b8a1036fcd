// The call for C that reads a word of levels.
ghost use Rattle.std.specs.Prelude.{◌≡◌, length};
ghost use Rattle.model.specs.Refusals.{status_of};
ghost use Rattle.model.specs.ReadLevels.{levels_answer, levels_values, strength_values};
ghost use Rattle.level_theory.specs.LevelPromises.{LevelPromises};
ghost use Rattle.dunnavish.specs.Crossing.{read_count, strength_count, status_for, left_by, UnchangedUnlessZero};
ghost use Rattle.dunnavish.specs.Decoding.{read_left};
ghost use Rattle.dunnavish.specs.Demands.{ServedWithinTwiceWrongAndErased};

use super::{WRONG_COUNT, words};

// How many floats a strength is: the sum and the greatest.
const STRENGTH_VALUES: usize = 2;

// Reads a word of levels: the numbers of a plain read, over the bits that aren't erased, into five numbers, and the receiver's strength,
// the sum of the magnitudes and the greatest, into two floats. Where five numbers and two floats are lent: of d levels of 1, -1 and 0
// that have, against the word of any position on the track, 2 × wrong + erased below D in every chunk, the status is 0, and the position
// put into the first number is off by at most 2 × wrong + erased, counted over the whole word (`bounded`).
#[unsafe(no_mangle)]
pub extern "C" fn dunnavish_read_levels(
    card: &[u8],
    levels: &[f32],
    values: &mut [u32],
    strength: &mut [f32],
) -> u32
    ensures status { result ≡ status_for read_count values.old (status_for strength_count strength.old
        (status_of (levels_answer card.now levels.now))) }
    ensures left { values.new
        ≡ left_by result (levels_values (levels_answer card.now levels.now)) values.old }
    ensures strength_left { strength.new
        ≡ left_by result (strength_values (levels_answer card.now levels.now)) strength.old }
    ensures unchanged { UnchangedUnlessZero values.old result values.new }
    ensures strength_unchanged { UnchangedUnlessZero strength.old result strength.new }
    ensures bounded { ServedWithinTwiceWrongAndErased card.now levels.now
        values.old strength.old result values.new }
    ensures promises { length values.old ≡ read_count → length strength.old ≡ strength_count
        → LevelPromises card.now levels.now (read_left result values.new) }
{
    if values.len() != 5 {
        return WRONG_COUNT;
    }
    if strength.len() != STRENGTH_VALUES {
        return WRONG_COUNT;
    }
    match depot::read_levels(card, levels) {
        Err(refusal) => refusal.number,
        Ok(read) => {
            words::put_reading(read.reading, values);
            strength[0] = read.strength.sum;
            strength[1] = read.strength.greatest;
            0
        }
    }
}

// Reading a word of levels, document 02, P5: the second way to see a word. Its levels are folded once; then its separators are read by the
// sums of their levels, and its code chunks and the nearest position by the rules of crate reader, over the bits that aren't erased.
#![tactic(auto)]

ghost use Rattle.std.specs.Prelude.{◌≡◌};
ghost use Rattle.model.specs.ReadLevels.{read_levels};
ghost use Rattle.model.specs.Decoded.{meaning};

use levels::limits;
use model::{DecodedCode, LevelsReading, Refusal};
use position::layout;
use reader::reading;

mod level_word;

// The reading of a list of levels, of any length, with the strength of a word that is read.
pub fn read_level_word(code: DecodedCode, levels: &[f32]) -> Result<LevelsReading, Refusal>
    ensures { result ≡ read_levels (meaning code) levels.now }
{
    let at = layout::layout_of(code);
    if levels.len() != at.bits as usize {
        return Err(Refusal::LEVEL_COUNT);
    }
    if limits::any_outside(levels) {
        return Err(Refusal::LEVEL_LIMITS);
    }
    let received = level_word::word_of_levels(code, at, levels);
    let named = received.rule_by_sums().map_err(|_| Refusal::NO_RULE)?;
    let reading = reading::by_rule(code, at, received.word, named)?;
    Ok(LevelsReading {
        reading,
        strength: received.strength,
    })
}

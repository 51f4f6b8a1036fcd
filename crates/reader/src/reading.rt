// Reading a received word: the separators name a rule, the rule names code chunks, and these name the positions that it allows. A separator
// that contradicts the codeword is refusal 17.
ghost use Rattle.std.specs.Prelude.{◌≡◌, ◌≤◌};
ghost use Rattle.model.specs.ReadWord.{read_word};
ghost use Rattle.model.specs.Decoded.{meaning};
ghost use Rattle.model.specs.Order.{last_codeword};
ghost use Rattle.model.specs.Reading.{Seen, separator_by, two_ends};
ghost use Rattle.nearest_position.specs.Received.{ReceivedIn};
ghost use Rattle.reader.specs.RuleAnswers.{found_at, answer_by, AnswersRule, ChunksReadAs};
ghost use Rattle.nearest_position.specs.Residuals.{residual_in};
ghost use Rattle.nearest_position.specs.RuleNumbers.{rule_number};

use super::chunks::ChunksRead;
use super::naming::NamedRule;
use super::{chunks, naming};
use model::{DecodedCode, Reading, Refusal};
use nearest_position::received::ReceivedWord;
use nearest_position::rule::Rule;
use nearest_position::scan::Scan;
use nearest_position::two_ends;
use position::layout::Layout;
use position::{layout, places};

// What a rule answers of a search through all positions that it allows, with the counts of bits in which the code chunks differ from the
// codeword.
#[tactic(auto, unfolding(crate::specs::RuleAnswers::found_at))]
fn found(s: Scan, rule: Rule, read: ChunksRead) -> Result<Reading, Refusal>
    ensures { result ≡ found_at s (rule_number rule) read }
{
    Ok(Reading {
        position: s.best,
        residual: s.least,
        rule: rule as u32,
        chunk1: read.chunk1,
        chunk2: read.chunk2,
    })
}

// What the named rule answers where its chunks have been read: 12, 17, or the nearest position that it allows.
#[tactic(auto, using(crate::proofs::RuleAnswers::ways_out))]
fn by_chunks(
    code: DecodedCode,
    at: Layout,
    x: ReceivedWord,
    named: NamedRule,
    read: ChunksRead,
) -> Result<Reading, Refusal>
    requires { ReceivedIn (meaning code) at x × (read.number ≤ last_codeword (meaning code)) }
    ensures { (s : Seen) → ChunksReadAs s (rule_number named.rule) read → separator_by s (rule_number named.rule) ≡ named.separator
        → result ≡ answer_by (two_ends (meaning code)) s (residual_in (meaning code) x) (rule_number named.rule) }
{
    if two_ends::no_block(code, named.rule, read.number) {
        return Err(Refusal::NO_BLOCK);
    }
    if naming::contradicts(named.separator, read.number) {
        return Err(Refusal::PARITY_DIFFERS);
    }
    let s = two_ends::nearest_by(code, at, x, named.rule, read.number);
    found(s, named.rule, read)
}

// What the named rule answers.
#[tactic(auto, unfolding(crate::specs::RuleAnswers::ReadsNamed))]
pub fn by_rule(
    code: DecodedCode,
    at: Layout,
    x: ReceivedWord,
    named: NamedRule,
) -> Result<Reading, Refusal>
    requires { ReceivedIn (meaning code) at x }
    ensures { AnswersRule (two_ends (meaning code)) (meaning code) (residual_in (meaning code) x) x
        (rule_number named.rule) named.separator result }
{
    let read = chunks::chunks_named(code, at, x, named.rule)?;
    by_chunks(code, at, x, named, read)
}

// The reading of a plain word, of any length.
pub fn read(code: DecodedCode, word: &[u8]) -> Result<Reading, Refusal>
    ensures { result ≡ read_word (meaning code) word.now }
{
    let at = layout::layout_of(code);
    let len = layout::bytes_in(at);
    if word.len() != len {
        return Err(Refusal::WORD_LENGTH);
    }
    let x = ReceivedWord::plain(word);
    if places::ones_from(x.bits, at.bits, 8 * len as u32 - at.bits) != 0 {
        return Err(Refusal::SPARE_BIT_SET);
    }
    let named = naming::named_rule(code.distance, at, x.bits).map_err(|_| Refusal::NO_RULE)?;
    by_rule(code, at, x, named)
}

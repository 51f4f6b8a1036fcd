// The code chunks that a rule names, read over the unerased places: chunk 1 by rule 1, chunk 2 by rule 2, and by rule 3 both, which must
// read alike.
ghost use Rattle.std.specs.Prelude.{◌≡◌, ◌+◌, ◌≤◌};
ghost use Rattle.std.specs.Option.{ok_or};
ghost use Rattle.bits.specs.Sums.{from_place, marked};
ghost use Rattle.bits.specs.Places.{place};
ghost use Rattle.model.specs.Decoded.{meaning};
ghost use Rattle.model.specs.Words.{word_bits};
ghost use Rattle.model.specs.Levels.{erasure_reading};
ghost use Rattle.position.specs.LayoutOf.{LayoutOf};
ghost use Rattle.nearest_position.specs.RuleNumbers.{rule_number};
ghost use Rattle.reader.specs.RuleAnswers.{unreadable_chunk, ReadsNamed};

use linear_code::search;
use model::{DecodedCode, ReadChunk, Refusal};
use nearest_position::received::ReceivedWord;
use nearest_position::rule::Rule;
use position::layout::Layout;
use position::places;

// The number of the codeword that the rule's chunks read as, and in how many bits each code chunk that was read differs from it.
#[derive(Clone, Copy)]
pub struct ChunksRead {
    pub number: u32,
    pub chunk1: Option<u32>,
    pub chunk2: Option<u32>,
}

// What the code chunk that starts at this place reads as; one that reads as no codeword is refused.
fn chunk_reading(code: DecodedCode, x: ReceivedWord, at: u32) -> Result<ReadChunk, Refusal>
    requires { at + code.n ≤ word_bits (meaning code) }
    ensures { result ≡ ok_or (erasure_reading (meaning code) (from_place at (marked (place x.unerased))) (from_place at (place x.bits)))
        unreadable_chunk }
{
    let bits = places::bits_at(x.bits, at, code.n);
    let unerased = places::bits_at(x.unerased, at, code.n);
    search::read_chunk(code, bits, unerased).ok_or(Refusal::UNREADABLE_CHUNK)
}

// What the chunks that the rule names read as; or they are refused, by 10 where one reads as no codeword, and by 11 where two read
// differently.
pub fn chunks_named(
    code: DecodedCode,
    at: Layout,
    x: ReceivedWord,
    rule: Rule,
) -> Result<ChunksRead, Refusal>
    requires { LayoutOf (meaning code) at }
    ensures { ReadsNamed (meaning code) x (rule_number rule) result }
{
    match rule {
        Rule::First => {
            let read = chunk_reading(code, x, at.chunk1)?;
            Ok(ChunksRead {
                number: read.number,
                chunk1: Some(read.differing),
                chunk2: None,
            })
        }
        Rule::Second => {
            let read = chunk_reading(code, x, at.chunk2)?;
            Ok(ChunksRead {
                number: read.number,
                chunk1: None,
                chunk2: Some(read.differing),
            })
        }
        Rule::Third => {
            let first = chunk_reading(code, x, at.chunk1)?;
            let second = chunk_reading(code, x, at.chunk2)?;
            if first.number != second.number {
                return Err(Refusal::CHUNKS_DIFFER);
            }
            Ok(ChunksRead {
                number: first.number,
                chunk1: Some(first.differing),
                chunk2: Some(second.differing),
            })
        }
    }
}

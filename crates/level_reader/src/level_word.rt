// A word of levels, folded once: its five chunks in order, each level of them taken as a received level and added to one struct that is
// passed by value. Separators and code chunks are read from that struct, and nothing after it looks at a level.
ghost use Rattle.std.specs.Prelude.{◌≡◌, length};
ghost use Rattle.model.specs.Decoded.{meaning};
ghost use Rattle.model.specs.Levels.{received_at};
ghost use Rattle.model.specs.Words.{word_bits};
ghost use Rattle.position.specs.LayoutOf.{LayoutOf};
ghost use Rattle.levels.specs.LevelChunks.{read_by_sum};
ghost use Rattle.reader.specs.Naming.{Names};
ghost use Rattle.level_reader.specs.LevelWords.{LevelWordOf};

use levels::{level_chunk, separators, strength};
use model::{DecodedCode, Strength};
use nearest_position::received::ReceivedWord;
use position::layout::Layout;
use position::words;
use reader::naming;
use reader::naming::NamedRule;

// The word received, its erased bits 0; the sums of its separators; and the strength.
#[derive(Clone, Copy)]
pub struct LevelWord {
    pub word: ReceivedWord,
    pub sum1: f32,
    pub sum2: f32,
    pub sum3: f32,
    pub strength: Strength,
}

impl LevelWord {
    // What its three separators name, read by the sums of their levels: a rule with what the rule's separator reads, or
    // none with what separator 1 reads.
    pub fn rule_by_sums(self) -> Result<NamedRule, u32>
        ensures { Names (read_by_sum self.sum1) (read_by_sum self.sum2) (read_by_sum self.sum3) result }
    {
        let s1 = separators::read_by(self.sum1);
        let s2 = separators::read_by(self.sum2);
        let s3 = separators::read_by(self.sum3);
        naming::named_by(s1, s2, s3)
    }
}

// The d levels of a word, folded chunk by chunk, the strength going on from one to the next.
pub fn word_of_levels(code: DecodedCode, at: Layout, levels: &[f32]) -> LevelWord
    requires { LayoutOf (meaning code) at × (length levels.now ≡ word_bits (meaning code)) }
    ensures { LevelWordOf (meaning code) (received_at levels.now) result }
{
    let n = code.n;
    let d = code.distance;
    let s1 = level_chunk::chunk_of_levels(levels, 0, d, strength::no_strength());
    let c1 = level_chunk::chunk_of_levels(levels, at.chunk1, n, s1.strength);
    let s2 = level_chunk::chunk_of_levels(levels, at.separator2, d, c1.strength);
    let c2 = level_chunk::chunk_of_levels(levels, at.chunk2, n, s2.strength);
    let s3 = level_chunk::chunk_of_levels(levels, at.separator3, d, c2.strength);
    let bits = words::put_down(n, d, s1.bits, c1.bits, s2.bits, c2.bits, s3.bits);
    let unerased = words::put_down(
        n,
        d,
        s1.unerased,
        c1.unerased,
        s2.unerased,
        c2.unerased,
        s3.unerased,
    );
    LevelWord {
        word: ReceivedWord { bits, unerased },
        sum1: s1.sum,
        sum2: s2.sum,
        sum3: s3.sum,
        strength: s3.strength,
    }
}

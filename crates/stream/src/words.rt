// The whole words of the bytes that have come in, read one after the other, with a line for each.
ghost use Rattle.std.specs.Prelude.{◌≡◌, ◌+◌, ◌*◌, ◌^◌, ◌≤◌, ◌<◌, length, drop};
ghost use Rattle.model.specs.Words.{word_length};
ghost use Rattle.model.specs.Decoded.{meaning};
ghost use Rattle.report.specs.Filled.{filled_of};
ghost use Rattle.report.specs.Lines.{line_room};
ghost use Rattle.report.specs.Puts.{Puts};
ghost use Rattle.report.specs.Report.{count_if_read, word_lines, words_read};

use model::{DecodedCode, Reading, Refusal};
use position::layout;
use reader::reading;
use report::lines;
use report::text::Text;

// 1 for a word that is read, 0 for one that is refused.
#[tactic(auto, unfolding(report::specs::Report::count_if_read))]
fn count_if_read(answer: Result<Reading, Refusal>) -> u64
    ensures { (result ≡ count_if_read answer) × (result ≤ 1) }
{
    u64::from(answer.is_ok())
}

// Puts the lines of the `words` words that stand in the lent bytes from place `start` on, numbered on from `met`, the number of words
// before them, and answers how many of the words were read. Document 01 names the form, a part from the
// middle: for each word `&bytes[from..to]` is lent, which starts in the middle of the lent bytes, and the reader's promise names that part.
pub fn put_words(
    out: &mut Text,
    code: DecodedCode,
    bytes: &[u8],
    start: usize,
    met: u64,
    words: usize,
) -> u64
    requires fits { (start + words * word_length (meaning code) ≤ length bytes.now)
        × (words * line_room ≤ length (filled_of out.old).rest) × (met + words < 2 ^ 64) }
    ensures puts { Puts (filled_of out.old) (word_lines (meaning code) (drop start bytes.now) met words)
        (words * line_room) (filled_of out.new) }
    ensures counted { (result ≡ words_read (meaning code) (drop start bytes.now) words) × (result ≤ words) }
{
    let w = layout::word_length(code);
    let mut read: u64 = 0;
    for i in 0..words {
        let from = start + i * w;
        let to = from + w;
        let answer = reading::read(code, &bytes[from..to]);
        lines::put_word_line(out, met + i as u64 + 1, answer);
        read += count_if_read(answer);
    }
    read
}

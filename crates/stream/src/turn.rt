// One turn: lines for the words that have come in, and the bytes short of a word kept for the next turn; and the end. The contracts
// say what a turn and the end add to the report, for whatever came in before.
ghost use Rattle.std.specs.Prelude.{◌≡◌, ◌++◌, ◌+◌, ◌*◌, ◌/◌, ◌^◌, ◌≤◌, ◌<◌, length, take, drop};
ghost use Rattle.model.specs.Words.{word_length};
ghost use Rattle.model.specs.Decoded.{meaning};
ghost use Rattle.report.specs.Filled.{filled_of, capacity, unfilled};
ghost use Rattle.report.specs.Lines.{short_line, last_line, line_room};
ghost use Rattle.report.specs.Puts.{Puts};
ghost use Rattle.stream.specs.Streamed.{Follows, Completes};
ghost use Rattle.stream.specs.TakenIn.{TakenIn};

use super::{tail, words};
use model::DecodedCode;
use position::layout;
use report::lines;
use report::text::Text;

// How a reader of words stands between two turns: the bytes short of a word, which it holds where the words start in its buffer, the
// words that it met, and those of them that were read.
#[derive(Clone, Copy, Default)]
pub struct Progress {
    pub held: usize,
    pub met: u64,
    pub read: u64,
}

// Takes in the `n` bytes of the buffer from place `start` on: those held, and behind them those that came in since the last turn. The
// lines of this turn are all that is then in `out`.
pub fn take_in(
    out: &mut Text,
    code: DecodedCode,
    input: &mut [u8],
    start: usize,
    n: usize,
    before: Progress,
) -> Progress
    requires within { (before.held ≤ n) × (start + n ≤ length input.old) × (before.read ≤ before.met) }
    requires room { n / word_length (meaning code) * line_room ≤ capacity (filled_of out.old) }
    requires met_fits { before.met + n / word_length (meaning code) < 2 ^ 64 }
    ensures taken { TakenIn (meaning code) (take n (drop start input.old)) before
        (drop start input.new) (unfilled (filled_of out.old)) (filled_of out.new) result }
    ensures follows { Follows (meaning code) (drop start input.old) n before (filled_of out.new).text
        (drop start input.new) result }
{
    let w = layout::word_length(code);
    let m = n / w;
    let end = start + n;
    out.clear();
    let read = words::put_words(out, code, &input[..end], start, before.met, m);
    let held = tail::keep_tail(&mut input[start..end], m * w);
    Progress {
        held,
        met: before.met + m as u64,
        read: before.read + read,
    }
}

// The end of the report, which is all that is then in `out`: the bytes short of a word, and the last line.
pub fn put_end(out: &mut Text, progress: Progress)
    requires { 2 * line_room ≤ capacity (filled_of out.old) }
    ensures put { Puts (unfilled (filled_of out.old)) (short_line progress.held ++ last_line progress.met progress.read)
        (2 * line_room) (filled_of out.new) }
    ensures whole { Completes progress (filled_of out.new).text }
{
    out.clear();
    lines::put_short_line(out, progress.held as u64);
    lines::put_last_line(out, progress.met, progress.read);
}

// The end of the report alone, at the front of a buffer: how many bytes it takes. What a `Text` is filled with stands in the buffer that
// was lent, and whoever lent it knows so once the text has ended. No program needs this function: it shows that the promises above say it.
fn end_in(buffer: &mut [u8], progress: Progress) -> usize
    requires { 2 * line_room ≤ length buffer.old }
    ensures end { take result buffer.new ≡ short_line progress.held ++ last_line progress.met progress.read }
    ensures behind { drop result buffer.new ≡ drop result buffer.old }
    ensures whole { Completes progress (take result buffer.new) }
{
    let mut out = Text::new(buffer);
    put_end(&mut out, progress);
    out.as_bytes().len()
}

// The loop of tramread: words come in from standard input, turn by turn, and their lines go out. No contract can say what a call of
// the system's reads or writes, so what is proved is said of the bytes in the buffers: each turn adds to the report what the bytes
// that came in call for, whatever came before (stream's turn.rt), and the last part, which is made only where a read found the end of
// the input, completes it.
#![tactic(auto)]

ghost use Rattle.std.specs.Prelude.{◌≡◌, length};
ghost use Rattle.model.specs.Decoded.{meaning};
ghost use Rattle.report.specs.Filled.{filled_of, capacity};
ghost use Rattle.report.specs.Report.{words_report};
ghost use Rattle.word_loop.specs.Parts.{FromCard, PartOfReport, LastPart, OnlyAtEnd};

use model::DecodedCode;
use position::layout;
use report::text::Text;
use standard_io::{Failure, Received};
use std::io::Error;
use stream::turn;
use stream::turn::Progress;

// The words stand behind the card's 512 bytes in the buffer of bytes, so each of them starts in its middle.
const START: usize = 512;

// A turn of the loop reads at most 1,600 words: 64,000 bytes of the widest word, and 230,400 bytes of lines.
const WORDS: usize = 1600;

// The bytes of the buffer of bytes, and of that of lines.
pub const INPUT: usize = START + WORDS * 40;

pub const LINES: usize = WORDS * 144;

// A proved loop has to end, and nothing says that the input does: the loop takes as many turns as this, a number that no run uses
// up and with which the words' numbers still fit. Running out is a failure, as a failed read is, and completes no report.
const TURNS: u64 = 9007199254740992;

// Writes a part of a report.
pub fn put_out(rt: &HostRuntime, part: &[u8]) -> Result<(), Failure>
    requires { PartOfReport part.now }
{
    standard_io::put_all(rt, part)
}

// Reads words until the input ends, puts out their lines, and leaves the bytes short of a word and the last line in `out`. A read may
// bring few bytes, and part of a word: that part is kept, and the next read goes on behind it. The answer is what the last read brought.
pub fn read_words(
    rt: &HostRuntime,
    code: DecodedCode,
    input: &mut [u8; INPUT],
    out: &mut Text,
) -> Result<Received, Failure>
    requires from_card { FromCard (meaning code) }
    requires room { capacity (filled_of out.old) ≡ 230400 }
    ensures last { LastPart (words_report (meaning code)) (filled_of out.new).text result }
    ensures ended { OnlyAtEnd result }
    ensures same_buffer { (filled_of out.new).lent ≡ (filled_of out.old).lent }
    ensures same_capacity { capacity (filled_of out.new) ≡ capacity (filled_of out.old) }
{
    let full = START + WORDS * layout::word_length(code);
    let mut progress = Progress::default();
    for _turn in 0..TURNS {
        let held = progress.held;
        let received = standard_io::receive(rt, &mut input[START + held..full])?;
        let count = received.count();
        if count == 0 {
            turn::put_end(out, progress);
            return Ok(received);
        }
        progress = turn::take_in(out, code, input, START, held + count, progress);
        put_out(rt, out.as_bytes())?;
    }
    Err(Failure::Reading(Error::other("too many reads")))
}

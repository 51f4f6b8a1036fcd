// tramread: standard input is a card and then words; standard output gets a line for the card, a line a word, and a last line.
// All that is printed is `report_of` of all that is read, a definition of crate report; the loop over the words is crate word_loop's.
// The stored stdin is document 01's card B with the words of its example, and stdout is the document's text, with document 02's bits of
// the chunks at the end of each line of a word that is read.
#![tactic(auto)]

ghost use Rattle.std.specs.Prelude.{◌≡◌, [], ◌++◌, ◌≤◌, length, take, IfOk};
ghost use Rattle.model.specs.Card.{SoundCard};
ghost use Rattle.report.specs.Filled.{filled_of, capacity};
ghost use Rattle.report.specs.Report.{report_of};
ghost use Rattle.word_loop.specs.Parts.{LastPart, OnlyAtEnd};

use card_reader::decode;
use depot::cards;
use report::lines;
use report::text::Text;
use standard_io::{Failure, Received};
use std::env::FillError;
use std::io::Write;
use std::rt::Env;
use word_loop::{INPUT, LINES};

// Whether the program was given an argument. The name that it was called by stands before them. (tramcard's, of any number of arguments,
// is its own: a crate for both would hold this one function, of which no contract can speak.)
fn has_argument(rt: &HostRuntime) -> bool {
    !matches!(rt.arg(1, &mut []), Err(FillError::NotPresent))
}

// Prints on standard error how the program is used.
fn print_usage(rt: &HostRuntime) {
    let _ = eprintln!(rt; "usage: tramread < INPUT   (a card of 512 bytes, then words)");
}

// Reads the card into the front of the buffer: until all its 512 bytes have come or the input ends.
fn receive_card(rt: &HostRuntime, input: &mut [u8; INPUT]) -> Result<Received, Failure>
    ensures { IfOk result (λ came. came.count ≤ 512) }
{
    standard_io::receive_all(rt, &mut input[..512])
}

// The report of a card, of which `came` says how many bytes stand at the front of `input`, and of the words behind it: all but its
// last part is put out, and that part is left in `out`. The card is checked and decoded once. Of a refused card no word is read.
fn report_on(
    rt: &HostRuntime,
    came: Received,
    input: &mut [u8; INPUT],
    out: &mut Text,
) -> Result<Received, Failure>
    requires card { came.count ≤ 512 }
    requires room { capacity (filled_of out.old) ≡ 230400 }
    requires anew { (filled_of out.old).text ≡ [] }
    ensures last { LastPart (λ more. report_of (take came.count input.old ++ more)) (filled_of out.new).text result }
    ensures ended { SoundCard (take came.count input.old) → OnlyAtEnd result }
    ensures same_buffer { (filled_of out.new).lent ≡ (filled_of out.old).lent }
    ensures same_capacity { capacity (filled_of out.new) ≡ capacity (filled_of out.old) }
{
    let n = came.count();
    let decoded = decode::decode(&input[..n]);
    lines::put_card_line(out, cards::card_answer(decoded));
    let Ok(card) = decoded else {
        return Ok(came);
    };
    word_loop::put_out(rt, out.as_bytes())?;
    word_loop::read_words(rt, card.code, input, out)
}

// The report of what standard input gives. Fewer than 512 bytes are a card of that many bytes.
fn run(rt: &HostRuntime) -> Result<(), Failure> {
    let mut input = [0; INPUT];
    let came = receive_card(rt, &mut input)?;
    let mut lines = [0; LINES];
    let mut out = Text::new(&mut lines);
    report_on(rt, came, &mut input, &mut out)?;
    word_loop::put_out(rt, out.as_bytes())
}

// The program takes no argument.
fn main(rt: HostRuntime) {
    if has_argument(&rt) {
        print_usage(&rt);
        return;
    }
    if let Err(failure) = run(&rt) {
        failure.tell(&rt, "tramread");
    }
}

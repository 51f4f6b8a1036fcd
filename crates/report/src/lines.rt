// The lines that tramread prints, and the parts of a word's line. A line needs room for the longest one, a part for the longest such
// part: each call takes some of the room away, so each asks for it.
// The lines are no `Display`: what `write!` promises holds where its result is `Ok`, and a call here puts its line always.
ghost use Rattle.std.specs.Prelude.{◌≡◌, ◌≤◌, length, take, drop};
ghost use Rattle.report.specs.Filled.{filled_of};
ghost use Rattle.report.specs.Lines.{card_line, bits_text, rule_and_bits, word_line, short_line, last_line, line_room};
ghost use Rattle.report.specs.Puts.{Puts};

use crate::text::Text;
use model::{CardSummary, Reading, Refusal};

// The line of the card.
pub fn put_card_line(out: &mut Text, answer: Result<CardSummary, Refusal>)
    requires { line_room ≤ length (filled_of out.old).rest }
    ensures { Puts (filled_of out.old) (card_line answer) line_room (filled_of out.new) }
{
    match answer {
        Ok(summary) => {
            out.put_field(b"track ", u64::from(summary.track));
            out.put_field(b" last ", u64::from(summary.last));
            out.put_last_field(b" radius ", u64::from(summary.radius));
        }
        Err(refusal) => out.put_last_field(b"card refused ", u64::from(refusal.number)),
    }
}

// In how many bits a code chunk differs from its codeword, after a space; nothing where the chunk was not read.
#[tactic(auto, using(crate::proofs::Puts::puts_once), unfolding(crate::specs::Text::ascii, crate::specs::Lines::bits_text))]
fn put_bits(out: &mut Text, bits: Option<u32>)
    requires { 21 ≤ length (filled_of out.old).rest }
    ensures { Puts (filled_of out.old) (bits_text bits) 21 (filled_of out.new) }
{
    if let Some(count) = bits {
        out.put_field(b" ", u64::from(count));
    }
}

// The last part of the line of a word that is read: the rule, the counts of bits of its chunks, chunk 1 first, and the line's end. With 20
// digits to a number that is at most 26 bytes, twice 21, and one.
fn put_rule_and_bits(out: &mut Text, read: Reading)
    requires { 69 ≤ length (filled_of out.old).rest }
    ensures { Puts (filled_of out.old) (rule_and_bits read) 69 (filled_of out.new) }
{
    let chunk1 = read.chunk1;
    let chunk2 = read.chunk2;
    out.put_field(b" rule ", u64::from(read.rule));
    put_bits(out, chunk1);
    put_bits(out, chunk2);
    out.put_line_end();
}

// The line of word `number`.
pub fn put_word_line(out: &mut Text, number: u64, answer: Result<Reading, Refusal>)
    requires { line_room ≤ length (filled_of out.old).rest }
    ensures { Puts (filled_of out.old) (word_line number answer) line_room (filled_of out.new) }
{
    out.put_number(number);
    match answer {
        Ok(read) => {
            out.put_field(b" at ", u64::from(read.position));
            out.put_field(b" residual ", u64::from(read.residual));
            put_rule_and_bits(out, read);
        }
        Err(refusal) => out.put_last_field(b" refused ", u64::from(refusal.number)),
    }
}

// The line of the bytes short of a word, or nothing where there is none.
#[tactic(auto, using(crate::proofs::Puts::puts_once), unfolding(crate::specs::Text::ascii, crate::specs::Lines::short_line))]
pub fn put_short_line(out: &mut Text, bytes: u64)
    requires { line_room ≤ length (filled_of out.old).rest }
    ensures { Puts (filled_of out.old) (short_line bytes) line_room (filled_of out.new) }
{
    if bytes != 0 {
        out.put_last_field(b"short ", bytes);
    }
}

// The last line: whole words met, words read.
pub fn put_last_line(out: &mut Text, words: u64, read: u64)
    requires { line_room ≤ length (filled_of out.old).rest }
    ensures { Puts (filled_of out.old) (last_line words read) line_room (filled_of out.new) }
{
    out.put_field(b"words ", words);
    out.put_last_field(b" read ", read);
}

// The last line alone, at the front of a buffer: how many bytes it takes. What is put into a `Text` stands in the buffer that was lent,
// and whoever lent it knows so once the text has ended. No program needs this function: it shows that the promises above say it.
fn last_line_in(buffer: &mut [u8], words: u64, read: u64) -> usize
    requires { line_room ≤ length buffer.old }
    ensures line { take result buffer.new ≡ last_line words read }
    ensures behind { drop result buffer.new ≡ drop result buffer.old }
{
    let mut out = Text::new(buffer);
    put_last_line(&mut out, words, read);
    out.as_bytes().len()
}

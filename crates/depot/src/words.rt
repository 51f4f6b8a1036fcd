// The calls on a position and its word: the word is written and read, and the position of a block's start and the distance of a position
// are answered.
ghost use Rattle.std.specs.Prelude.{◌≡◌, false, [], ◌∷◌, ◌≤◌};
ghost use Rattle.model.specs.Refusals.{status_of, if_served};
ghost use Rattle.model.specs.Card.{code_of, offset_of, offset_outside};
ghost use Rattle.model.specs.Order.{start};
ghost use Rattle.model.specs.Words.{millimetres_of};
ghost use Rattle.model.specs.WriteWord.{Written, write_answer, lent_after_write, write_refusal, write_values};
ghost use Rattle.model.specs.ReadWord.{read_answer, read_refusal, read_expected, read_values};
ghost use Rattle.model.specs.BlockStart.{start_answer, start_refusal, number_values};
ghost use Rattle.model.specs.Millimetres.{millimetres_answer, millimetres_refusal, millimetres_values};
ghost use Rattle.code_theory.specs.Offsets.{MillimetresPromises};
ghost use Rattle.position_theory.specs.WritePromises.{NeighboursDifferInOneBit, NoOtherPositionsWord, WritePromises};
ghost use Rattle.position_theory.specs.ReadPromises.{OffByAtMostTwiceDamaged, OffByAtMostDamagedAndResidual, ReadPromises};

use card_reader::decode;
use model::{Reading, Refusal};
use position::{blocks, layout, words};
use reader::reading;

// Writes the word of a position into the lent word. Refused: the card, 1 to 5 or 14; a lent word that has not exactly the bytes of a
// word, 6; a position above the last, 7. The word that is written differs in just one bit from the word of each neighbouring position
// (`neighbours`), and is the word of no other position (`alone`). The promises: what is not refused is written, and a refused write changes
// no byte of the lent word.
pub fn write_word(card: &[u8], position: u32, word: &mut [u8]) -> Result<(), Refusal>
    ensures answer { result ≡ write_answer card.now position word.old }
    ensures status { status_of result ≡ write_refusal card.now position word.old }
    ensures values { write_values result ≡ [] }
    ensures left { word.new ≡ lent_after_write card.now position word.old }
    ensures neighbours { result ≡ Written → NeighboursDifferInOneBit card.now position word.new }
    ensures alone { result ≡ Written → NoOtherPositionsWord card.now position word.new }
    ensures promises { WritePromises card.now position word.old result word.new }
{
    let code = decode::decode(card)?.code;
    if word.len() != layout::word_length(code) {
        return Err(Refusal::WORD_LENGTH);
    }
    if blocks::last_position(code) < position {
        return Err(Refusal::PAST_THE_END);
    }
    words::write(code, position, word);
    Ok(())
}

// Reads a received word: its position, the residual, the rule, and in how many bits each code chunk that the rule names differs from its
// codeword. Rule 1 names chunk 1, rule 2 chunk 2, rule 3 both. A chunk that the rule does not name is not read, and has no count.
// Refused: the card, 1 to 5 or 14; a word that has not exactly the bytes of a word, 6; a spare bit set, 8; separators that name no rule,
// 9; a chunk that the rule names with no codeword within the radius, 10; two chunks that read differently, 11; a block before the first
// or after the last, 12; separator 1, by rule 2 separator 3, that differs from the parity of the codeword's number, 17.
// Of the word of any position on the track, with at most t damaged bits in each chunk, the answer is a position. It is off by at most
// twice the damaged bits (`bounded`), and by at most the damaged bits plus the residual (`sharper`).
// The promises: a chunk that is read differs from its codeword in as many bits as are damaged in it. Both bounds hold also where the
// divided chunk of that position's word (`divided`, model/specs/Words.antt; at most one is, by the theorem `at_most_one_divided`) is
// damaged arbitrarily and each other one has at most t damaged bits. If then at most e bits are damaged in all, the residual is at most e,
// and the position lies within the error bar: the residual plus e on either side of the answer. Of any word that is read, the answer is
// the nearest of the positions that the rule allows; a chunk's count is that of the places in which it differs from its codeword, at most
// t; and separator 1, by rule 2 separator 3, has the parity of the codeword's number, so that a word mixed from two telegrams whose
// parities differ is never read. Refusal 17 changes no other answer.
pub fn read_word(card: &[u8], word: &[u8]) -> Result<Reading, Refusal>
    ensures answer { result ≡ read_answer card.now word.now }
    ensures status { status_of result ≡ read_refusal card.now word.now }
    ensures values { read_values result ≡ if_served (status_of result) (read_expected card.now word.now) }
    ensures bounded { OffByAtMostTwiceDamaged card.now word.now result }
    ensures sharper { OffByAtMostDamagedAndResidual card.now word.now result }
    ensures promises { ReadPromises card.now word.now result }
{
    let code = decode::decode(card)?.code;
    reading::read(code, word)
}

// The position at which a block starts. Refused: the card, 1 to 5 or 14, or a block above 2^k - 1, 7.
pub fn block_start(card: &[u8], block: u32) -> Result<u32, Refusal>
    ensures answer { result ≡ start_answer card.now block }
    ensures status { status_of result ≡ start_refusal card.now block }
    ensures values { number_values result ≡ if_served (status_of result) (start (code_of card.now) block ∷ []) }
{
    let code = decode::decode(card)?.code;
    if blocks::last_codeword(code) < block {
        return Err(Refusal::PAST_THE_END);
    }
    Ok(blocks::start_of_block(code, block))
}

// The distance of a position from the buffer face: the offset, and 50 mm for each step. Document 01 names the form: a signed sum.
fn from_face(offset: i32, position: u32) -> i32
    requires { (offset_outside offset ≡ false) × (position ≤ 1310400) }
    ensures { result ≡ millimetres_of offset position }
{
    offset + (50 * position) as i32
}

// The distance of a position from the buffer face, in millimetres: negative where the position lies before the face. Refused: the
// card, 1 to 5 or 14, or a position above the last, 7. The promise: an old card, whose bytes 100 to 103 are zero, gives its old
// distances, as document 01 alone has them.
pub fn millimetres(card: &[u8], position: u32) -> Result<i32, Refusal>
    ensures answer { result ≡ millimetres_answer card.now position }
    ensures status { status_of result ≡ millimetres_refusal card.now position }
    ensures values { millimetres_values result
        ≡ if_served (status_of result) (millimetres_of (offset_of card.now) position ∷ []) }
    ensures promises { MillimetresPromises card.now position result }
{
    let decoded = decode::decode(card)?;
    if blocks::last_position(decoded.code) < position {
        return Err(Refusal::PAST_THE_END);
    }
    Ok(from_face(decoded.offset, position))
}

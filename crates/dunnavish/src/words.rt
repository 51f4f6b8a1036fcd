// The calls for C that write and read plain words, and that say where a block starts and how far a position lies from the buffer face.
ghost use Rattle.std.specs.Prelude.{◌≡◌, length};
ghost use Rattle.model.specs.Refusals.{status_of};
ghost use Rattle.model.specs.Reading.{bits_value, reading_values};
ghost use Rattle.model.specs.WriteWord.{write_answer, lent_after_write};
ghost use Rattle.model.specs.ReadWord.{read_answer, read_values};
ghost use Rattle.model.specs.BlockStart.{start_answer, number_values};
ghost use Rattle.model.specs.Millimetres.{millimetres_answer, millimetres_values};
ghost use Rattle.code_theory.specs.Offsets.{MillimetresPromises};
ghost use Rattle.position_theory.specs.WritePromises.{NeighboursDifferInOneBit, NoOtherPositionsWord, WritePromises};
ghost use Rattle.position_theory.specs.ReadPromises.{ReadPromises};
ghost use Rattle.dunnavish.specs.Crossing.{read_count, number_count, status_for, left_by, UnchangedUnlessZero};
ghost use Rattle.dunnavish.specs.Decoding.{write_left, read_left, millimetres_left};
ghost use Rattle.dunnavish.specs.Demands.{ServedWithinTwiceDamaged, ServedWithinDamagedAndResidual};

use super::WRONG_COUNT;
use model::Reading;

// The count of bits of a code chunk that was not read. Any other count is at most t, so it is never this number.
const NOT_READ: u32 = 4294967295;

// Writes the word of a position into the lent word.
#[unsafe(no_mangle)]
pub extern "C" fn dunnavish_write_word(card: &[u8], position: u32, word: &mut [u8]) -> u32
    ensures status { result ≡ status_of (write_answer card.now position word.old) }
    ensures left { word.new ≡ lent_after_write card.now position word.old }
    ensures unchanged { UnchangedUnlessZero word.old result word.new }
    ensures neighbours { result ≡ 0 → NeighboursDifferInOneBit card.now position word.new }
    ensures alone { result ≡ 0 → NoOtherPositionsWord card.now position word.new }
    ensures promises { WritePromises card.now position word.old (write_left result) word.new }
{
    match depot::write_word(card, position, word) {
        Err(refusal) => refusal.number,
        Ok(()) => 0,
    }
}

// In how many bits a code chunk differs from its codeword, as a number.
fn bits_value(bits: Option<u32>) -> u32
    ensures { result ≡ bits_value bits }
{
    bits.unwrap_or(NOT_READ)
}

// The values of a word that is read into five lent numbers.
pub fn put_reading(read: Reading, values: &mut [u32])
    requires { length values.old ≡ read_count }
    ensures { values.new ≡ reading_values read }
{
    values.copy_from_slice(&[
        read.position,
        read.residual,
        read.rule,
        bits_value(read.chunk1),
        bits_value(read.chunk2),
    ]);
}

// Reads a received word, into five numbers: position, residual, rule, and in how many bits chunk 1 and chunk 2 differ from their codeword,
// NOT_READ for a chunk that the rule does not name. Of the word of any position on the track, with at most t damaged bits in each chunk,
// the status is 0 where five numbers are lent. The position put into the first of them is then off by at most twice the damaged bits
// (`bounded`), and by at most the damaged bits plus the residual, the second number (`sharper`).
#[unsafe(no_mangle)]
pub extern "C" fn dunnavish_read_word(card: &[u8], word: &[u8], values: &mut [u32]) -> u32
    ensures status { result ≡ status_for read_count values.old
        (status_of (read_answer card.now word.now)) }
    ensures left { values.new
        ≡ left_by result (read_values (read_answer card.now word.now)) values.old }
    ensures unchanged { UnchangedUnlessZero values.old result values.new }
    ensures bounded { ServedWithinTwiceDamaged card.now word.now
        values.old result values.new }
    ensures sharper { ServedWithinDamagedAndResidual card.now word.now
        values.old result values.new }
    ensures promises { length values.old ≡ read_count
        → ReadPromises card.now word.now (read_left result values.new) }
{
    if values.len() != 5 {
        return WRONG_COUNT;
    }
    match depot::read_word(card, word) {
        Err(refusal) => refusal.number,
        Ok(read) => {
            put_reading(read, values);
            0
        }
    }
}

// The position at which a block starts, into one number.
#[unsafe(no_mangle)]
pub extern "C" fn dunnavish_block_start(card: &[u8], block: u32, values: &mut [u32]) -> u32
    ensures status { result ≡ status_for number_count values.old (status_of (start_answer card.now block)) }
    ensures left { values.new ≡ left_by result (number_values (start_answer card.now block)) values.old }
    ensures unchanged { UnchangedUnlessZero values.old result values.new }
{
    if values.len() != 1 {
        return WRONG_COUNT;
    }
    match depot::block_start(card, block) {
        Err(refusal) => refusal.number,
        Ok(number) => {
            values[0] = number;
            0
        }
    }
}

// The distance of a position from the buffer face in millimetres, into one signed number.
#[unsafe(no_mangle)]
pub extern "C" fn dunnavish_millimetres(card: &[u8], position: u32, values: &mut [i32]) -> u32
    ensures status { result ≡ status_for number_count values.old
        (status_of (millimetres_answer card.now position)) }
    ensures left { values.new
        ≡ left_by result (millimetres_values (millimetres_answer card.now position)) values.old }
    ensures unchanged { UnchangedUnlessZero values.old result values.new }
    ensures promises { length values.old ≡ number_count
        → MillimetresPromises card.now position (millimetres_left result values.new) }
{
    if values.len() != 1 {
        return WRONG_COUNT;
    }
    match depot::millimetres(card, position) {
        Err(refusal) => refusal.number,
        Ok(distance) => {
            values[0] = distance;
            0
        }
    }
}

// The calls for C that know the Reed-Muller codes: the one that makes a card, and the one that votes on a chunk.
ghost use Rattle.std.specs.Prelude.{◌≡◌, length};
ghost use Rattle.model.specs.Refusals.{status_of};
ghost use Rattle.model.specs.MakeCard.{make_refusal, make_answer, made_bytes};
ghost use Rattle.model.specs.VoteChunk.{vote_answer, vote_values};
ghost use Rattle.reed_muller_theory.specs.Votes.{VotePromises};
ghost use Rattle.dunnavish.specs.Crossing.{vote_count, card_bytes, status_for, left_by, UnchangedUnlessZero};
ghost use Rattle.dunnavish.specs.Decoding.{vote_left};
ghost use Rattle.dunnavish.specs.Demands.{MadeWithinLimits};

use super::WRONG_COUNT;

// Makes the card of the Reed-Muller code of order r in m variables for a track, into a lent card of 512 bytes. Where r, m and k are
// within the limits, the status is 0, and they are the bytes of that card.
#[unsafe(no_mangle)]
pub extern "C" fn dunnavish_make_card(track: u16, r: u32, m: u32, card: &mut [u8]) -> u32
    ensures status { result ≡ status_for card_bytes card.old (make_refusal r m) }
    ensures left { card.new ≡ left_by result (made_bytes (make_answer track r m)) card.old }
    ensures unchanged { UnchangedUnlessZero card.old result card.new }
    ensures made { MadeWithinLimits track r m card.old result card.new }
{
    if card.len() != 512 {
        return WRONG_COUNT;
    }
    match depot::make_card(track, r, m) {
        Err(refusal) => refusal.number,
        Ok(made) => {
            card.copy_from_slice(&made);
            0
        }
    }
}

// Votes on a chunk of the Reed-Muller code of order r in m variables: the codeword's number, and in how many bits the two differ, into
// two numbers.
#[unsafe(no_mangle)]
pub extern "C" fn dunnavish_vote_chunk(r: u32, m: u32, chunk: u64, values: &mut [u32]) -> u32
    ensures status { result ≡ status_for vote_count values.old (status_of (vote_answer r m chunk)) }
    ensures left { values.new ≡ left_by result (vote_values (vote_answer r m chunk)) values.old }
    ensures unchanged { UnchangedUnlessZero values.old result values.new }
    ensures promises { length values.old ≡ vote_count → VotePromises r m chunk (vote_left result values.new) }
{
    if values.len() != 2 {
        return WRONG_COUNT;
    }
    match depot::vote_chunk(r, m, chunk) {
        Err(refusal) => refusal.number,
        Ok(read) => {
            values[0] = read.number;
            values[1] = read.differing;
            0
        }
    }
}

// The calls on a Reed-Muller code, which are given its order and variables and no card: its card is made, and a chunk of it is read by
// voting.
ghost use Rattle.std.specs.Prelude.{◌≡◌, true, IsOkAnd};
ghost use Rattle.model.specs.Refusals.{status_of, if_served};
ghost use Rattle.model.specs.ReedMuller.{order_within_limits};
ghost use Rattle.model.specs.MakeCard.{make_refusal, make_answer};
ghost use Rattle.model.specs.VoteChunk.{vote_refusal, vote_answer, vote_expected, vote_values};
ghost use Rattle.reed_muller_theory.specs.MadeCards.{IsReedMullerCard};
ghost use Rattle.reed_muller_theory.specs.Votes.{VotePromises};

use model::{ReadChunk, Refusal};
use reed_muller::{limits, made, rows, voting};

// Makes the card of the Reed-Muller code of order r in m variables for a track. Refused by 13: m outside 1 to 6, r above m, or k above
// 12. Any other card is made, and is sound: its n is 2^m, its k the count of sets of at most r variables,
// its D 2^(m-r), and its track the one that was given.
pub fn make_card(track: u16, r: u32, m: u32) -> Result<[u8; 512], Refusal>
    ensures answer { result ≡ make_answer track r m }
    ensures status { status_of result ≡ make_refusal r m }
    ensures made { order_within_limits r m ≡ true → IsOkAnd result (λ card. IsReedMullerCard track r m card) }
{
    if limits::order_within_limits(r, m) {
        Ok(made::made_card(track, r, m))
    } else {
        Err(Refusal::ORDER_LIMITS)
    }
}

// Reads a chunk of the Reed-Muller code of order r in m variables by voting: the codeword's number, and in how many bits the two
// differ. It takes no card, and checks none. Refused: m, r or k outside the limits, 13; a bit at n or above, 8; no codeword within
// the radius, 10. The promises: it keeps the chunk promise of plain chunks, and on every chunk of n bits it answers as the search does on
// the card that `make_card` makes.
pub fn vote_chunk(r: u32, m: u32, chunk: u64) -> Result<ReadChunk, Refusal>
    ensures answer { result ≡ vote_answer r m chunk }
    ensures status { status_of result ≡ vote_refusal r m chunk }
    ensures values { vote_values result ≡ if_served (status_of result) (vote_expected r m chunk) }
    ensures promises { VotePromises r m chunk result }
{
    if !limits::order_within_limits(r, m) {
        return Err(Refusal::ORDER_LIMITS);
    }
    if rows::all_positions(m) < chunk {
        return Err(Refusal::SPARE_BIT_SET);
    }
    voting::vote(r, m, chunk).ok_or(Refusal::UNREADABLE_CHUNK)
}

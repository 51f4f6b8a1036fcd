// The calls on the yard, which is handed in by value and handed back: a tram requests a track, and releases the track of a card by its
// word. From the empty yard, each call given the yard that the last one left, the yard is never refused by 26 (the theorem `never_unsound`),
// and a waiting tram with q trams ahead of it in its queue holds its track after exactly q + 1 accepted releases of that track, and not
// before, whatever other calls fall between (the theorem `served_in_turn`, yard_theory/proofs/QueueTheorem.antt).
ghost use Rattle.std.specs.Prelude.{◌≡◌};
ghost use Rattle.model.specs.Refusals.{status_of, if_served};
ghost use Rattle.model.specs.RequestTrack.{request_answer, request_refusal, request_expected, request_values};
ghost use Rattle.model.specs.ReleaseTrack.{release_answer, release_refusal, release_expected, release_values};
ghost use Rattle.yard_theory.specs.YardPromises.{RequestPromises, ReleasePromises};

use card_reader::decode;
use model::{Released, Requested, Yard};
use slot_queue::{releases, requests};

// A tram requests a track: it holds a free one, and otherwise joins the end of the track's queue. Refused, in this order: a yard with a tram
// twice, a tram waiting for a free track (as one above 15 is), or more than 32 waiting, 26; a track above 15, 20; a tram that already holds
// or waits for any track, 21; a track that is held while 32 trams wait over all tracks, 22.
// The promises: a refused request leaves the yard as it was. The tram then holds the track, or waits behind all that waited for it. It is
// the last in the line of the track, which is the holder and then the queue; no other line changes; and the yard that is left is not
// refused by 26.
pub fn request(yard: Yard, tram: u16, track: u32) -> Requested
    ensures answer { result ≡ request_answer yard tram track }
    ensures status { status_of result.answer ≡ request_refusal yard tram track }
    ensures values { request_values result.answer ≡ if_served (status_of result.answer) (request_expected yard tram track) }
    ensures promises { RequestPromises yard tram track result }
{
    requests::request(yard, tram, track)
}

// A tram releases the track of a card by its word. Refused, in this order: the card, 1 to 5 or 14; the yard, 26; a track above 15, 20; a
// tram that isn't the holder of the track, 21; the word, 6, 8 to 12 or 17. If the position less 10t isn't above the mark, which may be any
// number, the tram is not clear. Otherwise the release is accepted: the track is handed to the first tram of its queue, or freed.
// The promises: a release that is refused, or not clear, leaves the yard as it was. An accepted one takes the tram off the head of the line
// of the track; no other line changes; and the yard that is left is not refused by 26. Of the word of a true position with at most t
// damaged bits in each chunk: if the release is accepted, the true position is above the mark, so that no track is given away while the
// tram stands on it (`only_clear`); and if the true position less 20t is above the mark and nothing is refused ahead of the word, the
// release is accepted, so that a tram that is clear of its track is never kept on it (`never_kept`).
pub fn release(yard: Yard, tram: u16, word: &[u8], mark: u32, card: &[u8]) -> Released
    ensures answer { result ≡ release_answer yard tram word.now mark card.now }
    ensures status { status_of result.answer ≡ release_refusal yard tram word.now card.now }
    ensures values { release_values result.answer
        ≡ if_served (status_of result.answer) (release_expected yard word.now mark card.now) }
    ensures promises { ReleasePromises yard tram word.now mark card.now result }
{
    match decode::decode(card) {
        Ok(sound) => releases::release(sound.code, sound.track, yard, tram, word, mark),
        Err(refusal) => Released {
            answer: Err(refusal),
            yard,
        },
    }
}

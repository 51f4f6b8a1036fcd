// A tram releases the track of a sound card by its word: refusals 26, 20 and 21, then the word's; then the tram is not clear of the mark, or
// the track is handed to the first of its queue, or freed.
ghost use Rattle.std.specs.Prelude.{◌≡◌, ◌≤◌, ◌<◌, Ok};
ghost use Rattle.model.specs.Decoded.{meaning};
ghost use Rattle.model.specs.Refusals.{first_refusal, Refused, unless_refused};
ghost use Rattle.model.specs.ReadWord.{read_word};
ghost use Rattle.model.specs.Yard.{most_waiting, queue};
ghost use Rattle.model.specs.ReleaseTrack.{rows_of_release, is_clear, handed_on, release_on};

use model::{DecodedCode, Reading, Refusal, Release, Released, Slot, TRACKS, Yard};
use reader::reading;
use trams::widening;
use yard::{entries, soundness, tracks};

// What refuses the release ahead of the word once the card is sound, if anything does.
fn check(yard: Yard, tram: u16, track: u32) -> Result<(), Refusal>
    ensures { result ≡ unless_refused (first_refusal (rows_of_release yard tram track)) Refused (Ok tt) }
{
    if soundness::is_unsound(yard) {
        return Err(Refusal::UNSOUND_YARD);
    }
    if TRACKS <= track as usize {
        return Err(Refusal::NO_SUCH_TRACK);
    }
    if !tracks::is_holder(yard, tram, track as usize) {
        return Err(Refusal::WRONG_TRAM);
    }
    Ok(())
}

// What the word reads as, unless the release is refused ahead of it.
fn read(
    code: DecodedCode,
    track: u32,
    yard: Yard,
    tram: u16,
    word: &[u8],
) -> Result<Reading, Refusal>
    ensures { result ≡ unless_refused (first_refusal (rows_of_release yard tram track)) Refused (read_word (meaning code) word.now) }
{
    check(yard, tram, track)?;
    reading::read(code, word)
}

// Whether the position less 10t is above the mark. In 64 bits the sum of mark and 10t is exact.
fn is_clear(code: DecodedCode, position: u32, mark: u32) -> bool
    ensures { result ≡ is_clear (meaning code) position mark }
{
    u64::from(mark) + u64::from(widening::margin_of(code)) < u64::from(position)
}

// The track goes to the first of its queue; if none waits, nobody holds it.
fn hand_on(yard: Yard, track: u32) -> Released
    requires { (track < 16) × (yard.count ≤ most_waiting) }
    ensures { result ≡ handed_on track yard (queue yard track) }
{
    let mut after = yard;
    let Some(place) = entries::first_for(yard, track) else {
        after.slots[track as usize] = Slot::Free(0);
        return Released {
            answer: Ok(Release::Freed),
            yard: after,
        };
    };
    let tram = yard.waiting[place].tram;
    after.slots[track as usize] = Slot::Held(tram);
    after.count -= 1;
    after.waiting = entries::without(yard.waiting, place);
    Released {
        answer: Ok(Release::HandedTo(tram)),
        yard: after,
    }
}

// The answer, and the yard that is left.
pub fn release(
    code: DecodedCode,
    track: u32,
    yard: Yard,
    tram: u16,
    word: &[u8],
    mark: u32,
) -> Released
    ensures { result ≡ release_on (meaning code) track yard tram word.now mark }
{
    match read(code, track, yard, tram, word) {
        Err(refusal) => Released {
            answer: Err(refusal),
            yard,
        },
        Ok(reading) if is_clear(code, reading.position, mark) => hand_on(yard, track),
        Ok(_) => Released {
            answer: Ok(Release::NotClear),
            yard,
        },
    }
}

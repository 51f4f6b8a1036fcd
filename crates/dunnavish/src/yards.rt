// The calls for C on the yard, lent as 97 numbers of 16 bits, in which a call that changes it leaves it.
ghost use Rattle.std.specs.Prelude.{◌≡◌, ◌&&◌, ◌≤◌, cond, eqb, length};
ghost use Rattle.model.specs.Card.{track_of};
ghost use Rattle.model.specs.Yard.{most_waiting, taken, number_in};
ghost use Rattle.model.specs.Refusals.{status_of};
ghost use Rattle.model.specs.RequestTrack.{request_answer, request_value, request_values};
ghost use Rattle.model.specs.ReleaseTrack.{release_answer, release_value, release_values, accepted_release, accepted};
ghost use Rattle.yard_theory.specs.YardPromises.{RequestPromises, ReleasePromises};
ghost use Rattle.dunnavish.specs.Crossing.{number_count, status_for, left_by, UnchangedUnlessZero};
ghost use Rattle.dunnavish.specs.YardNumbers.{yard_count, yard_lent, yard_numbers};
ghost use Rattle.dunnavish.specs.YardNumbers.{yard_left_by, requested_left, released_left};

use super::WRONG_COUNT;
use model::{Release, Request, Slot, Waiting, Yard};
use std::array;

// How many numbers a lent yard has: first the flags of the tracks, and from these places on the holders, the count of waiting trams, their
// trams, and the tracks that they wait for.
const YARD_NUMBERS: usize = 97;

const HOLDERS: usize = 16;

const COUNT: usize = 32;

const TRAMS: usize = 33;

const WAITED_FOR: usize = 65;

// The yard that is lent.
fn yard_lent(numbers: &[u16]) -> Yard
    requires { length numbers.now ≡ yard_count }
    ensures { result ≡ yard_lent numbers.now }
{
    Yard {
        slots: array::from_fn(|track| {
            let number = numbers[HOLDERS + track];
            if numbers[track] != 0 {
                Slot::Held(number)
            } else {
                Slot::Free(number)
            }
        }),
        count: usize::from(numbers[COUNT]),
        waiting: array::from_fn(|i| Waiting {
            tram: numbers[TRAMS + i],
            track: numbers[WAITED_FOR + i],
        }),
    }
}

// A track's two numbers: the flag, and the number in the slot.
fn slot_numbers(slot: Slot) -> (u16, u16)
    ensures { (result.0 ≡ cond (taken slot) 1 0) × (result.1 ≡ number_in slot) }
{
    match slot {
        Slot::Free(number) => (0, number),
        Slot::Held(tram) => (1, tram),
    }
}

// A yard into the lent numbers.
fn put_yard(yard: Yard, numbers: &mut [u16])
    requires { (yard.count ≤ most_waiting) × (length numbers.old ≡ yard_count) }
    ensures { numbers.new ≡ yard_numbers yard }
{
    for (track, slot) in yard.slots.iter().enumerate() {
        let (flag, number) = slot_numbers(*slot);
        numbers[track] = flag;
        numbers[HOLDERS + track] = number;
    }
    numbers[COUNT] = yard.count as u16;
    for (i, entry) in yard.waiting.iter().enumerate() {
        numbers[TRAMS + i] = entry.tram;
        numbers[WAITED_FOR + i] = entry.track;
    }
}

// What a request led to, as a number.
fn request_value(request: Request) -> u32
    ensures { result ≡ request_value request }
{
    match request {
        Request::Holds => 0,
        Request::Waits => 1,
    }
}

// A tram requests a track: 0 if it holds it, 1 if it waits, into one number.
#[unsafe(no_mangle)]
pub extern "C" fn dunnavish_request(
    yard: &mut [u16],
    tram: u16,
    track: u32,
    values: &mut [u32],
) -> u32
    ensures status { result ≡ status_for yard_count yard.old (status_for number_count values.old
        (status_of (request_answer (yard_lent yard.old) tram track).answer)) }
    ensures left { values.new ≡ left_by result (request_values (request_answer (yard_lent yard.old) tram track).answer)
        values.old }
    ensures yard_left { yard.new
        ≡ yard_left_by (eqb result 0) (request_answer (yard_lent yard.old) tram track).yard yard.old }
    ensures unchanged { UnchangedUnlessZero values.old result values.new
        × UnchangedUnlessZero yard.old result yard.new }
    ensures promises { length yard.old ≡ yard_count → length values.old ≡ number_count
        → RequestPromises (yard_lent yard.old) tram track (requested_left result values.new yard.new) }
{
    if yard.len() != YARD_NUMBERS || values.len() != 1 {
        return WRONG_COUNT;
    }
    let requested = depot::request(yard_lent(yard), tram, track);
    match requested.answer {
        Err(refusal) => refusal.number,
        Ok(request) => {
            values[0] = request_value(request);
            put_yard(requested.yard, yard);
            0
        }
    }
}

// What a release led to, as a number.
fn release_value(release: Release) -> u32
    ensures { result ≡ release_value release }
{
    match release {
        Release::NotClear => 0,
        Release::Freed => 1,
        Release::HandedTo(_) => 2,
    }
}

// Whether a release is accepted.
#[tactic(auto, unfolding(model::specs::ReleaseTrack::accepted_release))]
fn is_accepted(release: Release) -> bool
    ensures { result ≡ accepted_release release }
{
    !matches!(release, Release::NotClear)
}

// A tram releases the track of a card by its word: 0 if it is not clear, 1 if the track is freed, 2 if it is handed on, into one number.
// The lent yard is written only where the release is accepted.
#[unsafe(no_mangle)]
pub extern "C" fn dunnavish_release(
    yard: &mut [u16],
    tram: u16,
    word: &[u8],
    mark: u32,
    card: &[u8],
    values: &mut [u32],
) -> u32
    ensures status { result ≡ status_for yard_count yard.old (status_for number_count values.old (status_of
        (release_answer (yard_lent yard.old) tram word.now mark card.now).answer)) }
    ensures left { values.new ≡ left_by result (release_values
        (release_answer (yard_lent yard.old) tram word.now mark card.now).answer) values.old }
    ensures yard_left { yard.new ≡ yard_left_by (eqb result 0
        && accepted (release_answer (yard_lent yard.old) tram word.now mark card.now).answer)
        (release_answer (yard_lent yard.old) tram word.now mark card.now).yard yard.old }
    ensures unchanged { UnchangedUnlessZero values.old result values.new
        × UnchangedUnlessZero yard.old result yard.new }
    ensures promises { length yard.old ≡ yard_count → length values.old ≡ number_count
        → ReleasePromises (yard_lent yard.old) tram word.now mark card.now
        (released_left (track_of card.now) result values.new yard.new) }
{
    if yard.len() != YARD_NUMBERS || values.len() != 1 {
        return WRONG_COUNT;
    }
    let released = depot::release(yard_lent(yard), tram, word, mark, card);
    match released.answer {
        Err(refusal) => refusal.number,
        Ok(release) => {
            values[0] = release_value(release);
            if is_accepted(release) {
                put_yard(released.yard, yard);
            }
            0
        }
    }
}

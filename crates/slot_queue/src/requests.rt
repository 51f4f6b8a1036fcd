// A tram requests a track: refusals 26, 20, 21 and 22; then it holds the track, or joins the end of its queue.
ghost use Rattle.std.specs.Prelude.{◌≡◌, ◌&&◌, ◌<◌, leb, Ok};
ghost use Rattle.model.specs.Refusals.{Refused, unless_refused};
ghost use Rattle.model.specs.Yard.{most_waiting, is_held, holding, joined};
ghost use Rattle.model.specs.RequestTrack.{request_refusal, request_answer};

use model::{MOST_WAITING, Refusal, Request, Requested, Slot, TRACKS, Waiting, Yard};
use yard::{soundness, tracks};

// Whether the track is held and 32 trams already wait over all tracks.
fn has_no_room(yard: Yard, track: u32) -> bool
    ensures { result ≡ is_held yard track && leb most_waiting yard.count }
{
    tracks::is_held(yard, track as usize) && MOST_WAITING <= yard.count
}

// What refuses the request, if anything does.
fn check(yard: Yard, tram: u16, track: u32) -> Result<(), Refusal>
    ensures { result ≡ unless_refused (request_refusal yard tram track) Refused (Ok tt) }
{
    if soundness::is_unsound(yard) {
        return Err(Refusal::UNSOUND_YARD);
    }
    if TRACKS <= track as usize {
        return Err(Refusal::NO_SUCH_TRACK);
    }
    if soundness::is_in_yard(yard, tram) {
        return Err(Refusal::WRONG_TRAM);
    }
    if has_no_room(yard, track) {
        return Err(Refusal::QUEUE_FULL);
    }
    Ok(())
}

// The tram holds the track.
fn hold(yard: Yard, tram: u16, track: u32) -> Yard
    requires { track < 16 }
    ensures { result ≡ holding tram track yard }
{
    let mut after = yard;
    after.slots[track as usize] = Slot::Held(tram);
    after
}

// The tram joins the end of the track's queue.
fn join(yard: Yard, tram: u16, track: u32) -> Yard
    requires { (track < 16) × (yard.count < most_waiting) }
    ensures { result ≡ joined tram track yard }
{
    let mut after = yard;
    after.waiting[yard.count] = Waiting {
        tram,
        track: track as u16,
    };
    after.count += 1;
    after
}

// The answer, and the yard that is left.
pub fn request(yard: Yard, tram: u16, track: u32) -> Requested
    ensures { result ≡ request_answer yard tram track }
{
    if let Err(refusal) = check(yard, tram, track) {
        return Requested {
            answer: Err(refusal),
            yard,
        };
    }
    if tracks::is_held(yard, track as usize) {
        return Requested {
            answer: Ok(Request::Waits),
            yard: join(yard, tram, track),
        };
    }
    Requested {
        answer: Ok(Request::Holds),
        yard: hold(yard, tram, track),
    }
}

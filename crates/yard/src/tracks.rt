// The tracks of the yard, and who holds them.
ghost use Rattle.std.specs.Prelude.{◌≡◌};
ghost use Rattle.model.specs.Yard.{is_held};
ghost use Rattle.model.specs.ReleaseTrack.{is_holder};

use model::{Slot, TRACKS, Yard};

// Whether a track is held. A track above 15 is not.
pub fn is_held(yard: Yard, track: usize) -> bool
    ensures { result ≡ is_held yard track }
{
    track < TRACKS && matches!(&yard.slots[track], Slot::Held(_))
}

// Whether a tram is the holder of a track.
pub fn is_holder(yard: Yard, tram: u16, track: usize) -> bool
    ensures { result ≡ is_holder yard tram track }
{
    track < TRACKS && yard.slots[track] == Slot::Held(tram)
}

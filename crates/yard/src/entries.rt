// The entries of the trams that wait: where a track's queue begins, and the entries without one of them.
ghost use Rattle.std.specs.Prelude.{◌≡◌, ◌==◌, ◌≤◌, ◌<◌, position};
ghost use Rattle.model.specs.Yard.{most_waiting, entries};
ghost use Rattle.yard.specs.Entries.{without_place};

use model::{MOST_WAITING, Waiting, Yard};

// The place of the first entry for a track among those that wait, if there is one.
pub fn first_for(yard: Yard, track: u32) -> Option<usize>
    requires { yard.count ≤ most_waiting }
    ensures { result ≡ position (λ w. w.track == track) (entries yard) }
{
    let entries = &yard.waiting[..yard.count];
    entries
        .iter()
        .position(|entry| u32::from(entry.track) == track)
}

// The entries without the one at a place: those after it move up, and the last place is empty.
pub fn without(waiting: [Waiting; 32], place: usize) -> [Waiting; 32]
    requires { place < most_waiting }
    ensures { result ≡ without_place place waiting }
{
    let mut left = waiting;
    left.copy_within(place + 1.., place);
    left[MOST_WAITING - 1] = Waiting { tram: 0, track: 0 };
    left
}

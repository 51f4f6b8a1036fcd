// Refusal 26, the yard handed in: a tram twice, a tram waiting for a free track, or more than 32 waiting. And whether a tram is in the yard.
ghost use Rattle.std.specs.Prelude.{◌≡◌, ◌≤◌};
ghost use Rattle.model.specs.Yard.{most_waiting, trams_of, among, any_for_free, unsound};

use super::trams;
use model::{MOST_WAITING, Slot, Waiting, Yard};

// Whether one of these waits for a free track, as one above 15 is. (The tracks are looked at in place: a call that takes the yard by value
// would copy it for each entry.)
fn any_for_free(yard: Yard, entries: &[Waiting]) -> bool
    ensures { result ≡ any_for_free yard entries.now }
{
    entries.iter().any(|entry| {
        let slot = yard.slots.get(usize::from(entry.track));
        !matches!(slot, Some(Slot::Held(_)))
    })
}

// Whether the yard is refused by 26.
pub fn is_unsound(yard: Yard) -> bool
    ensures { result ≡ unsound yard }
{
    if MOST_WAITING < yard.count {
        return true;
    }
    let entries = &yard.waiting[..yard.count];
    any_for_free(yard, entries) || trams::any_is_twice(&yard.slots, entries)
}

// Whether a tram holds or waits for any track.
pub fn is_in_yard(yard: Yard, tram: u16) -> bool
    requires { yard.count ≤ most_waiting }
    ensures { result ≡ among tram (trams_of yard) }
{
    trams::is_among(tram, &yard.slots, &yard.waiting[..yard.count])
}

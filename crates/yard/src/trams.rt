// The trams of the yard, those that hold a track and then those that wait.
ghost use Rattle.std.specs.Prelude.{◌≡◌, ◌++◌, map};
ghost use Rattle.model.specs.Yard.{holders, among, any_twice};

use model::{Slot, Waiting};

// Whether a tram holds one of these tracks or waits by one of these entries.
pub fn is_among(tram: u16, slots: &[Slot], entries: &[Waiting]) -> bool
    ensures { result ≡ among tram (holders slots.now ++ map (λ w. w.tram) entries.now) }
{
    slots.iter().any(|slot| *slot == Slot::Held(tram))
        || entries.iter().any(|entry| entry.tram == tram)
}

// Whether one of the trams that hold these tracks or wait by these entries is among those after it.
pub fn any_is_twice(slots: &[Slot], entries: &[Waiting]) -> bool
    ensures { result ≡ any_twice (holders slots.now ++ map (λ w. w.tram) entries.now) }
{
    for (track, slot) in slots.iter().enumerate() {
        if let Slot::Held(tram) = *slot {
            if is_among(tram, &slots[track + 1..], entries) {
                return true;
            }
        }
    }
    for (i, entry) in entries.iter().enumerate() {
        if is_among(entry.tram, &[], &entries[i + 1..]) {
            return true;
        }
    }
    false
}

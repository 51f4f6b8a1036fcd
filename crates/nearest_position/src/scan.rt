// The search for the nearest position through the places of two words, the first of which is flipped bit by bit into the second: positions
// are passed one after the other, the residual going up or down by one where the bit is not erased. It knows arrays and numbers alone, no
// code.
ghost use Rattle.std.specs.Prelude.{◌≡◌, ℕ, ◌+◌, ◌≤◌, ◌<◌};
ghost use Rattle.bits.specs.Sums.{difference};
ghost use Rattle.bits.specs.Places.{place};
ghost use Rattle.nearest_position.specs.Received.{received_distance};
ghost use Rattle.nearest_position.specs.Scanned.{Scanned, begins_at};
ghost use Rattle.nearest_position.specs.Passing.{difference_unerased, residual_to, Passes, Searched};

use super::received::ReceivedWord;
use super::residual;
use position::{places, splice};

// Where a search stands: the first position, the one that it has come to with its residual, and the nearest one met so far
// with its residual.
#[derive(Clone, Copy)]
pub struct Scan {
    pub low: u32,
    pub position: u32,
    pub residual: u32,
    pub best: u32,
    pub least: u32,
}

impl Scan {
    // A search that stands at its first position, whose word is `w`.
    pub fn begin(w: [u8; 40], x: ReceivedWord, low: u32) -> Scan
        ensures { result ≡ begins_at low (received_distance 320 (place w) x) }
    {
        let differing = residual::unerased_distance(w, x);
        Scan {
            low,
            position: low,
            residual: differing,
            best: low,
            least: differing,
        }
    }

    // One position on, with its residual. No block starts above 1,310,400; a search begins at most 320 steps past a start, and passes at
    // most 320 places.
    fn advance(self, residual: u32) -> Scan
        requires { self.position ≤ 1311040 }
        ensures ends { (result.low ≡ self.low) × (result.position ≡ self.position + 1) × (result.residual ≡ residual) }
        ensures scanned { (f : ℕ → ℕ) → Scanned f self → residual ≡ f (self.position + 1) → Scanned f result }
    {
        let position = self.position + 1;
        let next = Scan {
            position,
            residual,
            ..self
        };
        if residual < self.least {
            Scan {
                best: position,
                least: residual,
                ..next
            }
        } else {
            next
        }
    }
}

// The residual after a bit was flipped to `new`: one less if that is what was received, one more if not, and as it was if the bit is
// erased. A word has at most 320 bits, so a residual is at most that.
fn next_residual(residual: u32, new: u32, received: u32, unerased: u32) -> u32
    requires { (residual ≤ 320) × (new < 2) × (received < 2) × (unerased < 2) × (unerased ≡ 1 → received ≡ new → 1 ≤ residual) }
    ensures { (old : ℕ) → old < 2 → difference old new ≡ 1
        → result + difference_unerased unerased old received ≡ residual + difference_unerased unerased new received }
{
    if received == new {
        residual - unerased
    } else {
        residual + unerased
    }
}

// From place `at` to place `to`: each place in which u and v differ is one position on.
pub fn pass_places(u: [u8; 40], v: [u8; 40], x: ReceivedWord, at: u32, to: u32, s: Scan) -> Scan
    requires { (at ≤ to) × (to ≤ 320) × (s.position ≤ 1310720) × (s.residual ≡ residual_to u v x at) }
    ensures { Passes u v x at to s result }
{
    let mut state = s;
    for q in at..to {
        let j = (q / 8) as usize;
        if places::bit_of(u[j] ^ v[j], q) != 0 {
            let new = places::bit_of(v[j], q);
            let received = places::bit_of(x.bits[j], q);
            let unerased = places::bit_of(x.unerased[j], q);
            state = state.advance(next_residual(state.residual, new, received, unerased));
        }
    }
    state
}

// The search from position `low`, at which the places below `at` have been passed, to the one at which those below `to` have. The first
// residual is counted, and each step changes it by one at most.
pub fn search_places(u: [u8; 40], v: [u8; 40], x: ReceivedWord, low: u32, at: u32, to: u32) -> Scan
    requires { (at ≤ to) × (to ≤ 320) × (low ≤ 1310720) }
    ensures { Searched u v x low at to result }
{
    let w = splice::spliced(u, v, at);
    pass_places(u, v, x, at, to, Scan::begin(w, x, low))
}

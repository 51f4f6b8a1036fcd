// The search through part of a block, the way from w(i) to w(next), in which each place that differs is one position on. Which codeword is
// next is handed in, and no kind of track is known here.
ghost use Rattle.std.specs.Prelude.{◌≡◌, ℕ, ◌≤◌};
ghost use Rattle.model.specs.Decoded.{meaning};
ghost use Rattle.model.specs.Order.{last_codeword, start};
ghost use Rattle.model.specs.Words.{word_bits, word};
ghost use Rattle.nearest_position.specs.Received.{received_distance, NothingSpare};
ghost use Rattle.nearest_position.specs.Scanned.{Scanned};
ghost use Rattle.nearest_position.specs.Residuals.{position_at, ResidualsOf};

use super::received::ReceivedWord;
use super::scan;
use super::scan::Scan;
use model::DecodedCode;
use position::words;

// The search from position `low`, at which the places below `from` have been passed, to the one at which those below `to` have.
pub fn search_block(
    code: DecodedCode,
    x: ReceivedWord,
    i: u32,
    next: u32,
    low: u32,
    from: u32,
    to: u32,
) -> Scan
    requires received { NothingSpare (meaning code) x }
    requires part { (i ≤ last_codeword (meaning code)) × (low ≡ position_at (meaning code) i next from)
        × (from ≤ to) × (to ≤ word_bits (meaning code)) }
    ensures ends { (result.low ≡ low) × (result.position ≡ position_at (meaning code) i next to) }
    ensures scanned { (f : ℕ → ℕ) → ResidualsOf (meaning code) x i next f → Scanned f result }
{
    let u = words::word_of(code, i);
    let v = words::word_of(code, next);
    scan::search_places(u, v, x, low, from, to)
}

// The search on from the block's start, at which it stands, through the places of separator 1.
pub fn search_after_start(code: DecodedCode, x: ReceivedWord, i: u32, next: u32, s: Scan) -> Scan
    requires received { NothingSpare (meaning code) x × (i ≤ last_codeword (meaning code)) }
    requires at_start { (s.position ≡ start (meaning code) i)
        × (s.residual ≡ received_distance (word_bits (meaning code)) (word (meaning code) i) x) }
    ensures ends { (result.low ≡ s.low) × (result.position ≡ position_at (meaning code) i next code.distance) }
    ensures scanned { (f : ℕ → ℕ) → ResidualsOf (meaning code) x i next f → Scanned f s → Scanned f result }
{
    let u = words::word_of(code, i);
    let v = words::word_of(code, next);
    scan::pass_places(u, v, x, 0, code.distance, s)
}

// The nearest of the positions that a rule allows on a track with two ends, over the unerased bits: whether there is a block for the
// rule to go by, and the search through the part of it that the rule names.
ghost use Rattle.std.specs.Prelude.{false, ◌≡◌, ◌-◌, ◌≤◌, ◌<◌};
ghost use Rattle.model.specs.Decoded.{meaning};
ghost use Rattle.model.specs.Order.{last_codeword, start};
ghost use Rattle.model.specs.Reading.{range₁, range₂, range₃, two_ends};
ghost use Rattle.nearest_position.specs.Received.{ReceivedIn};
ghost use Rattle.nearest_position.specs.Scanned.{Scanned, SearchedRange};
ghost use Rattle.nearest_position.specs.Residuals.{residual_in};
ghost use Rattle.nearest_position.specs.RuleNumbers.{rule_number};

use super::block;
use super::received::ReceivedWord;
use super::rule::Rule;
use super::scan::Scan;
use model::DecodedCode;
use position::layout::Layout;
use position::{blocks, words};

// Whether the rule has no block to go by: there is none before the first codeword, and none after the last.
#[tactic(auto, unfolding(model::specs::Reading::two_ends))]
pub fn no_block(code: DecodedCode, rule: Rule, p: u32) -> bool
    ensures { result ≡ (two_ends (meaning code)).no_block (rule_number rule) p }
{
    match rule {
        Rule::First => p == 0,
        Rule::Second => p == blocks::last_codeword(code),
        Rule::Third => false,
    }
}

// Rule 1, chunk 1 reading p: the search from r(p-1) + D + A(p-1), where separator 2 begins to change, to r(p).
fn nearest_before(code: DecodedCode, at: Layout, x: ReceivedWord, p: u32) -> Scan
    requires { ReceivedIn (meaning code) at x × (1 ≤ p) × (p ≤ last_codeword (meaning code)) }
    ensures { SearchedRange (residual_in (meaning code) x) (range₁ (meaning code) p) result }
{
    let i = p - 1;
    let start = blocks::start_of_block(code, i);
    let low = start + code.distance + blocks::changed_weight(code, i);
    block::search_block(code, x, i, p, low, at.separator2, at.bits)
}

// Rule 2, chunk 2 reading p: the search from r(p) to r(p) + 2D + A(p), where separator 2 has changed.
fn nearest_after(code: DecodedCode, at: Layout, x: ReceivedWord, p: u32) -> Scan
    requires { ReceivedIn (meaning code) at x × (p < last_codeword (meaning code)) }
    ensures { SearchedRange (residual_in (meaning code) x) (range₂ (meaning code) p) result }
{
    let low = blocks::start_of_block(code, p);
    block::search_block(code, x, p, p + 1, low, 0, at.chunk2)
}

// The search from D steps before r(p), or from 0, to r(p): separator 3 of the block before changes.
fn search_before_start(code: DecodedCode, at: Layout, x: ReceivedWord, p: u32) -> Scan
    requires { ReceivedIn (meaning code) at x × (p ≤ last_codeword (meaning code)) }
    ensures { (result.low ≡ start (meaning code) p - code.distance) × (result.position ≡ start (meaning code) p)
        × Scanned (residual_in (meaning code) x) result }
{
    if p == 0 {
        return Scan::begin(words::word_of(code, 0), x, 0);
    }
    let low = blocks::start_of_block(code, p) - code.distance;
    block::search_block(code, x, p - 1, p, low, at.separator3, at.bits)
}

// Rule 3, both chunks reading p: the search from r(p) - D to r(p) + D, cut to the track.
fn nearest_around(code: DecodedCode, at: Layout, x: ReceivedWord, p: u32) -> Scan
    requires { ReceivedIn (meaning code) at x × (p ≤ last_codeword (meaning code)) }
    ensures { SearchedRange (residual_in (meaning code) x) (range₃ (meaning code) p) result }
{
    let before = search_before_start(code, at, x, p);
    if p == blocks::last_codeword(code) {
        return before;
    }
    block::search_after_start(code, x, p, p + 1, before)
}

// The search through the positions that the rule allows where its chunks read p, and there is a block for it.
#[tactic(auto, unfolding(model::specs::Reading::two_ends))]
pub fn nearest_by(code: DecodedCode, at: Layout, x: ReceivedWord, rule: Rule, p: u32) -> Scan
    requires received { ReceivedIn (meaning code) at x × (p ≤ last_codeword (meaning code)) }
    requires has_block { (two_ends (meaning code)).no_block (rule_number rule) p ≡ false }
    ensures { SearchedRange (residual_in (meaning code) x) ((two_ends (meaning code)).range (rule_number rule) p) result }
{
    match rule {
        Rule::First => nearest_before(code, at, x, p),
        Rule::Second => nearest_after(code, at, x, p),
        Rule::Third => nearest_around(code, at, x, p),
    }
}

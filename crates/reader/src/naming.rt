// What the three separators of a word name: a rule, and with it the rule's separator, the one that must be equal to the parity of the
// codeword's number p. What they read comes from bits or from levels.
ghost use Rattle.std.specs.Prelude.{◌≡◌, ◌+◌, ◌≤◌};
ghost use Rattle.bits.specs.Sums.{from_place};
ghost use Rattle.bits.specs.Places.{place};
ghost use Rattle.model.specs.Card.{Code};
ghost use Rattle.model.specs.Reading.{majority, seen, rule_of, separator_of, parity_differs};
ghost use Rattle.position.specs.LayoutOf.{LayoutOf};
ghost use Rattle.nearest_position.specs.RuleNumbers.{rule_number, number_or_0};
ghost use Rattle.reader.specs.Naming.{Names, NamesOf};

use nearest_position::rule::Rule;
use position::layout::Layout;
use position::places;

// A rule, and what the rule's separator reads.
#[derive(Clone, Copy)]
pub struct NamedRule {
    pub rule: Rule,
    pub separator: u32,
}

// The rule that three separators name: rule 1 for b b c, 2 for b c c, 3 for b b b, and none for b c b.
#[tactic(auto, unfolding(model::specs::Reading::rule_of))]
fn rule_of(s1: u32, s2: u32, s3: u32) -> Option<Rule>
    ensures { number_or_0 result ≡ rule_of s1 s2 s3 }
{
    match (s1 == s2, s2 == s3) {
        (true, false) => Some(Rule::First),
        (false, true) => Some(Rule::Second),
        (true, true) => Some(Rule::Third),
        (false, false) => None,
    }
}

// What the rule's separator reads: separator 3 by rule 2, separator 1 by any other.
#[tactic(auto, unfolding(model::specs::Reading::separator_of))]
fn separator_of(rule: Rule, s1: u32, s3: u32) -> u32
    ensures { result ≡ separator_of (rule_number rule) s1 s3 }
{
    match rule {
        Rule::Second => s3,
        Rule::First | Rule::Third => s1,
    }
}

// What three separators name, by what they read; where they name no rule, what separator 1 reads.
#[tactic(auto, unfolding(model::specs::Reading::separator_of))]
pub fn named_by(s1: u32, s2: u32, s3: u32) -> Result<NamedRule, u32>
    ensures { Names s1 s2 s3 result }
{
    let rule = rule_of(s1, s2, s3).ok_or(s1)?;
    Ok(NamedRule {
        rule,
        separator: separator_of(rule, s1, s3),
    })
}

// What the separator of `distance` bits from place `at` on reads: 1 if more than half its bits are 1, else 0.
#[tactic(auto, unfolding(model::specs::Reading::majority), using(std::proofs::lemmas::Bool::Decides::nat_tests))]
fn separator_at(w: [u8; 40], at: u32, distance: u32) -> u32
    requires { (at + distance ≤ 320) × (distance ≤ 64) }
    ensures { result ≡ majority distance (from_place at (place w)) }
{
    u32::from(distance < 2 * places::ones_from(w, at, distance))
}

// What the separators of a plain word name, by its bits. It takes D and the layout of any code, also of one that no sound card gives.
pub fn named_rule(distance: u32, at: Layout, bits: [u8; 40]) -> Result<NamedRule, u32>
    requires { (C : Code) × (distance ≡ C.D) × LayoutOf C at }
    ensures { (C : Code) → distance ≡ C.D → LayoutOf C at → NamesOf (seen C (place bits)) result }
{
    let s1 = separator_at(bits, 0, distance);
    let s2 = separator_at(bits, at.separator2, distance);
    let s3 = separator_at(bits, at.separator3, distance);
    named_by(s1, s2, s3)
}

// Whether what a separator reads differs from the parity of a codeword's number.
#[tactic(auto, unfolding(model::specs::Reading::parity_differs))]
pub fn contradicts(separator: u32, number: u32) -> bool
    ensures { result ≡ parity_differs separator number }
{
    separator != number % 2
}

// The layout of a word: where its chunks start, and how many bits and bytes it has.
ghost use Rattle.std.specs.Prelude.{◌≡◌, ◌≤◌};
ghost use Rattle.model.specs.Words.{word_length};
ghost use Rattle.model.specs.Card.{Code};
ghost use Rattle.model.specs.Decoded.{meaning};
ghost use Rattle.code_theory.specs.Promise.{Sound};
ghost use Rattle.position.specs.LayoutOf.{LayoutOf};

use model::DecodedCode;

// At which place each chunk of a word starts, separator 1 at place 0, and how many bits the word has.
#[derive(Clone, Copy)]
pub struct Layout {
    pub chunk1: u32,
    pub separator2: u32,
    pub chunk2: u32,
    pub separator3: u32,
    pub bits: u32,
}

// The layout of a code's words.
pub fn layout_of(code: DecodedCode) -> Layout
    ensures { LayoutOf (meaning code) result }
{
    let n = code.n;
    let d = code.distance;
    let separator2 = d + n;
    let chunk2 = separator2 + d;
    let separator3 = chunk2 + n;
    Layout {
        chunk1: d,
        separator2,
        chunk2,
        separator3,
        bits: separator3 + d,
    }
}

// The bytes of a word with this layout: 1 to 40.
pub fn bytes_in(at: Layout) -> usize
    requires { (C : Code) × Sound C × LayoutOf C at }
    ensures { ((C : Code) → LayoutOf C at → result ≡ word_length C) × (1 ≤ result) × (result ≤ 40) }
{
    ((at.bits + 7) / 8) as usize
}

// The bytes of a code's words.
pub fn word_length(code: DecodedCode) -> usize
    ensures { (result ≡ word_length (meaning code)) × (1 ≤ result) × (result ≤ 40) }
{
    bytes_in(layout_of(code))
}

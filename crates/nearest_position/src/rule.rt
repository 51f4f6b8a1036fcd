// The rules by which a word is read. The separators of a word name one, and it names the code chunks that are read.

// A rule, by its number: rule 1 goes by chunk 1, rule 2 by chunk 2, and rule 3 by both.
#[derive(Clone, Copy, Debug, PartialEq, Eq)]
pub enum Rule {
    First = 1,
    Second = 2,
    Third = 3,
}

// The public calls. Each answers every input: a card's bytes may be any list of bytes, levels any list of floats, and a number any number
// of its type. A call that is given a card checks it itself; one that isn't, such as the one that makes a card, checks none. What an answer
// means is said by the definitions that the contracts name: its status is the refusal's number in documents 01 and 02, or 0 where the
// call is served; its values are those named, or none where it is refused. The call that makes a card answers the card's bytes instead; a
// search that says yes or no of each tram answers that; beside a reading of levels stands the strength; and beside the answer of a call on
// the yard, served or refused, the yard that it leaves. What is promised besides, where no clause of its own says it, is the clause
// `promises`, a record with a field for each promise. Module `cards` is open to a program that has decoded its card.
#![tactic(auto)]

pub mod cards;
mod codes;
mod level_words;
mod marks;
mod words;
mod yards;

pub use cards::check_card;
pub use codes::{make_card, vote_chunk};
pub use level_words::read_levels;
pub use marks::{nearest_tram, trams_crossing, trams_within};
pub use words::{block_start, millimetres, read_word, write_word};
pub use yards::{release, request};

// The library's calls for programs in C, Rust and other languages: numbers and slices alone, no state, no `requires`. Each returns a
// status, 0 or the refusal's number, and puts the values of its answer into numbers that the caller lends, signed ones for a distance and
// floats for a strength, or a made card's bytes, or a byte for each tram, into lent bytes. Lent numbers that are not exactly as many as the
// answer has values, a lent card that has not 512 bytes, or unequal counts of what is lent for trams are answered 100, before anything else
// is looked at. Whenever the status is not 0, nothing that was lent has changed. Where the right count is lent, status and numbers stand for
// an answer of the library's (specs/Decoding.antt), from which both can be computed again (specs/LosslessDecoding.antt). The clause
// `promises` says of that answer what the library's own call promises; of a made card `made` does, and a block's start is promised to be
// the answer and no more. include/dunnavish.h says how they are called from C.
#![tactic(auto)]

mod cards;
mod codes;
mod level_words;
mod marks;
mod words;
mod yards;

pub use cards::dunnavish_check_card;
pub use codes::{dunnavish_make_card, dunnavish_vote_chunk};
pub use level_words::dunnavish_read_levels;
pub use marks::{dunnavish_nearest_tram, dunnavish_trams_crossing, dunnavish_trams_within};
pub use words::{
    dunnavish_block_start, dunnavish_millimetres, dunnavish_read_word, dunnavish_write_word,
};
pub use yards::{dunnavish_release, dunnavish_request};

// The status of a call whose lent numbers, or bytes, are too few or too many.
pub const WRONG_COUNT: u32 = 100;

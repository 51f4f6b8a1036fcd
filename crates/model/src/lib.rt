// What a code chunk reads as, what a card decodes to, and what the public calls answer. The definitions of specs/ give these
// values their meaning. A call answers `Ok` with what it serves, or `Err` with its refusal and nothing else; a call on the yard hands
// back the yard beside that, as it was where the call is refused.
#![tactic(auto)]

ghost use Rattle.std.specs.Prelude.{get_or};
ghost use Rattle.model.specs.SoundCode.{Sound};

// Why a call is refused: a row of the tables in documents 01 and 02, by its number there, which a call for C returns as its status. It is
// no enum: of every number, also one that no row has, the theorem `LosslessDecoding` of crate dunnavish says that it is kept as a status.
#[derive(Clone, Copy, Debug, PartialEq, Eq)]
pub struct Refusal {
    pub number: u32,
}

impl Refusal {
    // The card has not 512 bytes.
    pub const CARD_LENGTH: Refusal = Refusal { number: 1 };

    // The card carries another check than it should.
    pub const CARD_CHECK: Refusal = Refusal { number: 2 };

    // n or k is outside the card's limits.
    pub const CODE_LIMITS: Refusal = Refusal { number: 3 };

    // A bit is set that a card leaves zero.
    pub const MISPLACED_BIT: Refusal = Refusal { number: 4 };

    // A nonempty set of the card's rows sums to zero.
    pub const DEPENDENT_ROWS: Refusal = Refusal { number: 5 };

    // The word has not exactly the bytes of a word.
    pub const WORD_LENGTH: Refusal = Refusal { number: 6 };

    // The position is above the last, or the block above 2^k - 1.
    pub const PAST_THE_END: Refusal = Refusal { number: 7 };

    // A bit past the word's bits, or past the chunk's, is set.
    pub const SPARE_BIT_SET: Refusal = Refusal { number: 8 };

    // The separators name no rule.
    pub const NO_RULE: Refusal = Refusal { number: 9 };

    // A chunk has no codeword within the radius.
    pub const UNREADABLE_CHUNK: Refusal = Refusal { number: 10 };

    // Rule 3 names two chunks that read differently.
    pub const CHUNKS_DIFFER: Refusal = Refusal { number: 11 };

    // There is no block before the first codeword, and none after the last.
    pub const NO_BLOCK: Refusal = Refusal { number: 12 };

    // The order or the number of variables of a Reed-Muller code is outside the limits.
    pub const ORDER_LIMITS: Refusal = Refusal { number: 13 };

    // The card's offset is outside -20,000 to 20,000.
    pub const OFFSET_LIMITS: Refusal = Refusal { number: 14 };

    // There are not exactly as many levels as a word has bits.
    pub const LEVEL_COUNT: Refusal = Refusal { number: 15 };

    // A level is not a number, infinite, or above 1,000,000 in magnitude.
    pub const LEVEL_LIMITS: Refusal = Refusal { number: 16 };

    // The rule's separator differs from the parity of the codeword's number.
    pub const PARITY_DIFFERS: Refusal = Refusal { number: 17 };

    // There are more than 64 trams.
    pub const TOO_MANY_TRAMS: Refusal = Refusal { number: 18 };

    // An end of a stretch or a mark is above the last position, or a low end above its high end.
    pub const MISPLACED_STRETCH: Refusal = Refusal { number: 19 };

    // The track is above 15.
    pub const NO_SUCH_TRACK: Refusal = Refusal { number: 20 };

    // A tram requests though it holds or waits for a track, or releases a track that it does not hold.
    pub const WRONG_TRAM: Refusal = Refusal { number: 21 };

    // The track is held while 32 trams wait.
    pub const QUEUE_FULL: Refusal = Refusal { number: 22 };

    // The yard has a tram twice, a tram waiting for a free track, or more than 32 waiting.
    pub const UNSOUND_YARD: Refusal = Refusal { number: 26 };
}

// The codeword that a code chunk reads as: the number p of the codeword c(p) within the radius, and in how many places the two differ. Of
// a chunk with erased bits, the codeword for which 2 × wrong + erased is below D, and how many places are wrong. A chunk may read as none.
#[derive(Clone, Copy)]
pub struct ReadChunk {
    pub number: u32,
    pub differing: u32,
}

// A card's code as numbers, by value: n, k, D and the twelve rows. specs/Decoded.antt says which code it means; it is a code that a sound
// card gives (specs/SoundCode.antt).
#[derive(Clone, Copy)]
pub struct DecodedCode {
    pub n: u32,
    pub k: u32,
    pub distance: u32,
    pub rows: [u64; 12],
    pub ghost sound: { Sound (record { n = n; k = k; row = λ z. get_or rows z 0; D = distance }) },
}

// A sound card decoded: its track number, its offset in millimetres and its code.
#[derive(Clone, Copy)]
pub struct DecodedCard {
    pub track: u32,
    pub offset: i32,
    pub code: DecodedCode,
}

// What a sound card is answered with: n, k, track, D, t, d and the last position.
#[derive(Clone, Copy)]
pub struct CardSummary {
    pub n: u32,
    pub k: u32,
    pub track: u32,
    pub distance: u32,
    pub radius: u32,
    pub bits: u32,
    pub last: u32,
}

// What a word that is read is answered with: the position, its residual, the rule, and how many bits either code chunk needed: the unerased
// ones in which it and the codeword that it reads as differ. A chunk that the word's rule does not name was not read, and needed none.
#[derive(Clone, Copy)]
pub struct Reading {
    pub position: u32,
    pub residual: u32,

    // No enum: of every number here, not of 1, 2 and 3 alone, the theorem `LosslessDecoding` of crate dunnavish says that it is kept.
    pub rule: u32,
    pub chunk1: Option<u32>,
    pub chunk2: Option<u32>,
}

// What an arriving level is taken as: an erased bit, or a level. Document 01 names the form: an enum with Level(f32) and Lost.
#[derive(Clone, Copy)]
pub enum ReceivedLevel {
    Lost,
    Level(f32),
}

// A receiver's strength over the levels of a word: the sum of the magnitudes, and the greatest of them.
#[derive(Clone, Copy)]
pub struct Strength {
    pub sum: f32,
    pub greatest: f32,
}

// What a word of levels that is read is answered with: what a plain word is, and the strength.
#[derive(Clone, Copy)]
pub struct LevelsReading {
    pub reading: Reading,
    pub strength: Strength,
}

// A tram's stretch of the track: the closed interval from a low to a high position. The trams of a track are a slice of stretches.
#[derive(Clone, Copy)]
pub struct Stretch {
    pub low: u32,
    pub high: u32,
}

// How many tracks the yard has, and how many trams wait at most, over all tracks.
pub const TRACKS: usize = 16;

pub const MOST_WAITING: usize = 32;

// A track of the yard: free, or held by a tram. All 65,536 numbers are trams, so none stands for nobody.
// Not an Option: the number with a free track means nothing, but `LosslessYards.numbers` has the calls for C leave it as it was lent.
#[derive(Clone, Copy, Debug, PartialEq, Eq)]
pub enum Slot {
    Free(u16),
    Held(u16),
}

// A tram that waits, and for which track.
#[derive(Clone, Copy)]
pub struct Waiting {
    pub tram: u16,
    pub track: u16,
}

// The yard: its tracks; and how many trams wait, over all tracks, with their entries in the order in which they came. What the entries
// past the count hold means nothing. The library has no heap, so the entries lie in a fixed array with the count beside it.
#[derive(Clone, Copy)]
pub struct Yard {
    pub slots: [Slot; TRACKS],
    pub count: usize,
    pub waiting: [Waiting; MOST_WAITING],
}

// What a request for a track that is served leads to: the tram holds it, or waits for it.
#[derive(Clone, Copy)]
pub enum Request {
    Holds,
    Waits,
}

// A request's answer, and the yard that it leaves.
#[derive(Clone, Copy)]
pub struct Requested {
    pub answer: Result<Request, Refusal>,
    pub yard: Yard,
}

// What a release of a track that is served leads to: the tram is not clear of the mark, and nothing changes; or the release is accepted, and
// the track is free or handed to this tram.
#[derive(Clone, Copy)]
pub enum Release {
    NotClear,
    Freed,
    HandedTo(u16),
}

// A release's answer, and the yard that it leaves.
#[derive(Clone, Copy)]
pub struct Released {
    pub answer: Result<Release, Refusal>,
    pub yard: Yard,
}

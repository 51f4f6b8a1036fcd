// A received word, as the reader hands it on: its bits and its unerased places. Of a plain word these are all places, and of one that comes
// as levels those whose level is not zero.
ghost use Rattle.std.specs.Prelude.{◌≤◌, length};
ghost use Rattle.nearest_position.specs.Received.{PlainWord};

// The bits, with zeros after them, and a 1 for each unerased place.
#[derive(Clone, Copy)]
pub struct ReceivedWord {
    pub bits: [u8; 40],
    pub unerased: [u8; 40],
}

impl ReceivedWord {
    // A plain word: its bytes, with zeros after them, and nothing erased.
    pub fn plain(word: &[u8]) -> ReceivedWord
        requires { length word.now ≤ 40 }
        ensures { PlainWord word.now result }
    {
        let mut bits = [0; 40];
        bits[..word.len()].copy_from_slice(word);
        ReceivedWord {
            bits,
            unerased: [255; 40],
        }
    }
}

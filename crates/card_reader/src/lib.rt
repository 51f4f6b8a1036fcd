// A card is read: its bytes are checked and decoded, and its code's least distance is computed.
#![tactic(auto)]

pub mod decode;
pub mod least_weight;

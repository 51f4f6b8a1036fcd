// The bytes of a card: its fields, its check, what it leaves zero, and its offset.
#![tactic(auto)]

pub mod checksum;
pub mod fields;
pub mod offset;
pub mod zeros;

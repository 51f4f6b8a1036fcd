// No code: what is known of a sound card's code (specs/), and the laws of card, code, order and starts (proofs/).
#![tactic(auto)]

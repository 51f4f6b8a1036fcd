// No code: the demands (specs/), and the laws of words, blocks and reading with the demands as theorems (proofs/).
#![tactic(auto)]

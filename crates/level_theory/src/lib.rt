// No code: the laws of levels (proofs/), and their premises and what a read of levels promises (specs/).
#![tactic(auto)]

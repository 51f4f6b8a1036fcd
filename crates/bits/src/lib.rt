// No code: definitions of bits, bytes and searches in specs/, and their laws in proofs/.
#![tactic(auto)]

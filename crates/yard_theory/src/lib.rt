// Laws of the yard, what is promised of its two calls, and the queue's theorem over runs of them: specs/ and proofs/. No code.
#![tactic(auto)]

// Laws of the trams at a mark and what is promised of the searches among them: specs/ and proofs/. No code.
#![tactic(auto)]

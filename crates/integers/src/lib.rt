// The arithmetic of integers that the proofs of the other crates cite: see specs/ and proofs/. It has no code of its own.
#![tactic(auto)]

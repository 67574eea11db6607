// The mathematics of the nearest difference of two bodies, for the proofs of other crates: see specs/ and proofs/. It has no code of its own.
#![tactic(auto)]

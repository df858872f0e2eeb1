// A heap of 64 cells as bytes: definitions and laws alone, in specs/ and proofs/.
#![tactic(auto)]

// The usual forbidden shapes, ready cut, and what they mean: definitions and theorems alone, in specs/ and proofs/.
#![tactic(auto)]

// Facts about the values of cells, and what follows from them: definitions and theorems alone, in specs/ and proofs/.
#![tactic(auto)]

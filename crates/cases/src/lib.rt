// The twelve cases that document 01 marks as theorems of the definitions: in specs/ and proofs/.
#![tactic(auto)]

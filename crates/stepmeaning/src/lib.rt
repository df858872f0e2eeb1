// What the ready shapes mean in the heaps of the stepper and for the block list: theorems alone, in proofs/.
#![tactic(auto)]

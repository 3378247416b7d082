// What a game says of the policy that is derived from its matrix: proofs/Theorems.antt. It has no function.
#![tactic(auto)]

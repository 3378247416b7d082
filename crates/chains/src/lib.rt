// Chains: the definitions and theorems of this crate have no code of their own (the paper, "Chains").
#![tactic(auto)]

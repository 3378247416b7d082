// The paper's checked examples: proofs/Starred.antt has those that are proved, as one table. proofs/Profiles.antt has the third
// demand for policies read from profiles.
#![tactic(auto)]

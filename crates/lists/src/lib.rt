// Lists and tests: the definitions and laws of this crate have no code of their own.
#![tactic(auto)]

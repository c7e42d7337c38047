// The first places of an array, and bytes put into a lent buffer. This crate has specs and proofs, and no code.
#![tactic(auto)]

// Lists of numbers: their order, members each once, sums and counts. This crate has specs and
// proofs, and no code.
#![tactic(auto)]

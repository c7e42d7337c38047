// The theory of least paths stands in specs/ and proofs/: this crate has no code.
#![tactic(auto)]

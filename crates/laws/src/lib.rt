//! No code: the laws that the other crates' proofs cite.
#![tactic(auto)]

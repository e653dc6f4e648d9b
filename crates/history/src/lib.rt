//! No code: the statements over lists of calls, and their proofs.
#![tactic(auto)]

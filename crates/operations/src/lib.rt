//! No code: the checks and the outcome of each operation on a board, and their laws.
#![tactic(auto)]

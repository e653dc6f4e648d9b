//! No code: arithmetic of floats on whole numbers.
#![tactic(auto)]

//! No code: what readings do to the sums, the exact sums, and their laws.
#![tactic(auto)]

//! No code: the two kinds of entries, and their laws.
#![tactic(auto)]

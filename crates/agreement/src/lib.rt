//! No code: a frame in one call, a board in lent memory and a list of calls agree.
#![tactic(auto)]

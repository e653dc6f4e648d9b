//! No code: the word of a pixel or a square, the frame of the sums, and what a word reads as.
#![tactic(auto)]

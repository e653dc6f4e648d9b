//! The codes of a word: how far the ordinary ones go, and which ones are flags.
#![tactic(auto)]

/// A word below it is ordinary, and it and n more means saturated at sample n.
pub const ORDINARY_END: u16 = 32752;

/// Saturated at sample 1.
pub const FIRST_SATURATED: u16 = 32753;

/// Saturated at sample 9.
pub const LAST_SATURATED: u16 = 32761;

/// Negative.
pub const NEGATIVE_CODE: u16 = 32767;

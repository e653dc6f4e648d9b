//! A frame of words, and a place in it.
#![tactic(auto)]

/// The words stand row by row. Nothing has been checked of them.
#[derive(Clone, Copy, Debug, PartialEq, Eq)]
pub struct Frame<'a> {
    pub words: &'a [u16],
    pub width: usize,
    pub height: usize,
}

/// Both are counted from 0.
#[derive(Clone, Copy, Debug, PartialEq, Eq)]
pub struct Place {
    pub row: usize,
    pub column: usize,
}

//! Redraws and differences of whole screens, as lists of forms. A form is one escape sequence, or the text of one cell.
//!
//! This crate has no code. Its definitions give the forms that take a terminal from one picture to another; they depend
//! on the two pictures only. Its laws say what a terminal shows after these forms, and which cells a difference
//! touches. They are the contracts of functions that do nothing.
#![tactic(auto)]

pub mod laws;

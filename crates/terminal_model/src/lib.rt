//! The picture of a terminal, and what each form does to it. A form is one escape sequence, or the text of one cell.
//!
//! This crate has no code. Its definitions give what a plain terminal shows as functions of the position, and what each
//! form changes. Its laws are the contracts of functions that do nothing.
#![tactic(auto)]

pub mod laws;

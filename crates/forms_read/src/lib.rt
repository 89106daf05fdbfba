//! The forms that a screen's writers send (texts and escape sequences): how a parser reads them, and which calls of a
//! handler they cause.
//!
//! This crate has no code. Its definitions say which events a parser makes of each form's bytes, and which calls a
//! processor makes for each form. Its laws are the contracts of functions that do nothing.
#![tactic(auto)]

pub mod laws;

//! A `vt100` screen's state and a `termview` view show the same after the same forms (texts and escape sequences).
//!
//! This crate has no code, and no other crate depends on it. Its definitions say which terminal a state shows, and
//! which states are plain: those with the main screen, no scroll region, no origin mode and no scrollback in view. Its
//! laws are the contracts of functions that do nothing. They say that forms have their effect on a plain state, and
//! that a state and a view show the same after the same forms. Each of the two reads the bytes in its own way.
#![tactic(auto)]

pub mod laws;

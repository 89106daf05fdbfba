//! The state of a terminal, and what a program's bytes make of it.
//!
//! This crate has no code. Its definitions give the state of a terminal, and the state after each event of a parser and
//! each resize. Its laws are the contracts of functions that do nothing, and say what is true of every state that is
//! reached so.
#![tactic(auto)]

pub mod holds;
pub mod laws;

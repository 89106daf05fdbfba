//! What a far terminal shows of what a hub has sent it.
//!
//! This crate has no code. Its definitions say which histories a hub and its clients can have: calls and their replies.
//! They also say what a far terminal should show, judged only by such a history. Its laws are the contracts of
//! functions that do nothing. They say that a far terminal (a view of `termview`) shows exactly that.
#![tactic(auto)]

pub mod laws;

//! What a far terminal shows of the bytes that C was handed.
//!
//! This crate has no code. Its law is about a hub and a view that C holds in words. It speaks of the calls by the
//! definitions that the contracts of these calls use.
#![tactic(auto)]

pub mod laws;

//! The calls of a terminal's input: their values (colours, attributes, modes, character sets, cursors, keyboard modes
//! and hyperlinks), and the trait `Handler` that receives them.
#![tactic(auto)]

pub mod C0;
pub mod attr;
pub mod call;
pub mod charset;
pub mod clear;
pub mod color;
pub mod cursor;
pub mod cursor_icon;
pub mod handler;
pub mod hex;
pub mod hyperlink;
pub mod keyboard;
pub mod mode;
pub mod rgb;
pub mod scp;

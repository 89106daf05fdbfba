//! What the command lines of this repository's programs have in common: arguments, numbers among them, the whole input,
//! exit statuses, and a line on the error output.
#![tactic(auto)]

mod args;
mod input;
mod numbers;
mod reporting;
mod running;

pub use args::{lend, with_words, words_of};
pub use input::{InputError, read_all};
pub use numbers::{parse_count, parse_size};
pub use reporting::{FAULT, SUCCESS, USAGE, report};
pub use running::run;

//! How many bytes are looked at in one go. Each comment names the lines of `./speed` that show the number's worth.

/// How many bytes of a text are looked at one by one first, since many texts end within them. The lines are coloured
/// and motion, at `events`.
pub const SHORT_LEN: usize = 8;

/// How many bytes are compared at once after them. The line is ascii, at `events`.
pub const BLOCK_LEN: usize = 16;

//! From how many bytes on another way is taken. Each comment names the lines of `./speed` that show the number's worth.

/// If this many bytes are left, inline text and the sequence after it are read without a call. The lines are coloured
/// and motion, at `events`.
pub(crate) const TURN_LEN: usize = 64;

/// How many bytes are tested at once for controls. The line is ascii, at `events`.
pub(crate) const BLOCK_LEN: usize = 16;

/// Text up to a control is read at once where it is longer. Otherwise it is read up to its first malformed sequence,
/// and the control is looked for once more. The line is tree of `./speed --texts`, at `screen`.
pub(crate) const LINE_LEN: usize = 48;

/// From how many bytes on a text is asked first whether it is ASCII alone, which needs no decoding. No line goes this
/// way: it serves performers without a `print_str` of their own.
pub(crate) const LONG_TEXT: usize = 8;

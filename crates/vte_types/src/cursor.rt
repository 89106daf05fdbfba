//! The cursor's look.

/// The cursor's shape.
#[derive(Clone, Copy, PartialEq, Eq, Debug)]
pub enum CursorShape {
    /// DECSCUSR 1 and 2, OSC 50 0: a block, as `▒`.
    Block,
    /// DECSCUSR 3 and 4, OSC 50 2: a line under the character, as `_`.
    Underline,
    /// DECSCUSR 5 and 6, OSC 50 1: a line left of the character, as `⎸`.
    Beam,
    /// The outline of a block, as `☐`. No sequence names it.
    HollowBlock,
    /// None is drawn. No sequence names it.
    Hidden,
}

/// The cursor's shape, and whether it blinks (DECSCUSR).
#[derive(Clone, Copy, PartialEq, Eq, Debug)]
pub struct CursorStyle {
    /// The shape.
    pub shape: CursorShape,
    /// Whether the cursor blinks.
    pub blinking: bool,
}

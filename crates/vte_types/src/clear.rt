//! Which parts of a line, of the screen and of the tab stops are cleared.

/// The part of a line that is cleared (EL).
#[derive(Clone, Copy, PartialEq, Eq, Debug)]
pub enum LineClearMode {
    /// EL 0: from the cursor to the line's end.
    Right,
    /// EL 1: from the line's beginning to the cursor.
    Left,
    /// EL 2: the whole line.
    All,
}

/// The part of the screen that is cleared (ED).
#[derive(Clone, Copy, PartialEq, Eq, Debug)]
pub enum ClearMode {
    /// ED 0: from the cursor to the screen's end.
    Below,
    /// ED 1: from the screen's beginning to the cursor.
    Above,
    /// ED 2: the whole screen.
    All,
    /// ED 3, xterm's: the lines that have scrolled off the top.
    Saved,
}

/// The tab stops that are cleared (TBC).
#[derive(Clone, Copy, PartialEq, Eq, Debug)]
pub enum TabulationClearMode {
    /// TBC 0: the one at the cursor's column.
    Current,
    /// TBC 3: all tab stops.
    All,
}

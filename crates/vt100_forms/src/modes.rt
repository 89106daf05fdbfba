//! The modes of a terminal that programs choose: which mouse events are reported, in which encoding, and how the cursor
//! looks.

/// Which mouse events the terminal reports to the program (xterm's mouse tracking).
#[derive(Clone, Copy, Debug, Default, Eq, PartialEq)]
pub enum MouseProtocolMode {
    /// No events.
    #[default]
    None,
    /// A button going down (xterm's mode 9).
    Press,
    /// A button going down or up (mode 1000).
    PressRelease,
    /// A button going down or up, and the mouse moving while one is down (mode 1002).
    ButtonMotion,
    /// A button going down or up, and the mouse moving (mode 1003).
    AnyMotion,
}

/// How a mouse report is written.
#[derive(Clone, Copy, Debug, Default, Eq, PartialEq)]
pub enum MouseProtocolEncoding {
    /// A byte for each number, as X10's reports have it.
    #[default]
    Default,
    /// A UTF-8 character for each number (xterm's mode 1005).
    Utf8,
    /// Decimal numbers (xterm's mode 1006).
    Sgr,
}

/// How the cursor looks (DECSCUSR).
#[derive(Clone, Copy, Debug, Default, Eq, PartialEq)]
pub enum CursorStyle {
    /// The style that the terminal chooses (DECSCUSR 0).
    #[default]
    Default,
    /// A blinking block (DECSCUSR 1).
    BlinkBlock,
    /// A block (2).
    SteadyBlock,
    /// A blinking line below the character (3).
    BlinkUnderline,
    /// A line below the character (4).
    SteadyUnderline,
    /// A blinking line before the character (xterm's 5).
    BlinkVerticalBar,
    /// A line before the character (xterm's 6).
    SteadyVerticalBar,
}

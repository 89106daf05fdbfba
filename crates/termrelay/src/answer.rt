//! The answers to a request for a frame.
ghost use Rattle.std.specs.Prelude.{◌≡◌};
ghost use Rattle.termrelay.specs.Answers.{is_frame};

/// The answer to a client that asks for a frame.
#[derive(Clone, Copy, Debug, Eq, PartialEq)]
pub enum Answer {
    /// A frame that draws the whole screen. It is the client's first one, or the first after `Unsure`.
    Full,
    /// A frame of what changed since the last one.
    Difference,
    /// A frame of a screen that shows U+FE0F (the emoji variation selector). Terminals disagree on the width of such a
    /// cell.
    Unsure,
    /// No frame: the screen shows the same as at the last one.
    Unchanged,
    /// No frame: bytes of an earlier one still wait for the client.
    Behind,
    /// No frame: the program is in a synchronized update of its own (private mode 2026), which has to end first. There
    /// is no timeout; a full reset and a resize end the update too.
    Held,
    /// No frame: it would be longer than 2,097,150 bytes, its marks included. A terminal doesn't buffer a longer
    /// synchronized update as a whole, so it would show a part of it. A screen of at most 2,000 cells has no such
    /// frame.
    TooLong,
}

impl Answer {
    /// Whether the answer brings a frame.
    pub fn is_frame(self) -> bool
        ensures { result ≡ is_frame self }
    {
        match self {
            Answer::Full | Answer::Difference | Answer::Unsure => true,
            Answer::Unchanged | Answer::Behind | Answer::Held | Answer::TooLong => false,
        }
    }
}

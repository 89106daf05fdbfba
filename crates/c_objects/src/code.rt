//! The numbers that calls return: 0 or more for success, less than 0 for a refusal.
ghost use Rattle.std.specs.Prelude.{◌≡◌};
ghost use Rattle.c_objects.specs.Codes.{refusal_code, code_of, frame_code, screen_refusal, screen_code};

use termrelay::{Answer, HubError};
use vt100::ScreenError;

/// Success.
pub const OK: i32 = 0;

/// The word holds no object.
pub const CLOSED: i32 = -1;

/// The word holds an object of another kind.
pub(crate) const OTHER_KIND: i32 = -2;

/// The size has no rows, or no columns.
pub(crate) const BAD_SIZE: i32 = -3;

/// An allocation failed.
pub(crate) const MEMORY: i32 = -4;

/// A redraw is longer than a terminal buffers: the number of `Answer::TooLong`.
pub(crate) const TOO_LONG: i32 = 3;

/// The screen has failed: an allocation failed in an earlier call.
pub(crate) const FAILED: i32 = -5;

/// There is no such client: it has ended, or never existed.
pub(crate) const UNKNOWN_CLIENT: i32 = -6;

/// Fewer bytes than that wait for the client.
pub(crate) const NOT_OWED: i32 = -7;

/// The row or the column is outside the screen.
pub(crate) const NO_CELL: i32 = -8;

/// A writer failed. No call here uses a writer that can fail.
const NOT_WRITTEN: i32 = -9;

/// A recording has no header.
pub(crate) const NO_HEADER: i32 = -10;

/// A recording is a compressed file.
pub(crate) const COMPRESSED: i32 = -11;

/// A recording has fewer events.
pub(crate) const NO_EVENT: i32 = -12;

/// The size has more cells than the caller allows.
pub const TOO_LARGE: i32 = -13;

/// The number for a hub's error.
pub(crate) fn refusal_code(error: HubError) -> i32
    ensures { result ≡ refusal_code error }
{
    match error {
        HubError::Memory => MEMORY,
        HubError::Failed => FAILED,
        HubError::UnknownClient => UNKNOWN_CLIENT,
        HubError::Write(_) => NOT_WRITTEN,
    }
}

/// The number for the result of a hub's call.
pub(crate) fn code_of(answer: Result<(), HubError>) -> i32
    ensures { result ≡ code_of answer }
{
    match answer {
        Ok(()) => OK,
        Err(error) => refusal_code(error),
    }
}

/// The number for the result of a request for a frame.
pub(crate) fn frame_code(answer: Result<Answer, HubError>) -> i32
    ensures { result ≡ frame_code answer }
{
    match answer {
        Ok(Answer::Unchanged) => 0,
        Ok(Answer::Behind) => 1,
        Ok(Answer::Held) => 2,
        Ok(Answer::TooLong) => 3,
        Ok(Answer::Full) => 4,
        Ok(Answer::Difference) => 5,
        Ok(Answer::Unsure) => 6,
        Err(error) => refusal_code(error),
    }
}

/// The number for a screen's error.
pub(crate) fn screen_refusal(error: ScreenError) -> i32
    ensures { result ≡ screen_refusal error }
{
    match error {
        ScreenError::Memory => MEMORY,
        ScreenError::Failed => FAILED,
    }
}

/// The number for the result of a screen's call.
pub(crate) fn screen_code(answer: Result<(), ScreenError>) -> i32
    ensures { result ≡ screen_code answer }
{
    match answer {
        Ok(()) => OK,
        Err(error) => screen_refusal(error),
    }
}

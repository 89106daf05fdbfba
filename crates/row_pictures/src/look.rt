//! How pictures look.

use crate::theme::Theme;

/// How pictures look.
#[derive(Drop)]
pub struct Look {
    /// The colours.
    pub theme: Theme,
    /// The font's name. This font is tried first, and monospace last.
    pub font: Option<String>,
    /// Whether a bold text in one of the first eight colours has the bright one in its place. `None` leaves it to the
    /// theme.
    pub bold_is_bright: Option<bool>,
    /// Whether the cursor isn't shown.
    pub hides_cursor: bool,
    /// The title of a whole picture, if it has one.
    pub title: Option<String>,
}

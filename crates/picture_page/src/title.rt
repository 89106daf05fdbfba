//! Titles of pages.

ghost use Rattle.std.specs.Prelude.{◌≡◌, ◌++◌, [], OnOk, encode_utf8};
ghost use Rattle.picture_page.specs.Page.{Adds, escaped};
ghost use Rattle.picture_page.specs.Titles.{title_character, title_text};

use crate::page::Page;
use std::alloc::AllocError;

impl Page {
    /// Appends a title, escaped. Control characters in it, U+FFFE and U+FFFF come as U+FFFD.
    pub fn title(&mut self, title: &str) -> Result<(), AllocError>
        ensures adds { OnOk result (Adds self.old self.new []) }
        ensures bytes { OnOk result (self.new ≡ self.old ++ escaped (title_text title.now)) }
    {
        for c in title.chars() {
            self.title_character(c)?;
        }
        Ok(())
    }

    // Appends a character of a title, escaped.
    fn title_character(&mut self, c: char) -> Result<(), AllocError>
        ensures adds { OnOk result (Adds self.old self.new []) }
        ensures bytes { OnOk result (self.new ≡ self.old ++ escaped (encode_utf8 (title_character c))) }
    {
        let mut room = [0; 4];
        self.name(shown(c).encode_utf8(&mut room))
    }
}

// A character as titles have it.
fn shown(c: char) -> char
    ensures { result ≡ title_character c }
{
    if c.is_control() || c == '\u{fffe}' || c == '\u{ffff}' {
        '\u{fffd}'
    } else {
        c
    }
}

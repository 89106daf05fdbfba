//! A screen with its callbacks.
ghost use Rattle.std.specs.Prelude.{◌≡◌, ◌⊎◌, ◌≤◌, All, map, OnOk, OnErr, IfOk, Err, true, false};
ghost use Rattle.vt100.specs.Runs.{last_of, typed_all};
ghost use Rattle.vt100.specs.Tries.{MayScroll};
ghost use Rattle.screen_model.specs.Step.{typed, repeated, line_fed, region_up, last_after};
ghost use Rattle.vt100.specs.declared.error.ScreenError.TheVariants.{Memory};

use crate::callbacks::Callbacks;
use crate::error::ScreenError;
use crate::screen::reported::{Reporter, feed_line, print, print_run, print_times, scroll_up};
use crate::screen::{Screen, note_failure};
use vt100_cells::Glyph;
use vt100_core::Printed;

/// A screen with the callbacks that get its events.
///
/// A call in which an allocation fails returns [`ScreenError::Memory`] and marks the screen as failed. What the
/// screen shows is then unspecified, but its sheets keep their sizes, unless another size was asked for. The
/// callbacks got only rows: a prefix of those that the call reports. On a failed screen no call does anything; those
/// that return a `Result` return [`ScreenError::Failed`].
#[derive(Drop)]
pub struct WrappedScreen<CB> {
    /// The screen. It can be read and changed here without a call of the callbacks.
    pub screen: Screen,
    /// The callbacks.
    pub callbacks: CB,
}

impl<CB: Callbacks> WrappedScreen<CB> {
    /// Prints a character at the cursor, with the drawing attributes.
    #[inline(always)]
    pub fn text(&mut self, c: char) -> Result<(), ScreenError>
        ensures { MayScroll CB.scrolls (typed c) self.old result self.new }
    {
        if self.screen.failed {
            return Err(ScreenError::Failed);
        }
        let mut reporter = Reporter {
            callbacks: &mut self.callbacks,
            alternate_screen: self.screen.alternate_screen,
        };
        let drawn = print(&mut self.screen.grid, &mut reporter, c, &self.screen.attrs);
        let printed = note_failure(&mut self.screen.failed, drawn)?;
        self.screen.last_char = last_after(printed, c, self.screen.last_char);
        Ok(())
    }

    /// Prints the characters of a run as [`text`](Self::text) of each in turn does. Where they take two columns each
    /// the screen has two or more.
    #[inline(always)]
    pub(crate) fn run<G: Glyph, const COLUMNS: usize>(
        &mut self,
        text: &[G],
    ) -> Result<(), ScreenError>
        requires columns { (COLUMNS ≡ 1) ⊎ (COLUMNS ≡ 2) }
        requires drawn { All (G.Takes COLUMNS) text.now }
        requires room { COLUMNS ≡ 2 → 2 ≤ self.old.screen.state.shown.width }
        ensures { MayScroll CB.scrolls (typed_all (map G.code text.now)) self.old result self.new }
    {
        prove!(self.screen.size().1.get() > 0);
        if self.screen.failed {
            return Err(ScreenError::Failed);
        }
        let mut reporter = Reporter {
            callbacks: &mut self.callbacks,
            alternate_screen: self.screen.alternate_screen,
        };
        let drawn = print_run::<G, COLUMNS, _>(
            &mut self.screen.grid,
            &mut reporter,
            text,
            &self.screen.attrs,
        );
        note_failure(&mut self.screen.failed, drawn)?;
        self.screen.last_char = last_of(text, self.screen.last_char);
        Ok(())
    }

    /// Moves the cursor a row down. At the scroll region's last row the region moves up instead (LF).
    pub fn lf(&mut self) -> Result<(), ScreenError>
        ensures { MayScroll CB.scrolls line_fed self.old result self.new }
    {
        if self.screen.failed {
            return Err(ScreenError::Failed);
        }
        let mut reporter = Reporter {
            callbacks: &mut self.callbacks,
            alternate_screen: self.screen.alternate_screen,
        };
        let drawn = feed_line(&mut self.screen.grid, &mut reporter);
        note_failure(&mut self.screen.failed, drawn)?;
        Ok(())
    }

    /// Moves the cursor down one row, as [`lf`](Self::lf) does (VT).
    pub fn vt(&mut self) -> Result<(), ScreenError>
        ensures { MayScroll CB.scrolls line_fed self.old result self.new }
    {
        self.lf()
    }

    /// Moves the cursor down one row, as [`lf`](Self::lf) does (FF).
    pub fn ff(&mut self) -> Result<(), ScreenError>
        ensures { MayScroll CB.scrolls line_fed self.old result self.new }
    {
        self.lf()
    }

    /// Moves the lines of the scroll region up; blank ones come in at its bottom (SU).
    pub fn su(&mut self, count: u16) -> Result<(), ScreenError>
        ensures { MayScroll CB.scrolls (region_up count) self.old result self.new }
    {
        if self.screen.failed {
            return Err(ScreenError::Failed);
        }
        let mut reporter = Reporter {
            callbacks: &mut self.callbacks,
            alternate_screen: self.screen.alternate_screen,
        };
        let drawn = scroll_up(&mut self.screen.grid, &mut reporter, count);
        note_failure(&mut self.screen.failed, drawn)?;
        Ok(())
    }

    /// Prints the last character that was drawn in a cell of its own `count` more times, if there is one (REP).
    pub(crate) fn rep(&mut self, count: u16) -> Result<(), ScreenError>
        ensures { MayScroll CB.scrolls (repeated count) self.old result self.new }
    {
        if self.screen.failed {
            return Err(ScreenError::Failed);
        }
        if let Some(c) = self.screen.last_char {
            let mut reporter = Reporter {
                callbacks: &mut self.callbacks,
                alternate_screen: self.screen.alternate_screen,
            };
            let drawn = print_times(
                &mut self.screen.grid,
                &mut reporter,
                c,
                count,
                &self.screen.attrs,
            );
            note_failure(&mut self.screen.failed, drawn)?;
        }
        Ok(())
    }
}

/// The last character of a run, or `last` if the run is empty.
#[inline(always)]
fn last_of<G: Glyph>(text: &[G], last: Option<char>) -> Option<char>
    ensures { result ≡ last_of (map G.code text.now) last }
{
    match text {
        [.., glyph] => Some(glyph.to_char()),
        [] => last,
    }
}

/// The last character that was drawn in a cell of its own, once `c` is printed.
#[inline(always)]
fn last_after(printed: Printed, c: char, last: Option<char>) -> Option<char>
    ensures { result ≡ last_after printed c last }
{
    match printed {
        Printed::Spacing => Some(c),
        _ => last,
    }
}

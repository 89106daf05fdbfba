//! A terminal: bytes in, a screen out.
ghost use Rattle.std.specs.Prelude.{◌≡◌, ◌++◌, ◌∷◌, ℕ, List, [], length, IfOk, OnOk, OnErr, Err, true, false};
ghost use Rattle.std.specs.Prelude.{None, IfErr, IsOk};
ghost use Rattle.std.specs.Borrow.{sem};
ghost use Rattle.std.specs.Io.{WritesAtMost};
ghost use Rattle.std.specs.Io.KnownBytes.{WriteAppends, Keeps};
ghost use Rattle.std.specs.IoError.{error_kind};
ghost use Rattle.std.specs.declared.io.ErrorKind.TheVariants.{OutOfMemory, Other};
ghost use Rattle.screen_model.specs.State.{fresh_state};
ghost use Rattle.screen_model.specs.Step.{resized_to};
ghost use Rattle.screen_model.specs.Made.{Act, Fed, Resized, events_added};
ghost use Rattle.screen_model.specs.Holds.{AreActs};
ghost use Rattle.vt100.specs.Memory.{some_may_allocate};
ghost use Rattle.vt100.specs.Tries.{Tries, TakesNone, SameBounds, Stops, alive};
ghost use Rattle.vt100.specs.declared.error.ScreenError.TheVariants.{Memory, Failed};

use crate::callbacks::Callbacks;
use crate::error::ScreenError;
use crate::screen::deferring::advance;
use crate::screen::{Screen, WrappedScreen};
use std::alloc::Global;
use std::io;
use std::io::{ErrorKind, Write};
use std::marker::Model;
use std::num::NonZeroU16;
use vt100_core::Size;

/// Reads what a program writes to its terminal, and makes the terminal's screen of it.
///
/// The contracts cover all that came before: the bytes that the parser has read, or the acts (feeds and resizes),
/// since it was created. Bytes may be split anywhere.
#[derive(Drop)]
pub struct Parser<CB> {
    parser: vte_core::Parser<1024>,
    screen: WrappedScreen<CB>,
}

impl<CB> Model for Parser<CB> {
    ghost use Rattle.vt100.specs.Parsing.{ParserView};

    ghost Value = { ParserView CB };

    ghost view = { λ p. record { reader = p.parser; screen = p.screen.screen; callbacks = p.screen.callbacks } };
}

/// The size of a parser of [`new_default`](Parser::new_default).
const ROWS: u16 = 24;

const COLS: u16 = 80;

impl<CB> Parser<CB> {
    /// How many rows a parser of [`new_default`](Parser::new_default) has: 24.
    pub const DEFAULT_ROWS: NonZeroU16 = match NonZeroU16::new(ROWS) {
        Some(rows) => rows,
        None => NonZeroU16::MIN,
    };

    /// How many columns it has: 80.
    pub const DEFAULT_COLS: NonZeroU16 = match NonZeroU16::new(COLS) {
        Some(cols) => cols,
        None => NonZeroU16::MIN,
    };
}

impl Parser<()> {
    ghost use Rattle.vt100.specs.Parsing.{ParserIsAfter};

    /// A parser of this size that keeps at most `scrollback_capacity` rows, and has no callbacks.
    pub fn new(
        alloc: Global,
        rows: NonZeroU16,
        cols: NonZeroU16,
        scrollback_capacity: usize,
    ) -> Result<Self, ScreenError>
        ensures state_after { IfOk result (λ p. ParserIsAfter p rows.value cols.value scrollback_capacity []) }
        ensures memory { OnErr result (result ≡ Err Memory) }
    {
        Parser::new_with_callbacks(alloc, rows, cols, scrollback_capacity, ())
    }

    /// A parser of 24 rows and 80 columns that keeps no rows.
    pub fn new_default(alloc: Global) -> Result<Self, ScreenError>
        ensures state_after { IfOk result (λ p. ParserIsAfter p 24 80 0 []) }
        ensures memory { OnErr result (result ≡ Err Memory) }
    {
        let rows = NonZeroU16::new(ROWS).unwrap();
        let cols = NonZeroU16::new(COLS).unwrap();
        Parser::new(alloc, rows, cols, 0)
    }
}

impl<CB: Callbacks> Parser<CB> {
    ghost use Rattle.vt100.specs.Goes.{GoesThrough};
    ghost use Rattle.vt100.specs.Parsing.{HasRead, ParserIsAfter, KeepsScreens};
    ghost use Rattle.vt100.specs.ParserLends.{lends_screen, lends_callbacks, lends_both};

    /// A parser of this size that keeps at most `scrollback_capacity` rows, and reports its events to these
    /// callbacks.
    pub fn new_with_callbacks(
        alloc: Global,
        rows: NonZeroU16,
        cols: NonZeroU16,
        scrollback_capacity: usize,
        callbacks: CB,
    ) -> Result<Self, ScreenError>
    where
        CB: Drop,
        ensures state_after { IfOk result (λ p. ParserIsAfter p rows.value cols.value scrollback_capacity []) }
        ensures callbacks { IfOk result (λ p. p.callbacks ≡ callbacks) }
        ensures memory { OnErr result (result ≡ Err Memory) }
    {
        let screen = Screen::new(alloc, Size { rows, cols }, scrollback_capacity)?;
        Ok(Parser {
            parser: vte_core::Parser::new(),
            screen: WrappedScreen { screen, callbacks },
        })
    }

    /// Reads the next bytes of the stream. A character or a sequence that they leave unfinished is kept for the next
    /// call.
    ///
    /// If an allocation fails, or a call of the callbacks leaves a failed screen, the later events do nothing, and
    /// the call returns [`ScreenError::Memory`]. Except for what the callbacks change, the screen keeps its size and
    /// its capacity. If an allocation fails during an event, the callbacks get only a prefix of the rows that leave
    /// through it, and no other call. Only events that allocate can fail (`allocates`). On a screen that had failed
    /// before, nothing is done.
    pub fn process(&mut self, bytes: &[u8]) -> Result<(), ScreenError>
        ensures alive { OnOk result (self.new.screen.failed ≡ false) }
        ensures memory { result ≡ Err Memory → (self.old.screen.failed ≡ false) × (self.new.screen.failed ≡ true) }
        ensures refused { result ≡ Err Failed → self.old.screen.failed ≡ true }
        ensures dead { self.old.screen.failed ≡ true → (result ≡ Err Failed) × (self.new ≡ self.old) }
        ensures reads { self.old.screen.failed ≡ false → (past : List ℕ) → HasRead self.old past
            → HasRead self.new (past ++ bytes.now) }
        ensures goes { self.old.screen.failed ≡ false → (past : List ℕ) → HasRead self.old past
            → GoesThrough CB.step CB.scrolls (events_added past bytes.now) self.old.callbacks self.old.screen
            self.new.callbacks self.new.screen }
        ensures made { KeepsScreens CB.step → (rows cols capacity : ℕ) (acts : List Act)
            → ParserIsAfter self.old rows cols capacity acts
            → OnOk result (ParserIsAfter self.new rows cols capacity (acts ++ Fed bytes.now ∷ [])) }
        ensures bounds { KeepsScreens CB.step → (rows cols capacity : ℕ) (acts : List Act)
            → AreActs rows cols capacity acts → ParserIsAfter self.old rows cols capacity acts
            → SameBounds self.old.screen.state self.new.screen.state }
        ensures allocates { KeepsScreens CB.step → result ≡ Err Memory → (past : List ℕ) → HasRead self.old past
            → some_may_allocate (events_added past bytes.now) self.old.screen.state ≡ true }
    {
        if self.screen.screen.failed() {
            return Err(ScreenError::Failed);
        }
        advance(&mut self.parser, &mut self.screen, bytes);
        if self.screen.screen.failed() {
            return Err(ScreenError::Memory);
        }
        Ok(())
    }

    /// Gives the screen another size, and reports the rows that leave it to the callbacks. A synchronized update of the
    /// program ends. The same size changes nothing else.
    ///
    /// A screen that becomes lower first loses the rows under the cursor, and then lets its top rows scroll off. One
    /// that becomes higher gets as many rows back at its top as have scrolled off, blank where they weren't kept.
    ///
    /// Only a call that makes the screen wider or higher, or keeps one more row, can be refused. It has then stopped
    /// at the sheet whose allocation failed, and the size of that sheet is unspecified. The main sheet comes first.
    pub fn set_size(&mut self, rows: NonZeroU16, cols: NonZeroU16) -> Result<(), ScreenError>
        ensures screen { Tries CB.scrolls (resized_to rows.value cols.value) self.old.screen self.old.callbacks
            result self.new.screen self.new.callbacks }
        ensures stops { result ≡ Err Memory
            → Stops rows.value cols.value self.old.screen.state self.new.screen.state }
        ensures same { self.old.screen.failed ≡ false → rows.value ≡ self.old.screen.state.shown.height
            → cols.value ≡ self.old.screen.state.shown.width → IsOk result }
        ensures smaller { self.old.screen.failed ≡ false → TakesNone rows.value cols.value self.old.screen.state
            → IsOk result }
        ensures reader { self.new.reader ≡ self.old.reader }
        ensures made { (height width capacity : ℕ) (acts : List Act) → ParserIsAfter self.old height width capacity acts
            → OnOk result (ParserIsAfter self.new height width capacity (acts ++ Resized rows.value cols.value ∷ [])) }
    {
        self.screen.set_size_with_cb(rows, cols)
    }

    /// The screen.
    pub fn screen(&self) -> &Screen
        ensures { result.now ≡ self.now.screen }
    {
        &self.screen.screen
    }

    /// The screen, to be changed.
    pub fn screen_mut(&mut self) -> &mut Screen
        ensures* writes_back { sem 𝓛 (lends_screen CB.row self.entry result) }
        ensures value { result.now ≡ self.old.screen }
    {
        &mut self.screen.screen
    }

    /// The callbacks.
    pub fn callbacks(&self) -> &CB
        ensures { result.now ≡ self.now.callbacks }
    {
        &self.screen.callbacks
    }

    /// The callbacks, to be changed.
    pub fn callbacks_mut(&mut self) -> &mut CB
        ensures* writes_back { sem 𝓛 (lends_callbacks CB.row self.entry result) }
        ensures value { result.now ≡ self.old.callbacks }
    {
        &mut self.screen.callbacks
    }

    /// Both, to be changed.
    pub fn screen_and_callbacks_mut(&mut self) -> (&mut Screen, &mut CB)
        ensures* writes_back { sem 𝓛 (lends_both CB.row self.entry result) }
        ensures screen { result.0.now ≡ self.old.screen }
        ensures callbacks { result.1.now ≡ self.old.callbacks }
    {
        let WrappedScreen { screen, callbacks } = &mut self.screen;
        (screen, callbacks)
    }
}

/// A write feeds its bytes. It returns the whole length; or an error of kind `OutOfMemory` if an allocation failed,
/// and of kind `Other` if the screen had failed before. After an error the screen has failed. Bytes without an event
/// that may allocate aren't refused (`allocates`).
impl Write for Parser<()> {
    ghost use Rattle.vt100.specs.Goes.{GoesThrough};
    ghost use Rattle.vt100.specs.Parsing.{HasRead, ParserIsAfter};

    fn write(&mut self, buf: &[u8]) -> io::Result<usize>
        ensures bound { WritesAtMost result buf.now }
        ensures bytes { WriteAppends None None result buf.now }
        ensures whole { IfOk result (λ n. n ≡ length buf.now) }
        ensures memory { IfErr result (λ e. self.old.screen.failed ≡ false → error_kind e ≡ OutOfMemory) }
        ensures failed { IfErr result (λ e. self.old.screen.failed ≡ true → error_kind e ≡ Other) }
        ensures fails { OnErr result (self.new.screen.failed ≡ true) }
        ensures dead { self.old.screen.failed ≡ true → self.new ≡ self.old }
        ensures reads { self.old.screen.failed ≡ false → (past : List ℕ) → HasRead self.old past
            → HasRead self.new (past ++ buf.now) }
        ensures goes { self.old.screen.failed ≡ false → (past : List ℕ) → HasRead self.old past
            → GoesThrough (λ c v k d w. v ≡ w) (λ c v a d. c ≡ d) (events_added past buf.now) self.old.callbacks
            self.old.screen self.new.callbacks self.new.screen }
        ensures made { (rows cols capacity : ℕ) (acts : List Act) → ParserIsAfter self.old rows cols capacity acts
            → OnOk result (ParserIsAfter self.new rows cols capacity (acts ++ Fed buf.now ∷ [])) }
        ensures bounds { (rows cols capacity : ℕ) (acts : List Act) → AreActs rows cols capacity acts
            → ParserIsAfter self.old rows cols capacity acts → SameBounds self.old.screen.state self.new.screen.state }
        ensures allocates { IfErr result (λ e. self.old.screen.failed ≡ false → (past : List ℕ) → HasRead self.old past
            → some_may_allocate (events_added past buf.now) self.old.screen.state ≡ true) }
    {
        match self.process(buf) {
            Ok(()) => Ok(buf.len()),
            Err(ScreenError::Memory) => Err(io::Error::from(ErrorKind::OutOfMemory)),
            Err(ScreenError::Failed) => Err(io::Error::from(ErrorKind::Other)),
        }
    }

    fn flush(&mut self) -> io::Result<()>
        ensures bytes { Keeps None None }
        ensures done { IsOk result }
        ensures same { self.new ≡ self.old }
    {
        Ok(())
    }
}

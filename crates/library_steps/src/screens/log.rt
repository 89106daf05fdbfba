//! Callbacks that write down their calls.

ghost use Rattle.std.specs.Prelude.{⊤};

use std::alloc::{AllocError, Global};
use std::fmt::{Debug, Display};
use std::num::NonZeroU16;
use std::str;
use vt100::capture::{BasicFormattedCaptureState, RowContents};
use vt100::{Call, Callbacks, Screen};

/// How many bytes the calls, and the capture, have room for from the start.
const ROOM: usize = 1024;

/// The calls so far, each a line with the cursor's place at that time, and the capture of the rows that left. What asks
/// for a size gets it.
#[derive(Drop)]
pub struct Log {
    /// The calls that aren't reported yet.
    pub calls: String,
    /// The capture of the rows that left.
    pub capture: String,
    /// Where that capture goes on.
    pub state: BasicFormattedCaptureState,
    /// Whether memory was refused to a line.
    pub is_cut: bool,
    /// Whether a size was asked for.
    pub is_resized: bool,
}

impl Log {
    /// A log without calls.
    pub fn new(alloc: Global) -> Result<Log, AllocError> {
        Ok(Log {
            calls: String::with_capacity(alloc, ROOM)?,
            capture: String::with_capacity(alloc, ROOM)?,
            state: BasicFormattedCaptureState::default(),
            is_cut: false,
            is_resized: false,
        })
    }

    /// Writes down what is given to `write!`.
    fn write_fmt<D: Display + Drop>(&mut self, value: D) {
        self.is_cut |= self.calls.write_fmt(value).is_err();
    }

    fn word(&mut self, word: &str) {
        self.shown(&word);
    }

    /// Writes down a value as its `Display`.
    fn shown<T: Display>(&mut self, value: &T) {
        write!(self, "{value} ");
    }

    /// Writes down a value as its `Debug`.
    fn debug<T: Debug>(&mut self, value: &T) {
        write!(self, "{value:?} ");
    }

    fn number(&mut self, word: &str, number: u32) {
        self.word(word);
        self.shown(&number);
    }

    /// A word, and the private byte and the intermediate of a sequence.
    fn bytes(&mut self, word: &str, first: Option<u8>, second: Option<u8>) {
        self.word(word);
        self.debug(&first);
        self.debug(&second);
    }

    /// A word, and then each of these pieces.
    fn pieces(&mut self, word: &str, pieces: &[&[u8]]) {
        self.word(word);
        for piece in pieces {
            self.word(str::from_utf8(piece).unwrap_or("?"));
        }
    }

    fn line(&mut self, word: &str) {
        writeln!(self, "{word}");
    }

    /// A call that asks nothing of the screen.
    fn reported(&mut self, call: Call<'_>) {
        match call {
            Call::AudibleBell => self.word("bell by a detour"),
            Call::VisualBell => self.word("flash"),
            Call::SetWindowIconName(name) => self.pieces("icon", &[name]),
            Call::SetWindowTitle(title) => self.pieces("title", &[title]),
            Call::CopyToClipboard(ty, data) => self.pieces("copy", &[ty, data]),
            Call::PasteFromClipboard(ty) => self.pieces("paste", &[ty]),
            call => self.unhandled(call),
        }
    }

    /// A call of what the screen doesn't know.
    fn unhandled(&mut self, call: Call<'_>) {
        match call {
            Call::UnhandledChar(c) => self.number("char", c as u32),
            Call::UnhandledControl(b) => self.number("control", u32::from(b)),
            Call::UnhandledEscape(i1, i2, b) => {
                self.bytes("escape", i1, i2);
                self.shown(&b);
            }
            Call::UnhandledCsi(i1, i2, params, c) => {
                self.bytes("csi", i1, i2);
                self.debug(&params);
                self.shown(&c);
            }
            Call::UnhandledOsc(params) => self.pieces("osc", params),
            _ => self.word("another call"),
        }
    }

    /// What the screen has come to when a call is made.
    fn place(&mut self, screen: &Screen) {
        let (row, col) = screen.cursor_position();
        self.number("at", u32::from(row));
        write!(self, "{col}");
        self.line(if screen.bold() { "b" } else { "" });
    }

    /// Grants a size, of which 0 counts as 1. Where memory is refused the screen has failed.
    fn grant(&mut self, screen: &mut Screen, rows: u16, cols: u16) {
        self.number("resize", u32::from(rows));
        self.shown(&cols);
        self.is_resized = true;
        let rows = NonZeroU16::new(rows).unwrap_or(NonZeroU16::MIN);
        let cols = NonZeroU16::new(cols).unwrap_or(NonZeroU16::MIN);
        self.is_cut |= screen.set_size(rows, cols).is_err();
    }
}

impl Callbacks for Log {
    ghost step = { λ _ _ _ _ _. ⊤ };

    ghost scrolls = { λ _ _ _ _. ⊤ };

    fn call(&mut self, screen: &mut Screen, call: Call<'_>) {
        match call {
            Call::Resize(rows, cols) => self.grant(screen, rows, cols),
            call => self.reported(call),
        }
        self.place(screen);
    }

    fn on_scroll(&mut self, contents: RowContents<'_>, alternate_screen: bool) {
        self.word(if alternate_screen {
            "alternate row"
        } else {
            "row"
        });
        let mut alone = BasicFormattedCaptureState::new();
        self.is_cut |= contents
            .write_formatted_basic(&mut self.calls, &mut alone)
            .is_err();
        self.is_cut |= self.calls.push('\n').is_err();
        self.is_cut |= contents
            .write_formatted_basic(&mut self.capture, &mut self.state)
            .is_err();
    }

    fn audible_bell(&mut self, screen: &mut Screen) {
        self.word("bell");
        self.place(screen);
    }
}

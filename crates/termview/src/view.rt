//! A terminal at the far end of a line.
ghost use Rattle.std.specs.Prelude.{◌≡◌, ℕ, List, [], Option, Some, None, false, length, IfOk, OnErr, Err};
ghost use Rattle.std.specs.Prelude.{encode_utf8_all, ◌++◌, ◌≤◌};
ghost use Rattle.std.specs.Option.{option_copied};
ghost use Rattle.byte_streams.specs.Sent.{SendsText};
ghost use Rattle.vt100_forms.specs.Attrs.{is_bold, is_dim, is_italic, is_underlined, is_inverse};
ghost use Rattle.termview.specs.Seen.{cell_shown, text_shown};
ghost use Rattle.termview.specs.declared.error.ViewError.TheVariants.{Memory};

use crate::error::ViewError;
use crate::picture::Picture;
use crate::text::write_cells;
use byte_streams::ByteSink;
use std::alloc::Global;
use std::io;
use std::num::NonZeroU16;
use vt100_cells::Cell;
use vt100_forms::{Color, CursorStyle, MouseProtocolEncoding, MouseProtocolMode};
use vt100_rows::Size;
use vte::ansi::{Processor, Timeout};

/// A terminal at the far end of a line. It reads what the writers of a `vt100` screen send, in any pieces, and shows
/// the picture that they meant.
///
/// The contracts hold for every past of the view. A past is the bytes that it has parsed, and the bytes of an open
/// synchronized update that it has buffered.
#[derive(Drop)]
pub struct View<T: Timeout> {
    processor: Processor<T, Global>,
    picture: Picture,
}

impl<T: Timeout + Drop> View<T> {
    ghost use Rattle.vte.specs.Timeout.{IsExact, Awaits};
    ghost use Rattle.vte.specs.Hold.{held_of};
    ghost use Rattle.termview.specs.Standing.{view_size, shown_by, timeout_of, ViewIsAfter, HoldsAt, Advanced, Emptied};
    ghost use Rattle.termview.specs.Standing.{Taken};

    /// A blank view of this size. It allocates all the memory that it will need, so no later call fails for want of
    /// memory. The timeout says whether a synchronized update is open, so it should not be pending yet. Fails only if
    /// an allocation fails.
    pub fn new(
        alloc: Global,
        rows: NonZeroU16,
        cols: NonZeroU16,
        timeout: T,
    ) -> Result<Self, ViewError>
        ensures state_after { IfOk result (λ v. ViewIsAfter v [] []) }
        ensures exact { IfOk result (λ v. Awaits T.ticking timeout false → HoldsAt T.ticking v [] None) }
        ensures rows { IfOk result (λ v. (view_size v).rows ≡ rows.value) }
        ensures cols { IfOk result (λ v. (view_size v).cols ≡ cols.value) }
        ensures timeout { IfOk result (λ v. timeout_of v ≡ timeout) }
        ensures memory { OnErr result (result ≡ Err Memory) }
    {
        let processor = Processor::new(alloc, timeout)?;
        let picture = Picture::new(alloc, Size { rows, cols })?;
        Ok(View { processor, picture })
    }

    /// Reads the next bytes of the stream. They may end anywhere, also inside a character or an escape sequence.
    pub fn advance(&mut self, bytes: &[u8])
        ensures advanced { (parsed held : List ℕ) → ViewIsAfter self.old parsed held
            → Advanced T.ticking self.old parsed held bytes.now self.new }
        ensures exact { (parsed : List ℕ) (hold : Option (List ℕ)) → IsExact T.ticking
            → HoldsAt T.ticking self.old parsed hold
            → Taken T.ticking self.old parsed hold bytes.now self.new }
    {
        self.processor.advance(&mut self.picture, bytes);
    }

    /// Parses the buffered bytes, and closes the synchronized update.
    pub fn stop_sync(&mut self)
        ensures emptied { (parsed held : List ℕ) → ViewIsAfter self.old parsed held
            → Emptied T.ticking self.old parsed held self.new }
        ensures exact { (parsed : List ℕ) (hold : Option (List ℕ)) → IsExact T.ticking
            → HoldsAt T.ticking self.old parsed hold
            → HoldsAt T.ticking self.new (parsed ++ held_of hold) None }
    {
        self.processor.stop_sync(&mut self.picture);
    }

    /// How many bytes of a synchronized update are buffered: at most 2,097,150.
    pub fn sync_bytes_count(&self) -> usize
        ensures count { (parsed held : List ℕ) → ViewIsAfter self.now parsed held → result ≡ length held }
        ensures most { result ≤ 2_097_150 }
    {
        self.processor.sync_bytes_count()
    }
}

/// Readers of what the view shows.
impl<T: Timeout> View<T> {
    ghost use Rattle.termview.specs.Standing.{view_size, shown_by};

    /// The size of the screen, as rows and columns.
    pub fn size(&self) -> (NonZeroU16, NonZeroU16)
        ensures rows { result.0.value ≡ (view_size self.now).rows }
        ensures cols { result.1.value ≡ (view_size self.now).cols }
    {
        (self.picture.size.rows, self.picture.size.cols)
    }

    /// The cell in a row and a column, both counted from 0. `None` if it lies off the screen.
    pub fn cell(&self, row: u16, col: u16) -> Option<&Cell>
        ensures { option_copied result ≡ cell_shown (view_size self.now) (shown_by self.now) row col }
    {
        self.picture.cell(row, col)
    }

    /// Whether the text of the row, counted from 0, wraps into the next row.
    pub fn row_wrapped(&self, row: u16) -> bool
        ensures { result ≡ (shown_by self.now).wrapped row }
    {
        self.picture.row_wrapped(row)
    }

    /// The cursor's row and column, counted from 0. The column equals the screen's width while the cursor waits to
    /// wrap: then the next character goes to the next row.
    pub fn cursor_position(&self) -> (u16, u16)
        ensures { result ≡ ((shown_by self.now).row, (shown_by self.now).col) }
    {
        (self.picture.pos.row, self.picture.pos.col)
    }

    /// Writes the text of the row, counted from 0, as UTF-8 and without the empty columns at its end. It writes nothing
    /// for a row past the last. Fails only if a write fails or takes no byte; the bytes that were taken before stay
    /// written.
    pub fn row_text<W: ByteSink>(&self, row: u16, to: &mut W) -> io::Result<()>
        ensures { SendsText W.takes to.old (encode_utf8_all (text_shown (view_size self.now) (shown_by self.now) row))
            result to.new }
    {
        write_cells(self.picture.row_cells(row), to)
    }

    /// Whether the cursor is hidden.
    pub fn hide_cursor(&self) -> bool
        ensures { result ≡ (shown_by self.now).hidden }
    {
        self.picture.hide_cursor
    }

    /// Whether the keypad sends application sequences (DECKPAM).
    pub fn application_keypad(&self) -> bool
        ensures { result ≡ (shown_by self.now).modes.keypad }
    {
        self.picture.application_keypad
    }

    /// Whether the cursor keys send application sequences (DECCKM).
    pub fn application_cursor(&self) -> bool
        ensures { result ≡ (shown_by self.now).modes.cursor_keys }
    {
        self.picture.application_cursor
    }

    /// Whether pasted text is put between marks (bracketed paste, private mode 2004).
    pub fn bracketed_paste(&self) -> bool
        ensures { result ≡ (shown_by self.now).modes.paste }
    {
        self.picture.bracketed_paste
    }

    /// Which mouse events the terminal reports to the program.
    pub fn mouse_protocol_mode(&self) -> MouseProtocolMode
        ensures { result ≡ (shown_by self.now).modes.mouse }
    {
        self.picture.mouse_protocol_mode
    }

    /// The encoding of the mouse reports.
    pub fn mouse_protocol_encoding(&self) -> MouseProtocolEncoding
        ensures { result ≡ (shown_by self.now).modes.encoding }
    {
        self.picture.mouse_protocol_encoding
    }

    /// The cursor's style (DECSCUSR).
    pub fn cursor_style(&self) -> CursorStyle
        ensures { result ≡ (shown_by self.now).style }
    {
        self.picture.cursor_style
    }

    /// The foreground colour of the text that comes next.
    pub fn fgcolor(&self) -> Color
        ensures { result ≡ (shown_by self.now).attrs.fgcolor }
    {
        self.picture.attrs.attrs().fgcolor
    }

    /// The background colour of the text that comes next.
    pub fn bgcolor(&self) -> Color
        ensures { result ≡ (shown_by self.now).attrs.bgcolor }
    {
        self.picture.attrs.attrs().bgcolor
    }

    /// Whether the text that comes next is bold.
    pub fn bold(&self) -> bool
        ensures { result ≡ is_bold (shown_by self.now).attrs }
    {
        self.picture.attrs.attrs().bold()
    }

    /// Whether the text that comes next is dim.
    pub fn dim(&self) -> bool
        ensures { result ≡ is_dim (shown_by self.now).attrs }
    {
        self.picture.attrs.attrs().dim()
    }

    /// Whether the text that comes next is italic.
    pub fn italic(&self) -> bool
        ensures { result ≡ is_italic (shown_by self.now).attrs }
    {
        self.picture.attrs.attrs().italic()
    }

    /// Whether the text that comes next is underlined.
    pub fn underline(&self) -> bool
        ensures { result ≡ is_underlined (shown_by self.now).attrs }
    {
        self.picture.attrs.attrs().underline()
    }

    /// Whether the foreground and background of the text that comes next are exchanged (SGR 7).
    pub fn inverse(&self) -> bool
        ensures { result ≡ is_inverse (shown_by self.now).attrs }
    {
        self.picture.attrs.attrs().inverse()
    }
}

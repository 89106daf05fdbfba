//! The picture that a terminal shows.
ghost use Rattle.std.specs.Prelude.{◌≡◌, ℕ, ◌+◌, ◌-◌, ◌<◌, ◌≤◌, ◌==◌, Some, true, false, min, length, IfOk};
ghost use Rattle.printable.specs.Printable.{IsPrintable};
ghost use Rattle.vt100_cells.specs.Cell.{cell_of, drawn_columns};
ghost use Rattle.std.specs.Option.{option_copied};
ghost use Rattle.vt100_cells.specs.Cells.{cell_at};
ghost use Rattle.vt100_rows.specs.Text.{line_text};
ghost use Rattle.terminal_model.specs.Term.{blank_term};
ghost use Rattle.terminal_model.specs.Apply.{erase, input, print, join, down, wrap, made_to_fit};
ghost use Rattle.termview.specs.Step.{printed, erase_below, cursor_saved, cursor_restored, flag_above};
ghost use Rattle.termview.specs.Picture.{term_of_picture, Becomes, ShowsPrefix};
ghost use Rattle.termview.specs.Seen.{cell_shown, text_shown};

use crate::error::ViewError;
use printable::{is_printable, printable_len};
use std::alloc::Global;
use std::marker::Model;
use vt100_cells::{Cell, PackedAttrs, columns};
use vt100_forms::attrs::Attrs;
use vt100_forms::{CursorStyle, MouseProtocolEncoding, MouseProtocolMode, Pos};
use vt100_rows::{Sheet, Size};

/// The picture that a terminal shows, with the saved cursor and attributes.
#[derive(Drop)]
pub struct Picture {
    pub(crate) size: Size,
    pub(crate) rows: Sheet,
    pub(crate) pos: Pos,
    pub(crate) saved_pos: Pos,
    pub(crate) attrs: PackedAttrs,
    pub(crate) saved_attrs: Attrs,
    pub(crate) hide_cursor: bool,
    pub(crate) application_keypad: bool,
    pub(crate) application_cursor: bool,
    pub(crate) bracketed_paste: bool,
    pub(crate) mouse_protocol_mode: MouseProtocolMode,
    pub(crate) mouse_protocol_encoding: MouseProtocolEncoding,
    pub(crate) cursor_style: CursorStyle,
}

impl Model for Picture {
    ghost use Rattle.termview.specs.Picture.{PictureView};
    ghost use Rattle.termview.specs.PictureFields.{picture_of, IsPictureFields};

    ghost Value = { PictureView };

    ghost view = { picture_of };

    ghost invariant = { IsPictureFields };
}

impl Picture {
    /// A blank picture. Fails only if an allocation fails.
    pub(crate) fn new(alloc: Global, size: Size) -> Result<Self, ViewError>
        ensures rows { IfOk result (λ p. p.size.rows ≡ size.rows.value) }
        ensures cols { IfOk result (λ p. p.size.cols ≡ size.cols.value) }
        ensures blank { IfOk result (λ p. term_of_picture p ≡ blank_term) }
    {
        Ok(Picture {
            size,
            rows: Sheet::blank(alloc, size)?,
            pos: Pos { row: 0, col: 0 },
            saved_pos: Pos { row: 0, col: 0 },
            attrs: PackedAttrs::new(),
            saved_attrs: Attrs::new(),
            hide_cursor: false,
            application_keypad: false,
            application_cursor: false,
            bracketed_paste: false,
            mouse_protocol_mode: MouseProtocolMode::None,
            mouse_protocol_encoding: MouseProtocolEncoding::Default,
            cursor_style: CursorStyle::Default,
        })
    }

    /// Prints one character at the cursor, with the drawing attributes.
    ///
    /// It takes as many columns as its Unicode width (UAX #11), but at most two. If the row has too few columns left,
    /// it goes to the next row. A character of width zero is added to the cell on the cursor's left, which never
    /// becomes wide by it.
    ///
    /// Control characters and U+FFFD are dropped. So are characters wider than the screen, and zero-width ones in the
    /// first column.
    #[inline(always)]
    pub(crate) fn input(&mut self, c: char)
        ensures { Becomes self.old self.new (printed self.old.size c (term_of_picture self.old)) }
    {
        if is_printable(c) {
            self.input_printable(c as u8);
        } else {
            self.input_any(c);
        }
    }

    /// Prints one character of printable ASCII.
    #[inline(always)]
    fn input_printable(&mut self, c: u8)
        requires { IsPrintable c }
        ensures { Becomes self.old self.new (printed self.old.size c (term_of_picture self.old)) }
    {
        // A row has a column.
        let _cols = self.size.cols();
        self.make_room(1);
        self.print_printable(c);
    }

    /// Prints one character, as [`input`](Self::input) does.
    #[inline(never)]
    fn input_any(&mut self, c: char)
        ensures { Becomes self.old self.new (printed self.old.size c (term_of_picture self.old)) }
    {
        if c == char::REPLACEMENT_CHARACTER {
            return;
        }
        match columns(c) {
            None => {}
            Some(0) => self.join(c),
            Some(columns) => self.print(c, columns),
        }
    }

    /// Prints the printable ASCII at the start of a text, or the other characters there that take one column each, or
    /// two each, or else its first character. Returns the rest.
    pub(crate) fn input_some<'a>(&mut self, text: &'a str) -> &'a str
        requires { 0 < length text.now }
        ensures shorter { length result.now < length text.now }
        ensures shown { ShowsPrefix text.now result.now self.old self.new }
    {
        let len = printable_len(text.as_bytes());
        if len > 0 {
            self.input_run::<u8, 1>(&text.as_bytes()[..len]);
            return &text[len..];
        }
        match self.input_chars(text) {
            Some(rest) => rest,
            None => self.input_first(text),
        }
    }

    /// Prints the first character of a text. Returns the rest.
    fn input_first<'a>(&mut self, text: &'a str) -> &'a str
        requires { 0 < length text.now }
        ensures shorter { length result.now < length text.now }
        ensures shown { ShowsPrefix text.now result.now self.old self.new }
    {
        let mut chars = text.chars();
        if let Some(c) = chars.next() {
            self.input(c);
        }
        chars.as_str()
    }

    /// Adds a zero-width character to the cell on the cursor's left, if there is one.
    fn join(&mut self, c: char)
        requires { drawn_columns c ≡ Some 0 }
        ensures { Becomes self.old self.new (input self.old.size c (term_of_picture self.old)) }
    {
        if self.pos.col > 0 {
            self.join_left(c);
        }
    }

    /// Prints a character of one or two columns, unless it is wider than the screen.
    fn print(&mut self, c: char, columns: u16)
        requires drawn { drawn_columns c ≡ Some columns }
        requires spacing { 0 < columns }
        ensures { Becomes self.old self.new (input self.old.size c (term_of_picture self.old)) }
    {
        if columns <= self.size.cols() {
            self.make_room(columns);
            self.print_spacing(c, columns);
        }
    }

    /// Adds a zero-width character to the cell on the cursor's left, which exists.
    fn join_left(&mut self, c: char)
        requires zero_width { drawn_columns c ≡ Some 0 }
        requires after_some { 0 < self.old.col }
        ensures { Becomes self.old self.new (join c (term_of_picture self.old)) }
    {
        let col = self.pos.col;
        self.rows[usize::from(self.pos.row)].join_in_place(col, c);
    }

    /// Prints a character of one or two columns at the cursor.
    fn print_spacing(&mut self, c: char, columns: u16)
        requires drawn { drawn_columns c ≡ Some columns }
        requires spacing { 0 < columns }
        requires fits { self.old.col + columns ≤ self.old.size.cols }
        ensures { Becomes self.old self.new (print self.old.size (cell_of c self.old.attrs)
            (term_of_picture self.old)) }
    {
        let col = self.pos.col;
        self.rows[usize::from(self.pos.row)].put(col, c, columns, self.attrs.attrs());
        self.pos.col = col + columns;
    }

    /// Prints a character of printable ASCII at the cursor.
    #[inline(always)]
    fn print_printable(&mut self, c: u8)
        requires printable { IsPrintable c }
        requires fits { self.old.col + 1 ≤ self.old.size.cols }
        ensures { Becomes self.old self.new (print self.old.size (cell_of c self.old.attrs)
            (term_of_picture self.old)) }
    {
        let col = self.pos.col;
        self.rows[usize::from(self.pos.row)].put_printable(col, c, &self.attrs);
        self.pos.col = col + 1;
    }

    /// Moves the cursor to the next row unless its row has this many columns left.
    #[inline(always)]
    pub(crate) fn make_room(&mut self, columns: u16)
        requires { columns ≤ self.old.size.cols }
        ensures picture { Becomes self.old self.new (made_to_fit self.old.size columns (term_of_picture self.old)) }
        ensures fits { self.new.col + columns ≤ self.old.size.cols }
    {
        if self.pos.col > self.size.cols() - columns {
            self.wrap();
        }
    }

    /// Moves the cursor to the start of the next row. The row that it leaves is flagged as wrapped if its last column
    /// shows something.
    #[inline(never)]
    fn wrap(&mut self)
        ensures picture { Becomes self.old self.new (wrap self.old.size (term_of_picture self.old)) }
        ensures start { self.new.col ≡ 0 }
    {
        self.pos.col = 0;
        self.linefeed();
        // On a screen of one row the row that the cursor left is gone.
        if self.pos.row > 0 {
            self.flag_row_above();
        }
    }

    /// Flags the row above the cursor as wrapped exactly if its last column shows something.
    fn flag_row_above(&mut self)
        requires { 0 < self.old.row }
        ensures { Becomes self.old self.new (flag_above self.old.size (term_of_picture self.old)) }
    {
        self.rows[usize::from(self.pos.row) - 1].wrap(true);
    }

    /// Moves the cursor down a row. In the last row, the rows scroll up by one instead.
    pub(crate) fn linefeed(&mut self)
        ensures { Becomes self.old self.new (down self.old.size (term_of_picture self.old)) }
    {
        if self.pos.row + 1 < self.size.rows() {
            self.pos.row += 1;
        } else {
            self.scroll();
        }
    }

    /// Scrolls the rows up by one, and makes the last row blank.
    fn scroll(&mut self)
        requires { self.old.size.rows ≤ self.old.row + 1 }
        ensures { Becomes self.old self.new (down self.old.size (term_of_picture self.old)) }
    {
        let end = self.rows.len();
        self.rows.move_up(0, end, 1);
    }

    /// Moves the cursor to a place, clamped to the screen.
    pub(crate) fn goto(&mut self, row: usize, col: usize)
        ensures { Becomes self.old self.new (record (term_of_picture self.old) {
          row = min row (self.old.size.rows - 1);
          col = min col (self.old.size.cols - 1);
        }) }
    {
        self.pos = Pos {
            row: at_most(row, self.size.rows() - 1),
            col: at_most(col, self.size.cols() - 1),
        };
    }

    /// Moves the cursor to the right, at most to the last column.
    pub(crate) fn move_forward(&mut self, count: usize)
        ensures { Becomes self.old self.new (record (term_of_picture self.old) {
          col = min
              (self.old.col + count) (self.old.size.cols - 1);
        }) }
    {
        let col = usize::from(self.pos.col).saturating_add(count);
        self.pos.col = at_most(col, self.size.cols() - 1);
    }

    /// Erases this many cells from the cursor on, but none past the row's end (ECH).
    pub(crate) fn erase_chars(&mut self, count: usize)
        ensures { Becomes self.old self.new (erase self.old.size (min
            (self.old.col + count) self.old.size.cols) (term_of_picture self.old)) }
    {
        let end = usize::from(self.pos.col).saturating_add(count);
        self.erase_up_to(at_most(end, self.size.cols()));
    }

    /// Erases the columns from the cursor up to `end`, which isn't erased.
    fn erase_up_to(&mut self, end: u16)
        requires { end ≤ self.old.size.cols }
        ensures { Becomes self.old self.new (erase self.old.size end (term_of_picture self.old)) }
    {
        let start = self.pos.col;
        self.rows[usize::from(self.pos.row)].erase_range(start..end, self.attrs.attrs());
    }

    /// Erases the cursor's row from the cursor to its end (EL).
    pub(crate) fn erase_right(&mut self)
        ensures { Becomes self.old self.new (erase self.old.size self.old.size.cols (term_of_picture self.old)) }
    {
        self.erase_up_to(self.size.cols());
    }

    /// Erases the cursor's row from the cursor to its end, and every row below (ED).
    pub(crate) fn erase_below(&mut self)
        ensures { Becomes self.old self.new (erase_below self.old.size (term_of_picture self.old)) }
    {
        let row = usize::from(self.pos.row);
        let width = self.size.cols();
        self.rows
            .erase_forward(row, self.pos.col, width, self.attrs.attrs());
    }

    /// Moves the cursor to the left.
    pub(crate) fn backspace(&mut self)
        ensures { Becomes self.old self.new (record (term_of_picture self.old) { col = self.old.col - 1 }) }
    {
        self.pos.col = self.pos.col.saturating_sub(1);
    }

    /// Moves the cursor to the first column.
    pub(crate) fn carriage_return(&mut self)
        ensures { Becomes self.old self.new (record (term_of_picture self.old) { col = 0 }) }
    {
        self.pos.col = 0;
    }

    /// Saves the cursor and the drawing attributes.
    pub(crate) fn save_cursor(&mut self)
        ensures { Becomes self.old self.new (cursor_saved (term_of_picture self.old)) }
    {
        self.saved_pos = self.pos;
        self.saved_attrs = self.attrs.attrs();
    }

    /// Restores the cursor and the drawing attributes that were saved last.
    pub(crate) fn restore_cursor(&mut self)
        ensures { Becomes self.old self.new (cursor_restored (term_of_picture self.old)) }
    {
        self.pos = self.saved_pos;
        self.attrs = PackedAttrs::of(self.saved_attrs);
    }
}

/// Readers of the picture.
impl Picture {
    /// The cell at a place, if there is one.
    pub(crate) fn cell(&self, row: u16, col: u16) -> Option<&Cell>
        ensures { option_copied result ≡ cell_shown self.now.size (term_of_picture self.now) row col }
    {
        self.rows.get(usize::from(row))?.get(col)
    }

    /// Whether the text of a row wraps into the next row.
    pub(crate) fn row_wrapped(&self, row: u16) -> bool
        ensures { result ≡ (term_of_picture self.now).wrapped row }
    {
        match self.rows.get(usize::from(row)) {
            Some(row) => row.wrapped(),
            None => false,
        }
    }

    /// The cells of a row; none past the last row.
    pub(crate) fn row_cells(&self, row: u16) -> &[Cell]
        ensures { line_text (cell_at result.now) 0 (length result.now) ≡ text_shown self.now.size
            (term_of_picture self.now) row }
    {
        match self.rows.get(usize::from(row)) {
            Some(row) => row.cells(),
            None => &[],
        }
    }
}

/// The smaller of the number and the bound.
fn at_most(n: usize, bound: u16) -> u16
    ensures { result ≡ min n bound }
{
    n.min(usize::from(bound)) as u16
}

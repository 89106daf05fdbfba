//! One cell of a terminal.
ghost use Rattle.std.specs.Prelude.{◌≡◌, ℕ, ◌+◌, ◌-◌, ◌<◌, ◌≤◌, ◌↔◌, ◌==◌, List, [], ◌∷◌, ◌++◌, length, IsTrue, true};
ghost use Rattle.std.specs.Prelude.{false, not, nat_eq, nat_lt, encode_utf8_all, chars};
ghost use Rattle.vt100_forms.specs.Attrs.{attrs_eq, is_bold, is_dim, is_italic, is_underlined, is_inverse};
ghost use Rattle.vt100_cells.specs.Cell.{IsCell, cell_eq};

mod glyph;
mod packed;

use crate::cell_color::CellColor;
use crate::cell_text::CellText;
pub use glyph::Glyph;
pub use packed::PackedAttrs;
use std::marker::Model;
use std::mem::size_of;
use vt100_forms::attrs::Attrs;
use vt100_forms::{CHAR_BYTES, Color, TextRun};

/// Which columns of its row a cell takes.
#[derive(Clone, Copy, Debug, Eq, PartialEq)]
pub(crate) enum Span {
    /// The cell has one column of its own.
    Narrow,
    /// The cell takes the next column too.
    Wide,
    /// The cell is the second column of the one before it.
    Continuation,
}

/// One cell of a terminal: its text, whether it takes two columns, and how it is drawn.
///
/// A cell takes 32 bytes, and its text lies in it. The text is a character that takes one or two columns and after it
/// zero-width ones, each of which was put on while there were fewer than 18 bytes: 21 bytes at most.
#[derive(Clone, Copy, Debug)]
pub struct Cell {
    // In this order the attributes, the span and the start of the text are the first 16 bytes.
    fgcolor: CellColor,
    bgcolor: CellColor,
    mode: u8,
    span: Span,
    text: CellText,
}

const _: () = prove!(size_of::<Cell>() <= 32);

impl Model for Cell {
    ghost use Rattle.vt100_cells.specs.Cell.{CellView, IsCell};

    ghost Value = { CellView };

    ghost use Rattle.vt100_cells.specs.CellFields.{view_of, inside_of, inside_of-view_of};

    ghost view = { view_of };

    ghost invariant = { λ c. IsCell (view_of c) };

    ghost inverse = { inside_of };

    ghost inverse_ok = { inside_of-view_of };
}

impl PartialEq for Cell {
    ghost use Rattle.vt100_cells.specs.CellEq.{cell_eq-per};

    ghost eq = { cell_eq };

    ghost laws = { cell_eq-per };

    fn eq(&self, other: &Self) -> bool
        ensures value { result ≡ cell_eq self.now other.now }
        ensures same { IsTrue result ↔ (self.now ≡ other.now) }
    {
        is_same(self, other)
    }
}

/// Whether two cells have the same text, columns and attributes.
#[inline(always)]
pub(crate) fn is_same(cell: &Cell, other: &Cell) -> bool
    ensures { result ≡ cell_eq cell.now other.now }
{
    cell.has_start_of(other) && cell.has_rest_of(other)
}

impl Eq for Cell {
    ghost use Rattle.vt100_cells.specs.CellEq.{cell_eq-equiv};

    ghost laws = { cell_eq-equiv };
}

impl Cell {
    ghost use Rattle.std.specs.Prelude.{Some};
    ghost use Rattle.vt100_cells.specs.Cell.{empty_cell, default_cell, continuation_cell, cell_of, appended};
    ghost use Rattle.vt100_cells.specs.Cell.{appended_in_place, drawn_columns, has_room};
    ghost use Rattle.vt100_cells.specs.Cell.{has_text, is_default};
    ghost use Rattle.vt100_cells.specs.CellFields.{cell_start_eq, fits_start};

    /// A cell that shows nothing, with default attributes.
    pub fn new() -> Self
        ensures { result ≡ default_cell }
    {
        Cell::empty(Attrs::new())
    }

    /// A cell that shows nothing, with these attributes.
    #[doc(hidden)]
    pub fn empty(attrs: Attrs) -> Self
        ensures { result ≡ empty_cell attrs }
    {
        Cell {
            text: CellText::new(),
            span: Span::Narrow,
            fgcolor: CellColor::new(attrs.fgcolor),
            bgcolor: CellColor::new(attrs.bgcolor),
            mode: attrs.mode,
        }
    }

    /// The second column of a wide character.
    #[doc(hidden)]
    pub fn continuation() -> Self
        ensures { result ≡ continuation_cell }
    {
        Cell {
            text: CellText::new(),
            span: Span::Continuation,
            fgcolor: CellColor::new(Color::Default),
            bgcolor: CellColor::new(Color::Default),
            mode: 0,
        }
    }

    /// A cell that holds `c`, which takes `columns` columns. For rows alone.
    #[doc(hidden)]
    #[inline]
    pub fn of_char(c: char, columns: u16, attrs: Attrs) -> Self
        requires drawn { drawn_columns c ≡ Some columns }
        requires spacing { 0 < columns }
        ensures { result ≡ cell_of c attrs }
    {
        Cell {
            text: CellText::of_char(c),
            span: if columns == 2 {
                Span::Wide
            } else {
                Span::Narrow
            },
            fgcolor: CellColor::new(attrs.fgcolor),
            bgcolor: CellColor::new(attrs.bgcolor),
            mode: attrs.mode,
        }
    }

    /// Whether the text takes one more zero-width character. For rows alone.
    #[doc(hidden)]
    #[inline]
    pub fn has_room(&self) -> bool
        ensures { result ≡ has_room self.now.text }
    {
        self.text.has_room()
    }

    /// The cell with one more zero-width character, which is dropped where 18 bytes or more are kept. U+FE0F can make
    /// a narrow cell wide. For rows alone.
    #[doc(hidden)]
    pub fn joined(self, c: char) -> Self
        requires zero_width { drawn_columns c ≡ Some 0 }
        requires no_half { self.continuation ≡ false }
        ensures { result ≡ appended self c }
    {
        if !self.text.has_room() {
            return self;
        }
        let mut text = self.text;
        text.join(c);
        let span = if text.is_widened_by(c) {
            Span::Wide
        } else {
            self.span
        };
        Cell {
            text,
            span,
            fgcolor: self.fgcolor,
            bgcolor: self.bgcolor,
            mode: self.mode,
        }
    }

    /// Adds a character of no columns to the text, where U+FE0F makes no cell wide. For rows alone.
    #[doc(hidden)]
    #[inline]
    pub fn join_in_place(&mut self, c: char)
        requires zero_width { drawn_columns c ≡ Some 0 }
        requires no_half { self.old.continuation ≡ false }
        ensures { self.new ≡ appended_in_place self.old c }
    {
        if self.text.has_room() {
            self.text.join(c);
        }
    }

    /// The cell with other attributes. For rows alone.
    #[doc(hidden)]
    pub fn with_attrs(self, attrs: Attrs) -> Self
        requires { self.continuation ≡ false }
        ensures { result ≡ record self { attrs = attrs } }
    {
        Cell {
            text: self.text,
            span: self.span,
            fgcolor: CellColor::new(attrs.fgcolor),
            bgcolor: CellColor::new(attrs.bgcolor),
            mode: attrs.mode,
        }
    }

    /// The text, a character and the zero-width ones that joined it; empty where the cell shows nothing.
    pub fn contents(&self) -> &str
        ensures bytes { result.now ≡ encode_utf8_all self.now.text }
        ensures characters { chars result.now ≡ self.now.text }
    {
        self.text.as_str()
    }

    /// Whether the cell has a text.
    pub fn has_contents(&self) -> bool
        ensures { result ≡ has_text self.now }
    {
        !self.text.is_empty()
    }

    /// Whether the cell has a text, and one of at most four bytes. For redraws alone.
    #[doc(hidden)]
    #[inline(always)]
    pub fn has_text_of_four(&self) -> bool
        ensures { IsTrue result ↔ ((has_text self.now ≡ true) × (length (encode_utf8_all self.now.text) ≤ 4)) }
    {
        let len = self.text.len();
        (len != 0) & (len <= CHAR_BYTES)
    }

    /// Puts a text of at most four bytes at the end of `run`. For redraws alone.
    #[doc(hidden)]
    #[inline(always)]
    pub fn push_text(&self, run: &mut TextRun)
        requires room { length run.old + 4 ≤ 192 }
        requires four { length (encode_utf8_all self.now.text) ≤ 4 }
        ensures { run.new ≡ run.old ++ encode_utf8_all self.now.text }
    {
        run.push_four(self.text.first_bytes(), self.text.len());
    }

    /// Puts the text at the end of `run`, 21 bytes at most. For redraws alone.
    // Mostly it has at most four bytes, which cost no call of `memcpy`.
    #[doc(hidden)]
    #[inline]
    pub fn push_contents(&self, run: &mut TextRun)
        requires { length run.old + 21 ≤ 192 }
        ensures text { run.new ≡ run.old ++ encode_utf8_all self.now.text }
        ensures few { length run.new ≤ length run.old + 21 }
    {
        if self.has_text_of_four() {
            self.push_text(run);
        } else {
            run.push_str(self.text.as_str());
        }
    }

    /// The text.
    #[inline(always)]
    pub(crate) fn text(&self) -> &CellText
        ensures { result.now ≡ self.now.text }
    {
        &self.text
    }

    /// Empties the cell, which keeps its attributes.
    #[inline(always)]
    pub(crate) fn clear(&mut self)
        ensures { self.new ≡ empty_cell self.old.attrs }
    {
        self.text = CellText::new();
        self.span = Span::Narrow;
    }

    /// Whether the cell takes the next column too.
    pub fn is_wide(&self) -> bool
        ensures value { result ≡ self.now.wide }
        ensures valid { IsCell self.now }
    {
        self.span == Span::Wide
    }

    /// Whether the cell is the second column of the cell before it.
    pub fn is_wide_continuation(&self) -> bool
        ensures { result ≡ self.now.continuation }
    {
        self.span == Span::Continuation
    }

    /// Whether this is the cell that [`new`](Self::new) makes.
    #[inline]
    pub fn is_default(&self) -> bool
        ensures { result ≡ is_default self.now }
    {
        self.text.is_empty()
            & (self.span == Span::Narrow)
            & self.fgcolor.is_default()
            & self.bgcolor.is_default()
            & (self.mode == 0)
    }

    /// Whether the cells are drawn alike. For rows alone.
    #[doc(hidden)]
    #[inline(always)]
    pub fn has_attrs_of(&self, other: &Self) -> bool
        ensures { result ≡ attrs_eq self.now.attrs other.now.attrs }
    {
        self.fgcolor.is_same(&other.fgcolor)
            & self.bgcolor.is_same(&other.bgcolor)
            & (self.mode == other.mode)
    }

    /// Whether the cells are the same but for what comes after the first bytes of their texts: cells with short texts
    /// are the same then.
    // These are the first 16 bytes of a cell, and LLVM makes one comparison of them.
    #[inline(always)]
    pub(crate) fn has_start_of(&self, other: &Self) -> bool
        ensures value { result ≡ cell_start_eq self.now other.now }
        ensures whole { cell_start_eq self.now other.now ≡ true → fits_start self.now.text ≡ true → self.now
            ≡ other.now }
    {
        self.has_attrs_of(other) & (self.span == other.span) & self.text.has_start_of(&other.text)
    }

    /// Whether cells with the same start are the same.
    #[inline(always)]
    pub(crate) fn has_rest_of(&self, other: &Self) -> bool
        ensures { cell_start_eq self.now other.now ≡ true → result ≡ cell_eq self.now other.now }
    {
        self.text.has_rest_of(&other.text)
    }

    /// How the cell is drawn.
    #[inline]
    pub fn attrs(&self) -> Attrs
        ensures { result ≡ self.now.attrs }
    {
        Attrs {
            fgcolor: self.fgcolor.color(),
            bgcolor: self.bgcolor.color(),
            mode: self.mode,
        }
    }

    /// The colour of the text.
    pub fn fgcolor(&self) -> Color
        ensures { result ≡ self.now.attrs.fgcolor }
    {
        self.fgcolor.color()
    }

    /// The colour of the background.
    pub fn bgcolor(&self) -> Color
        ensures { result ≡ self.now.attrs.bgcolor }
    {
        self.bgcolor.color()
    }

    /// Whether the text is bold.
    pub fn bold(&self) -> bool
        ensures { result ≡ is_bold self.now.attrs }
    {
        self.attrs().bold()
    }

    /// Whether the text is dim.
    pub fn dim(&self) -> bool
        ensures { result ≡ is_dim self.now.attrs }
    {
        self.attrs().dim()
    }

    /// Whether the text is italic.
    pub fn italic(&self) -> bool
        ensures { result ≡ is_italic self.now.attrs }
    {
        self.attrs().italic()
    }

    /// Whether the text is underlined.
    pub fn underline(&self) -> bool
        ensures { result ≡ is_underlined self.now.attrs }
    {
        self.attrs().underline()
    }

    /// Whether foreground and background are exchanged.
    pub fn inverse(&self) -> bool
        ensures { result ≡ is_inverse self.now.attrs }
    {
        self.attrs().inverse()
    }
}

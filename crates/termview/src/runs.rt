//! Printing characters of one column each, or of two each, many at a time.
ghost use Rattle.std.specs.Prelude.{◌≡◌, ◌⊎◌, ◌<◌, ◌≤◌, ◌+◌, ◌*◌, ◌^◌, [], IfSome, IfNone, All, length, map, set, take};
ghost use Rattle.std.specs.Char.{IsScalar};
ghost use Rattle.vte_types.specs.Call as said;
ghost use Rattle.vte_types.specs.Call.{Calls};
ghost use Rattle.vt100_cells.specs.Runs.{IsShown};
ghost use Rattle.vt100_rows.specs.Row.{placed_each};
ghost use Rattle.vt100_rows.specs.Sheet.{row_at};
ghost use Rattle.termview.specs.Picture.{Does, ShowsPrefix};

use crate::picture::Picture;
use arrayvec::ArrayVec;
use vt100_cells::{Char3, Glyph, RUN_LEN, TextGlyph, take_run};

impl Picture {
    /// Prints the characters at the start of a text that take one column each, or two each, as many as make a run.
    /// Returns the rest, or `None` if there is no such character or a row has no room for one. The effect is that of
    /// [`input`](Self::input) for each character.
    pub(crate) fn input_chars<'a>(&mut self, text: &'a str) -> Option<&'a str>
        ensures shorter { IfSome result (λ rest. length rest.now < length text.now) }
        ensures shown { IfSome result (λ rest. ShowsPrefix text.now rest.now self.old self.new) }
        ensures none { IfNone result (self.new ≡ self.old) }
    {
        if Char3::split(text, 2).is_some() {
            self.input_taken::<Char3, 2>(text, &mut ArrayVec::new())
        } else if Char3::split(text, 1).is_some() {
            self.input_taken::<Char3, 1>(text, &mut ArrayVec::new())
        } else if char::split(text, 1).is_some() {
            self.input_taken::<char, 1>(text, &mut ArrayVec::new())
        } else if char::split(text, 2).is_some() {
            self.input_taken::<char, 2>(text, &mut ArrayVec::new())
        } else {
            None
        }
    }

    /// Prints the run of characters of `COLUMNS` columns each at the start of a text, which it takes into `run`.
    /// Returns the rest, or `None` if there is no such character or a row has no room for one.
    fn input_taken<'a, G: TextGlyph, const COLUMNS: usize>(
        &mut self,
        text: &'a str,
        run: &mut ArrayVec<G, RUN_LEN>,
    ) -> Option<&'a str>
        requires columns { (COLUMNS ≡ 1) ⊎ (COLUMNS ≡ 2) }
        requires empty { run.old.items ≡ [] }
        ensures shorter { IfSome result (λ rest. length rest.now < length text.now) }
        ensures shown { IfSome result (λ rest. ShowsPrefix text.now rest.now self.old self.new) }
        ensures none { IfNone result (self.new ≡ self.old) }
    {
        if usize::from(self.size.cols()) < COLUMNS {
            return None;
        }
        let rest = take_run::<G, COLUMNS>(text, run);
        if run.is_empty() {
            return None;
        }
        self.input_run::<G, COLUMNS>(run.as_slice());
        Some(rest)
    }

    /// Prints the characters of a text, row by row. The effect is that of [`input`](Self::input) for each of them.
    ///
    /// If they take two columns each, the picture has at least two columns.
    pub(crate) fn input_run<G: Glyph, const COLUMNS: usize>(&mut self, text: &[G])
        requires columns { (COLUMNS ≡ 1) ⊎ (COLUMNS ≡ 2) }
        requires drawn { All (G.Takes COLUMNS) text.now }
        requires shown { All IsShown (map G.code text.now) }
        requires room { COLUMNS ≡ 2 → 2 ≤ self.old.size.cols }
        ensures { Calls Does self.old (map said.input (map G.code text.now)) self.new }
    {
        let mut rest = text;
        while !rest.is_empty() {
            let n = self.input_row::<G, COLUMNS>(rest);
            rest = &rest[n..];
        }
    }

    /// Prints the first characters of a text, as many as fit into a row. Returns their number.
    fn input_row<G: Glyph, const COLUMNS: usize>(&mut self, text: &[G]) -> usize
        requires some { 0 < length text.now }
        requires columns { (COLUMNS ≡ 1) ⊎ (COLUMNS ≡ 2) }
        requires drawn { All (G.Takes COLUMNS) text.now }
        requires shown { All IsShown (map G.code text.now) }
        requires room { COLUMNS ≡ 2 → 2 ≤ self.old.size.cols }
        ensures some { 0 < result }
        ensures within { result ≤ length text.now }
        ensures few { result < 2 ^ 16 }
        ensures shown { Calls Does self.old (map said.input (take result (map G.code text.now))) self.new }
        ensures cols { self.new.size.cols ≡ self.old.size.cols }
    {
        let cols = self.size.cols();
        self.make_room(COLUMNS as u16);
        let room = usize::from(cols - self.pos.col) / COLUMNS;
        let n = text.len().min(room);
        self.print_fitting::<G, COLUMNS>(&text[..n]);
        n
    }

    /// Prints the characters of a text at the cursor. Its row has enough columns left for them.
    fn print_fitting<G: Glyph, const COLUMNS: usize>(&mut self, text: &[G])
        requires columns { (COLUMNS ≡ 1) ⊎ (COLUMNS ≡ 2) }
        requires drawn { All (G.Takes COLUMNS) text.now }
        requires fits { self.old.col + COLUMNS * length text.now ≤ self.old.size.cols }
        ensures picture { self.new ≡ record self.old {
          rows = set self.old.rows self.old.row (placed_each COLUMNS (row_at self.old.rows self.old.row) self.old.col
              (map G.code text.now) self.old.attrs);
          col = self.old.col + COLUMNS * length text.now;
        } }
        ensures characters { All IsScalar (map G.code text.now) }
    {
        let col = self.pos.col;
        self.rows[usize::from(self.pos.row)].put_run::<G, COLUMNS>(col, text, &self.attrs);
        self.pos.col = col + (COLUMNS * text.len()) as u16;
    }
}

//! A character that is printed again and again.
ghost use Rattle.std.specs.Prelude.{◌≡◌, ◌⊎◌, ◌∷◌, [], ◌+◌, ◌*◌, ◌<◌, ◌≤◌, ◌==◌, ◌&&◌, OnOk, IfOk, replicate};
ghost use Rattle.vt100_cells.specs.Cell.{drawn_columns};
ghost use Rattle.vt100_rows.specs.Row.{blank_row};
ghost use Rattle.vt100_rows.specs.Sheet.{row_at};
ghost use Rattle.vt100_rows.specs.Sink.{TakesAll};

use crate::grid::Grid;
use vt100_cells::PackedAttrs;
use vt100_forms::GridError;
use vt100_rows::{Row, RowSink, Sheet, columns};

impl Grid {
    ghost use Rattle.vt100_core.specs.Grid.{IsGrid, IsAllocated, SameLimits};
    ghost use Rattle.vt100_core.specs.Text.{PrintsAll, printed_all};
    ghost use Rattle.vt100_core.specs.Scroll.{ScrollsTo};
    ghost use Rattle.vt100_core.specs.Repeat.{IsSettled, fed_alike};

    /// Prints a character `count` times, as [`print`](Self::print) of each does.
    ///
    /// Once it has filled the screen, a further row of it changes nothing but the kept rows. Then each row costs only
    /// that its first one leaves. This takes memory for a copy of the rows; without it, the characters are printed
    /// one by one.
    ///
    /// Only a call that scrolls can be refused, as [`scroll_up`](Self::scroll_up) is. After a refusal the sink has
    /// been given the rows that leave for good while some of the characters are printed, the grid is still valid, and
    /// what it shows is unspecified.
    pub fn print_times<S: RowSink>(
        &mut self,
        c: char,
        count: u16,
        attrs: &PackedAttrs,
        sink: &mut S,
    ) -> Result<(), GridError>
        requires { IsAllocated self.old }
        ensures { PrintsAll S.takes sink.old sink.new self.old self.new result (replicate count c) attrs.now }
    {
        if count > self.size.rows() {
            if let Some(columns) = columns(c) {
                if columns > 0 && columns <= self.size.cols() {
                    return self.print_over(c, columns, usize::from(count), attrs, sink);
                }
            }
        }
        self.print_each(c, usize::from(count), attrs, sink)
    }

    /// Prints a character `count` times, one by one.
    fn print_each<S: RowSink>(
        &mut self,
        c: char,
        count: usize,
        attrs: &PackedAttrs,
        sink: &mut S,
    ) -> Result<(), GridError>
        requires { IsAllocated self.old }
        ensures { PrintsAll S.takes sink.old sink.new self.old self.new result (replicate count c) attrs.now }
    {
        for _i in 0..count {
            self.print(c, attrs, sink)?;
        }
        Ok(())
    }

    /// Prints a character of one or two columns `count` times: until it has filled the screen, and then the others.
    fn print_over<S: RowSink>(
        &mut self,
        c: char,
        columns: u16,
        count: usize,
        attrs: &PackedAttrs,
        sink: &mut S,
    ) -> Result<(), GridError>
        requires allocated { IsAllocated self.old }
        requires drawn { drawn_columns c ≡ Some columns }
        requires some { 0 < columns }
        requires fits { columns ≤ self.old.width }
        ensures { PrintsAll S.takes sink.old sink.new self.old self.new result (replicate count c) attrs.now }
    {
        let first = self.screenful(columns);
        if count <= first {
            return self.print_each(c, count, attrs, sink);
        }
        self.print_each(c, first, attrs, sink)?;
        self.print_on(c, columns, count - first, attrs, sink)
    }

    /// How many characters of `columns` columns fill the screen from any place, at most.
    fn screenful(&self, columns: u16) -> usize
        requires { 0 < columns }
    {
        let per_row = usize::from(self.size.cols() / columns);
        (usize::from(self.size.rows()) + 2).saturating_mul(per_row)
    }

    /// Prints a character of one or two columns `count` times: until the cursor's row is full, and then the others.
    fn print_on<S: RowSink>(
        &mut self,
        c: char,
        columns: u16,
        count: usize,
        attrs: &PackedAttrs,
        sink: &mut S,
    ) -> Result<(), GridError>
        requires allocated { IsAllocated self.old }
        requires drawn { drawn_columns c ≡ Some columns }
        requires some { 0 < columns }
        requires fits { columns ≤ self.old.width }
        ensures { PrintsAll S.takes sink.old sink.new self.old self.new result (replicate count c) attrs.now }
    {
        let room = usize::from((self.size.cols() - self.pos.col) / columns);
        let here = count.min(room);
        self.print_each(c, here, attrs, sink)?;
        self.print_rows(c, columns, count - here, attrs, sink)
    }

    /// Prints a character of one or two columns `count` times. Where the cursor's row is full, and a further row of it
    /// makes the same rows, the others cost only what leaves.
    fn print_rows<S: RowSink>(
        &mut self,
        c: char,
        columns: u16,
        count: usize,
        attrs: &PackedAttrs,
        sink: &mut S,
    ) -> Result<(), GridError>
        requires allocated { IsAllocated self.old }
        requires drawn { drawn_columns c ≡ Some columns }
        requires some { 0 < columns }
        requires fits { columns ≤ self.old.width }
        ensures { PrintsAll S.takes sink.old sink.new self.old self.new result (replicate count c) attrs.now }
    {
        let cols = self.size.cols();
        let per_row = usize::from(cols / columns);
        if self.pos.col <= cols - columns || count < self.screenful(columns).max(per_row) {
            return self.print_each(c, count, attrs, sink);
        }
        match self.clone_drawn() {
            Err(_) => self.print_each(c, count, attrs, sink),
            Ok(before) => {
                self.print_each(c, per_row, attrs, sink)?;
                let rest = count - per_row;
                if self.is_drawn_alike(&before) {
                    return self.print_settled(c, columns, per_row, rest, attrs, sink);
                }
                self.print_each(c, rest, attrs, sink)
            }
        }
    }

    /// Prints a character of one or two columns `count` times, of which a row's worth changes nothing but the kept
    /// rows.
    fn print_settled<S: RowSink>(
        &mut self,
        c: char,
        columns: u16,
        per_row: usize,
        count: usize,
        attrs: &PackedAttrs,
        sink: &mut S,
    ) -> Result<(), GridError>
        requires allocated { IsAllocated self.old }
        requires settled { IsSettled self.old c columns per_row attrs.now }
        ensures { PrintsAll S.takes sink.old sink.new self.old self.new result (replicate count c) attrs.now }
    {
        if !self.first_row_leaves() {
            return self.print_each(c, count % per_row, attrs, sink);
        }
        match self.first_row_alone() {
            Err(_) => self.print_each(c, count, attrs, sink),
            Ok(mut spare) => {
                for _i in 0..count / per_row {
                    self.keep_first(&mut spare, sink)?;
                }
                self.print_each(c, count % per_row, attrs, sink)
            }
        }
    }

    /// Whether a line feed has the screen's first row leave.
    fn first_row_leaves(&self) -> bool
        ensures leaves { result ≡ ((self.now.top == 0) && (self.now.row == self.now.bottom)) }
        ensures valid { IsGrid self.now }
    {
        self.scroll_top == 0 && self.pos.row == self.scroll_bottom
    }

    /// A copy of the first row, and a blank one below it.
    fn first_row_alone(&self) -> Result<Sheet, GridError>
        requires { IsAllocated self.now }
        ensures { IfOk result (λ rows. rows ≡ row_at self.now.rows 0 ∷ blank_row self.now.width ∷ []) }
    {
        let alloc = self.rows.allocator();
        let mut rows = Sheet::with_capacity(alloc, 2)?;
        rows.push(self.rows[0].clone()?)?;
        rows.push(Row::new(alloc, self.size.cols())?)?;
        Ok(rows)
    }

    /// Does to the kept rows what a line feed does through which the first row leaves. `spare` has a copy of that
    /// row, before and after.
    fn keep_first<S: RowSink>(&mut self, spare: &mut Sheet, sink: &mut S) -> Result<(), GridError>
        requires allocated { IsAllocated self.old }
        requires first { self.old.top ≡ 0 }
        requires last { self.old.row ≡ self.old.bottom }
        requires spare { spare.old ≡ row_at self.old.rows 0 ∷ blank_row self.old.width ∷ [] }
        ensures scrolls { ScrollsTo S.takes sink.old sink.new self.old self.new result (fed_alike self.old) }
        ensures spare { OnOk result (spare.new ≡ spare.old) }
    {
        if self.scrollback.capacity == 0 {
            self.give_first(sink);
            return Ok(());
        }
        self.scrollback
            .scroll_off(spare, 1, 1, self.size.rows(), self.size.cols(), sink)?;
        spare[0].copy_from(&self.rows[0]);
        Ok(())
    }

    /// Gives the sink the first row, where none is kept, and counts it.
    fn give_first<S: RowSink>(&mut self, sink: &mut S)
        requires allocated { IsAllocated self.old }
        requires first { self.old.top ≡ 0 }
        requires last { self.old.row ≡ self.old.bottom }
        requires none { self.old.kept.capacity ≡ 0 }
        ensures grid { self.new ≡ (fed_alike self.old).grid }
        ensures sink { TakesAll S.takes sink.old (fed_alike self.old).sunk sink.new }
        ensures limits { SameLimits self.old self.new }
        ensures allocated { IsAllocated self.new }
    {
        self.rows.give_first(1, sink);
        if self.scrollback.enabled {
            self.scrollback.unbounded_len = self.scrollback.unbounded_len.saturating_add(1);
        }
    }
}

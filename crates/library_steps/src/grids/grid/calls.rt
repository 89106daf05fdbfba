//! Calls on a grid that may be refused memory.
ghost use Rattle.std.specs.Prelude.{◌<◌, length};
ghost use Rattle.vt100_core.specs.Grid.{IsAllocated};

use super::recovery::recovery;
use super::{Counter, copy_of};
use crate::words::{attributes_or_default, character, flag};
use case_player::{Answer, StepError, Words};
use std::alloc::Global;
use vt100_core::attrs::Attrs;
use vt100_core::{Grid, GridError, Printed, Size};

/// A call that may be refused memory.
#[derive(Clone, Copy)]
pub enum Call<'a> {
    /// Prints a text, where `\r` goes to the first column and `\n` to the next row.
    Print(&'a str),
    Text(char, Attrs),
    RowIncScroll(u16),
    ScrollUp(u16),
    ColWrap(u16, bool),
    SetSize(Size),
    SetScrollback(usize),
}

/// What a call reports, if it does: by how many lines the region scrolled, or what became of a character.
type Told = (Option<u16>, Option<Printed>);

/// The call that a step is, if it is one.
pub fn parse_call<'a>(name: &str, words: &'a Words) -> Option<Call<'a>> {
    match name {
        "print" => Some(Call::Print(words.text())),
        "text" => Some(Call::Text(character(words), attributes_or_default(words))),
        "row_inc_scroll" => Some(Call::RowIncScroll(words.place())),
        "scroll_up" => Some(Call::ScrollUp(words.place())),
        "col_wrap" => Some(Call::ColWrap(words.place(), flag(words))),
        "set_size" => Some(Call::SetSize(Size {
            rows: words.size(),
            cols: words.size(),
        })),
        "set_scrollback" => Some(Call::SetScrollback(words.count())),
        _ => None,
    }
}

/// Prints a text, where `\r` goes to the first column and `\n` to the next row.
fn print(grid: &mut Grid, text: &str, gone: &mut Counter) -> Result<(), GridError>
    requires { IsAllocated grid.old }
    ensures { IsAllocated grid.new }
{
    for c in text.chars() {
        print_character(grid, c, gone)?;
    }
    Ok(())
}

fn print_character(grid: &mut Grid, c: char, gone: &mut Counter) -> Result<Told, GridError>
    requires { IsAllocated grid.old }
    ensures { IsAllocated grid.new }
{
    match c {
        '\r' => grid.col_set(0),
        '\n' => return row_inc_scroll(grid, 1, gone),
        _ => return draw(grid, c, Attrs::new(), gone),
    }
    Ok((None, None))
}

fn draw(grid: &mut Grid, c: char, attrs: Attrs, gone: &mut Counter) -> Result<Told, GridError>
    requires { IsAllocated grid.old }
    ensures { IsAllocated grid.new }
{
    let printed = grid.text(c, attrs, gone)?;
    Ok((None, Some(printed)))
}

fn row_inc_scroll(grid: &mut Grid, count: u16, gone: &mut Counter) -> Result<Told, GridError>
    requires { IsAllocated grid.old }
    ensures { IsAllocated grid.new }
{
    let lines = grid.row_inc_scroll(count, gone)?;
    Ok((Some(lines), None))
}

/// Makes a call.
pub fn make(grid: &mut Grid, call: Call<'_>, gone: &mut Counter) -> Result<Told, GridError>
    requires { IsAllocated grid.old }
    ensures { IsAllocated grid.new }
{
    match call {
        Call::Text(c, attrs) => return draw(grid, c, attrs, gone),
        Call::RowIncScroll(count) => return row_inc_scroll(grid, count, gone),
        Call::Print(text) => print(grid, text, gone)?,
        Call::ScrollUp(count) => grid.scroll_up(count, gone)?,
        Call::ColWrap(width, wrap) => {
            let width = width.min(grid.size().cols());
            grid.col_wrap(width, wrap, gone)?;
        }
        Call::SetSize(size) => grid.set_size(size, gone)?,
        Call::SetScrollback(rows) => grid.set_scrollback(rows)?,
    }
    Ok((None, None))
}

/// Makes a call, and appends what it returns. If it is refused memory, the grid is put back as it was.
pub fn take_call(
    alloc: Global,
    grid: &mut Grid,
    call: Call<'_>,
    gone: &mut Counter,
    answer: &mut Answer,
) -> Result<(), StepError>
    requires { IsAllocated grid.old }
{
    let before = copy_of(grid)?;
    let gone_before = gone.rows;
    match make(grid, call, gone) {
        Ok(told) => {
            tell(told, answer);
            Ok(())
        }
        Err(GridError::Memory) => {
            let error = recovery(alloc, grid, call);
            *grid = before;
            gone.rows = gone_before;
            Err(error)
        }
    }
}

fn tell((lines, printed): Told, answer: &mut Answer) {
    if let Some(lines) = lines {
        answer.number(u64::from(lines));
        answer.end_line();
    }
    if let Some(printed) = printed {
        answer.debug(&printed);
        answer.end_line();
    }
}

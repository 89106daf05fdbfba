//! The rows of a screen as text.

ghost use Rattle.std.specs.Prelude.{◌≡◌, ◌++◌, IfErr, OnOk, false, string_bytes};
ghost use Rattle.recorded_screen.specs.Picture.{scrolled};
ghost use Rattle.screentext_command.specs.Texts.{cells_at, end_text, kept_text, line_at, rows_text};
ghost use Rattle.screentext_command.specs.Texts.{shown_text};
ghost use Rattle.screentext_command.specs.declared.error.TextError.TheVariants.{Memory};
ghost use Rattle.vt100.specs.Tries.{alive};

use crate::error::TextError;
use crate::rows::{Look, push_row_text};
use std::alloc::AllocError;
use vt100::{Cell, Screen};

/// Appends the newest `history` kept rows and those of the screen, a line each, unless `look` asks that a row that goes
/// on in the next be joined with it.
pub(crate) fn push_lines(
    out: &mut String,
    screen: &mut Screen,
    history: usize,
    look: Look,
) -> Result<(), TextError>
    requires { screen.old.failed ≡ false }
    ensures text { OnOk result (string_bytes out.new
        ≡ string_bytes out.old ++ rows_text look history screen.old.state) }
    ensures fault { IfErr result (λ e. e ≡ Memory) }
{
    let count = history.min(screen.scrollback_len());
    push_kept(out, screen, count, look)?;
    screen.set_scrollback(0)?;
    push_shown(out, screen, look)?;
    Ok(())
}

// The newest of the kept rows, the oldest of them first.
fn push_kept(
    out: &mut String,
    screen: &mut Screen,
    count: usize,
    look: Look,
) -> Result<(), TextError>
    requires { screen.old.failed ≡ false }
    ensures text { OnOk result (string_bytes out.new
        ≡ string_bytes out.old ++ kept_text look screen.old.state count count) }
    ensures screen { OnOk result (screen.new ≡ alive (scrolled screen.old.state count count)) }
    ensures fault { IfErr result (λ e. e ≡ Memory) }
{
    for above in 0..count {
        screen.set_scrollback(count - above)?;
        push_line(out, screen, 0, look)?;
    }
    Ok(())
}

// The rows that are shown.
fn push_shown(out: &mut String, screen: &Screen, look: Look) -> Result<(), AllocError>
    ensures { OnOk result (string_bytes out.new ≡ string_bytes out.old ++ shown_text look screen.now.state.shown) }
{
    let (rows, _) = screen.size();
    for row in 0..rows.get() {
        push_line(out, screen, row, look)?;
    }
    Ok(())
}

fn push_line(out: &mut String, screen: &Screen, row: u16, look: Look) -> Result<(), AllocError>
    ensures { OnOk result (string_bytes out.new ≡ string_bytes out.old ++ line_at look screen.now.state.shown row) }
{
    push_row_text(out, cells_of(screen, row), look)?;
    push_end(out, look.joined && screen.row_wrapped(row))?;
    Ok(())
}

// A newline, unless the row goes on in the next.
fn push_end(out: &mut String, goes_on: bool) -> Result<(), AllocError>
    ensures { OnOk result (string_bytes out.new ≡ string_bytes out.old ++ end_text goes_on) }
{
    if goes_on { Ok(()) } else { out.push('\n') }
}

/// The cells of a row that is shown. A kept row can be wider than the screen.
pub(crate) fn cells_of(screen: &Screen, row: u16) -> &[Cell]
    ensures { result.now ≡ cells_at screen.now.state.shown row }
{
    match screen.row_cells(row) {
        Some(cells) => cells,
        None => &[],
    }
}

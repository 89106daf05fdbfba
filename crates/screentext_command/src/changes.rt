//! What changed between two screens.

ghost use Rattle.std.specs.Prelude.{◌≡◌, ◌++◌, IfOk, OnOk, string_bytes};
ghost use Rattle.std.specs.Option.{option_map};
ghost use Rattle.screentext_command.specs.Texts.{are_same, changes_text, pair_text, signed_text, text_in};

use crate::rows::{Look, push_row_text};
use crate::text::cells_of;
use std::alloc::{AllocError, Global};
use std::fmt::Write;
use vt100::Screen;

/// Appends the rows in which two screens differ, those of the first after `-` and those of the second after `+`, with
/// their numbers, counted from 1. There is no line for a row that a screen doesn't have.
pub(crate) fn push_changes(
    alloc: Global,
    out: &mut String,
    before: &Screen,
    after: &Screen,
    look: Look,
) -> Result<(), AllocError>
    ensures { OnOk result (string_bytes out.new ≡ string_bytes out.old
        ++ changes_text look before.now.state.shown after.now.state.shown) }
{
    let (rows_before, _) = before.size();
    let (rows_after, _) = after.size();
    for row in 0..rows_before.get().max(rows_after.get()) {
        let old = row_of(alloc, before, row, look)?;
        let new = row_of(alloc, after, row, look)?;
        push_pair(out, row, old.as_deref(), new.as_deref())?;
    }
    Ok(())
}

// The text of a row, where there is one.
fn row_of(
    alloc: Global,
    screen: &Screen,
    row: u16,
    look: Look,
) -> Result<Option<String>, AllocError>
    ensures { IfOk result (λ text. option_map string_bytes text ≡ text_in look screen.now.state.shown row) }
{
    let (rows, _) = screen.size();
    if row >= rows.get() {
        return Ok(None);
    }
    let mut text = String::new(alloc);
    push_row_text(&mut text, cells_of(screen, row), look)?;
    Ok(Some(text))
}

// The two texts of a row, unless they are the same.
fn push_pair(
    out: &mut String,
    row: u16,
    old: Option<&str>,
    new: Option<&str>,
) -> Result<(), AllocError>
    ensures { OnOk result (string_bytes out.new ≡ string_bytes out.old ++ pair_text row
        (option_map (λ w. w.now) old.entry) (option_map (λ w. w.now) new.entry)) }
{
    if are_same(old, new) {
        return Ok(());
    }
    push_signed(out, '-', row, old)?;
    push_signed(out, '+', row, new)?;
    Ok(())
}

fn are_same(old: Option<&str>, new: Option<&str>) -> bool
    ensures { result ≡ are_same (option_map (λ w. w.now) old.entry) (option_map (λ w. w.now) new.entry) }
{
    match (old, new) {
        (None, None) => true,
        (Some(old), Some(new)) => old == new,
        _ => false,
    }
}

fn push_signed(out: &mut String, sign: char, row: u16, text: Option<&str>) -> Result<(), AllocError>
    ensures { OnOk result (string_bytes out.new ≡ string_bytes out.old ++ signed_text sign row
        (option_map (λ w. w.now) text.entry)) }
{
    let Some(text) = text else {
        return Ok(());
    };
    let number = u32::from(row) + 1;
    writeln!(out, "{sign}{number}: {text}")
}

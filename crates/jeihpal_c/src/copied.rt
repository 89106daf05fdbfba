//! Copies of screens, differences of two, and the parts of what redraws one, for C.
ghost use Rattle.std.specs.Prelude.{◌≡◌, IfOk, IfErr, None};
ghost use Rattle.c_objects.specs.Codes.{IsRefusal, ok, memory};
ghost use Rattle.c_objects.specs.Copied.{IsCopyOf, IsVisibleCopyOf, ClearsKept, Draws, ScreensSay};
ghost use Rattle.c_objects.specs.Copied.{HasRows, HasRowsDiff};
ghost use Rattle.c_objects.specs.Copied.{HasBasic, HasModes, HasAttributes, HasCursor};
ghost use Rattle.c_objects.specs.Copied.{HasContentsDiff, HasStateDiff, HasModesDiff};
ghost use Rattle.c_objects.specs.Objects.{ScreenDoes, ScreenSays};
ghost use Rattle.c_objects.specs.Words.{OnWord, InWord, InWords, GetsCopy, GetsVisibleCopy};

use crate::word::Word;
use c_objects::{CDrawing, CLOSED, OK, Object, copied, rows};
use std::alloc::Global;

fn copy_in(alloc: Global, from: &mut Word) -> Result<Box<Object>, i32>
    ensures copied { IfOk result (λ b. InWord (ScreenSays (IsCopyOf b.value)) from.old.held ok) }
    ensures refused { IfErr result (λ code. InWord (ScreenSays (λ m c. c ≡ memory)) from.old.held code) }
    ensures same { from.new.held ≡ from.old.held }
{
    match from.get_mut() {
        Some(object) => copied::clone_screen(alloc, object),
        None => Err(CLOSED),
    }
}

/// Makes a copy of the screen in `from`, and puts it into `word`: without its mark, its requests, and what it has read
/// of a character or a sequence. Refused if an allocation fails; `word` is then as it was.
///
/// An object that `word` held is closed, unless the call is refused.
#[unsafe(no_mangle)]
pub extern "C" fn jeihpal_screen_clone(alloc: Global, word: &mut Word, from: &mut Word) -> i32
    ensures says { GetsCopy from.old.held word.old.held result word.new.held }
    ensures same { from.new.held ≡ from.old.held }
{
    match copy_in(alloc, from) {
        Ok(object) => {
            word.put(alloc, object);
            OK
        }
        Err(code) => code,
    }
}

fn visible_in(alloc: Global, from: &mut Word) -> Result<Box<Object>, i32>
    ensures copied { IfOk result (λ b. InWord (ScreenSays (IsVisibleCopyOf b.value)) from.old.held ok) }
    ensures refused { IfErr result (λ code. InWord (ScreenSays (λ m c. c ≡ memory)) from.old.held code) }
    ensures same { from.new.held ≡ from.old.held }
{
    match from.get_mut() {
        Some(object) => copied::clone_visible(alloc, object),
        None => Err(CLOSED),
    }
}

/// Makes a screen that draws on copies of the rows that the screen in `from` shows, kept ones too, and keeps none, and
/// puts it into `word`. So its redraws and differences lead a terminal to what is shown. Refused if an allocation
/// fails; `word` is then as it was.
///
/// An object that `word` held is closed, unless the call is refused.
#[unsafe(no_mangle)]
pub extern "C" fn jeihpal_screen_clone_visible(
    alloc: Global,
    word: &mut Word,
    from: &mut Word,
) -> i32
    ensures says { GetsVisibleCopy from.old.held word.old.held result word.new.held }
    ensures same { from.new.held ≡ from.old.held }
{
    match visible_in(alloc, from) {
        Ok(object) => {
            word.put(alloc, object);
            OK
        }
        Err(refusal) => refusal,
    }
}

/// Removes the kept rows. Refused if the screen has failed.
#[unsafe(no_mangle)]
pub extern "C" fn jeihpal_screen_clear_scrollback(word: &mut Word) -> i32
    ensures { OnWord (ScreenDoes ClearsKept) word.old.held result word.new.held }
{
    match word.get_mut() {
        Some(object) => copied::clear_scrollback(object),
        None => CLOSED,
    }
}

/// Reads how the next character is drawn.
#[unsafe(no_mangle)]
pub extern "C" fn jeihpal_screen_drawing(word: &mut Word, drawing: &mut CDrawing) -> i32
    ensures says { InWord (ScreenSays (Draws drawing.new)) word.old.held result }
    ensures same { word.new.held ≡ word.old.held }
    ensures refused { IsRefusal result → drawing.new ≡ drawing.old }
{
    match word.get_mut() {
        Some(object) => copied::drawing(object, drawing),
        None => CLOSED,
    }
}

/// Copies the rows as text with its attributes: no control sequences but SGR, and no control characters but newlines.
/// Refused if an allocation fails.
#[unsafe(no_mangle)]
pub extern "C" fn jeihpal_screen_contents_formatted_basic(
    word: &mut Word,
    to: &mut [u8],
    count: &mut usize,
) -> i32
    ensures says { InWord (ScreenSays (HasBasic to.old to.new count.new)) word.old.held result }
    ensures same { word.new.held ≡ word.old.held }
    ensures refused { IsRefusal result → (to.new ≡ to.old) × (count.new ≡ count.old) }
{
    match word.get_mut() {
        Some(object) => copied::basic(object, to, count),
        None => CLOSED,
    }
}

/// Copies the bytes that set a terminal's modes, and its cursor's style. Refused if an allocation fails.
#[unsafe(no_mangle)]
pub extern "C" fn jeihpal_screen_input_mode_formatted(
    word: &mut Word,
    to: &mut [u8],
    count: &mut usize,
) -> i32
    ensures says { InWord (ScreenSays (HasModes to.old to.new count.new)) word.old.held result }
    ensures same { word.new.held ≡ word.old.held }
    ensures refused { IsRefusal result → (to.new ≡ to.old) × (count.new ≡ count.old) }
{
    match word.get_mut() {
        Some(object) => copied::modes(object, to, count),
        None => CLOSED,
    }
}

/// Copies the bytes that set how a terminal draws the next character. Refused if an allocation fails.
#[unsafe(no_mangle)]
pub extern "C" fn jeihpal_screen_attributes_formatted(
    word: &mut Word,
    to: &mut [u8],
    count: &mut usize,
) -> i32
    ensures says { InWord (ScreenSays (HasAttributes to.old to.new count.new)) word.old.held result }
    ensures same { word.new.held ≡ word.old.held }
    ensures refused { IsRefusal result → (to.new ≡ to.old) × (count.new ≡ count.old) }
{
    match word.get_mut() {
        Some(object) => copied::attributes(object, to, count),
        None => CLOSED,
    }
}

/// Copies the bytes that bring a terminal's cursor to the screen's, and hide or show it. Refused if an allocation
/// fails.
#[unsafe(no_mangle)]
pub extern "C" fn jeihpal_screen_cursor_state_formatted(
    word: &mut Word,
    to: &mut [u8],
    count: &mut usize,
) -> i32
    ensures says { InWord (ScreenSays (HasCursor to.old to.new count.new)) word.old.held result }
    ensures same { word.new.held ≡ word.old.held }
    ensures refused { IsRefusal result → (to.new ≡ to.old) × (count.new ≡ count.old) }
{
    match word.get_mut() {
        Some(object) => copied::cursor(object, to, count),
        None => CLOSED,
    }
}

/// Copies the bytes that take a terminal from the picture of `earlier` to that of the screen. Refused if an allocation
/// fails.
#[unsafe(no_mangle)]
pub extern "C" fn jeihpal_screen_contents_diff(
    word: &mut Word,
    earlier: &mut Word,
    to: &mut [u8],
    count: &mut usize,
) -> i32
    ensures says { InWords (ScreensSay (HasContentsDiff to.old to.new count.new)) word.old.held earlier.old.held
        result }
    ensures same { word.new.held ≡ word.old.held }
    ensures same_earlier { earlier.new.held ≡ earlier.old.held }
    ensures refused { IsRefusal result → (to.new ≡ to.old) × (count.new ≡ count.old) }
{
    let Some(object) = word.get_mut() else {
        return CLOSED;
    };
    match earlier.get_mut() {
        Some(earlier) => copied::contents_diff(object, earlier, to, count),
        None => CLOSED,
    }
}

/// Copies the bytes that take a terminal from all that `earlier` shows to all that the screen shows. Refused if an
/// allocation fails.
#[unsafe(no_mangle)]
pub extern "C" fn jeihpal_screen_state_diff(
    word: &mut Word,
    earlier: &mut Word,
    to: &mut [u8],
    count: &mut usize,
) -> i32
    ensures says { InWords (ScreensSay (HasStateDiff to.old to.new count.new)) word.old.held earlier.old.held result }
    ensures same { word.new.held ≡ word.old.held }
    ensures same_earlier { earlier.new.held ≡ earlier.old.held }
    ensures refused { IsRefusal result → (to.new ≡ to.old) × (count.new ≡ count.old) }
{
    let Some(object) = word.get_mut() else {
        return CLOSED;
    };
    match earlier.get_mut() {
        Some(earlier) => copied::state_diff(object, earlier, to, count),
        None => CLOSED,
    }
}

/// Copies the bytes that take a terminal from the modes of `earlier` to those of the screen. Refused if an allocation
/// fails.
#[unsafe(no_mangle)]
pub extern "C" fn jeihpal_screen_input_mode_diff(
    word: &mut Word,
    earlier: &mut Word,
    to: &mut [u8],
    count: &mut usize,
) -> i32
    ensures says { InWords (ScreensSay (HasModesDiff to.old to.new count.new)) word.old.held earlier.old.held result }
    ensures same { word.new.held ≡ word.old.held }
    ensures same_earlier { earlier.new.held ≡ earlier.old.held }
    ensures refused { IsRefusal result → (to.new ≡ to.old) × (count.new ≡ count.old) }
{
    let Some(object) = word.get_mut() else {
        return CLOSED;
    };
    match earlier.get_mut() {
        Some(earlier) => copied::modes_diff(object, earlier, to, count),
        None => CLOSED,
    }
}

/// Copies the bytes that draw each row: `width` columns from column `start` on. The rows' bytes follow one another,
/// and `lengths` says how many each row has. `count` is set to how many bytes there are in all, and `rows_count` to
/// how many rows. Refused if an allocation fails.
#[unsafe(no_mangle)]
pub extern "C" fn jeihpal_screen_rows_formatted(
    alloc: Global,
    word: &mut Word,
    start: u16,
    width: u16,
    to: &mut [u8],
    count: &mut usize,
    lengths: &mut [usize],
    rows_count: &mut usize,
) -> i32
    ensures says { InWord (ScreenSays (HasRows (start, width) to.old to.new count.new lengths.old lengths.new
        rows_count.new)) word.old.held result }
    ensures same { word.new.held ≡ word.old.held }
    ensures refused { IsRefusal result → (to.new ≡ to.old) × (count.new ≡ count.old) × (lengths.new ≡ lengths.old)
        × (rows_count.new ≡ rows_count.old) }
{
    match word.get_mut() {
        Some(object) => {
            rows::rows_formatted(
                alloc,
                object,
                (start, width),
                to,
                count,
                lengths,
                rows_count,
            )
        }
        None => CLOSED,
    }
}

/// Copies the bytes that draw each row over the row that `earlier` shows there, as `jeihpal_screen_rows_formatted`
/// does. Refused if an allocation fails.
#[unsafe(no_mangle)]
pub extern "C" fn jeihpal_screen_rows_diff(
    alloc: Global,
    word: &mut Word,
    earlier: &mut Word,
    start: u16,
    width: u16,
    to: &mut [u8],
    count: &mut usize,
    lengths: &mut [usize],
    rows_count: &mut usize,
) -> i32
    ensures says { InWords (ScreensSay (HasRowsDiff (start, width) to.old to.new count.new lengths.old lengths.new
        rows_count.new)) word.old.held earlier.old.held result }
    ensures same { word.new.held ≡ word.old.held }
    ensures same_earlier { earlier.new.held ≡ earlier.old.held }
    ensures refused { IsRefusal result → (to.new ≡ to.old) × (count.new ≡ count.old) × (lengths.new ≡ lengths.old)
        × (rows_count.new ≡ rows_count.old) }
{
    let Some(object) = word.get_mut() else {
        return CLOSED;
    };
    match earlier.get_mut() {
        Some(earlier) => {
            let cols = (start, width);
            rows::rows_diff(alloc, object, earlier, cols, to, count, lengths, rows_count)
        }
        None => CLOSED,
    }
}

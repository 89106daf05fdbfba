//! A copy of a screen, the differences of two screens, and the parts of a screen's redraw.
ghost use Rattle.std.specs.Prelude.{◌≡◌, IfOk, IfErr};
ghost use Rattle.c_objects.specs.Codes.{IsRefusal, ok, memory};
ghost use Rattle.c_objects.specs.Copied.{IsMadeOf, IsScreenOf, IsCopyOf, IsVisibleCopyOf, ClearsKept, Draws};
ghost use Rattle.c_objects.specs.Copied.{ScreensSay};
ghost use Rattle.c_objects.specs.Copied.{HasBasic, HasModes, HasAttributes, HasCursor};
ghost use Rattle.c_objects.specs.Copied.{HasContentsDiff, HasStateDiff, HasModesDiff};
ghost use Rattle.c_objects.specs.Objects.{ScreenDoes, ScreenSays};

use crate::code::{FAILED, MEMORY, OK, OTHER_KIND};
use crate::copy::copy_text;
use crate::look::screen_drawing;
use crate::object::{Marked, Object};
use crate::plain::CDrawing;
use crate::requests::Requests;
use std::alloc::Global;
use std::num::NonZeroU16;
use vt100::{Parser, Screen};

/// An object around a screen, which has read nothing since.
pub(crate) fn marked_of(alloc: Global, screen: Screen) -> Result<Marked, i32>
    ensures made { IfOk result (λ n. IsMadeOf screen n) }
    ensures refused { IfErr result (λ code. code ≡ memory) }
{
    let Ok(requests) = Requests::new(alloc) else {
        return Err(MEMORY);
    };
    let one = NonZeroU16::MIN;
    let Ok(mut parser) = Parser::new_with_callbacks(alloc, one, one, 0, requests) else {
        return Err(MEMORY);
    };
    *parser.screen_mut() = screen;
    Ok(Marked { parser, mark: None })
}

fn boxed_screen(alloc: Global, screen: Screen) -> Result<Box<Object>, i32>
    ensures made { IfOk result (λ b. IsScreenOf screen b.value) }
    ensures refused { IfErr result (λ code. code ≡ memory) }
{
    let marked = marked_of(alloc, screen)?;
    match Box::new(alloc, Object::Screen(marked)) {
        Ok(b) => Ok(b),
        Err(_) => Err(MEMORY),
    }
}

fn boxed_copy(alloc: Global, marked: &Marked) -> Result<Box<Object>, i32>
    ensures copied { IfOk result (λ b. IsCopyOf b.value marked.now ok) }
    ensures refused { IfErr result (λ code. code ≡ memory) }
{
    match marked.parser.screen().clone() {
        Ok(copy) => boxed_screen(alloc, copy),
        Err(_) => Err(MEMORY),
    }
}

fn boxed_visible(alloc: Global, marked: &Marked) -> Result<Box<Object>, i32>
    ensures copied { IfOk result (λ b. IsVisibleCopyOf b.value marked.now ok) }
    ensures refused { IfErr result (λ code. code ≡ memory) }
{
    match marked.parser.screen().clone_visible() {
        Ok(copy) => boxed_screen(alloc, copy),
        Err(_) => Err(MEMORY),
    }
}

/// Makes a copy of a screen, without its mark, its requests, and what it has read of a character or a sequence. Refused
/// if an allocation fails.
pub fn clone_screen(alloc: Global, object: &Object) -> Result<Box<Object>, i32>
    ensures copied { IfOk result (λ b. ScreenSays (IsCopyOf b.value) object.now ok) }
    ensures refused { IfErr result (λ code. ScreenSays (λ m c. c ≡ memory) object.now code) }
{
    match object {
        Object::Screen(marked) => boxed_copy(alloc, marked),
        _ => Err(OTHER_KIND),
    }
}

/// Makes a screen that draws on copies of the rows that a screen shows, kept ones too, and keeps none. Refused if an
/// allocation fails.
pub fn clone_visible(alloc: Global, object: &Object) -> Result<Box<Object>, i32>
    ensures copied { IfOk result (λ b. ScreenSays (IsVisibleCopyOf b.value) object.now ok) }
    ensures refused { IfErr result (λ code. ScreenSays (λ m c. c ≡ memory) object.now code) }
{
    match object {
        Object::Screen(marked) => boxed_visible(alloc, marked),
        _ => Err(OTHER_KIND),
    }
}

fn clear_kept(marked: &mut Marked) -> i32
    ensures { ClearsKept marked.old result marked.new }
{
    if marked.parser.screen().failed() {
        return FAILED;
    }
    marked.parser.screen_mut().clear_scrollback();
    OK
}

/// Removes the kept rows of a screen.
pub fn clear_scrollback(object: &mut Object) -> i32
    ensures { ScreenDoes ClearsKept object.old result object.new }
{
    match object {
        Object::Screen(marked) => clear_kept(marked),
        _ => OTHER_KIND,
    }
}

/// Reads how the next character is drawn.
pub fn drawing(object: &Object, drawing: &mut CDrawing) -> i32
    ensures draws { ScreenSays (Draws drawing.new) object.now result }
    ensures refused { IsRefusal result → drawing.new ≡ drawing.old }
{
    match object {
        Object::Screen(marked) => {
            *drawing = screen_drawing(marked.parser.screen());
            OK
        }
        _ => OTHER_KIND,
    }
}

/// Copies the rows of a screen as text with its attributes alone.
pub fn basic(object: &Object, to: &mut [u8], count: &mut usize) -> i32
    ensures text { ScreenSays (HasBasic to.old to.new count.new) object.now result }
    ensures refused { IsRefusal result → (to.new ≡ to.old) × (count.new ≡ count.old) }
{
    match object {
        Object::Screen(marked) => copy_text(
            marked.parser.screen().contents_formatted_basic(),
            to,
            count,
        ),
        _ => OTHER_KIND,
    }
}

/// Copies the bytes that set a screen's modes and its cursor's style.
pub fn modes(object: &Object, to: &mut [u8], count: &mut usize) -> i32
    ensures text { ScreenSays (HasModes to.old to.new count.new) object.now result }
    ensures refused { IsRefusal result → (to.new ≡ to.old) × (count.new ≡ count.old) }
{
    match object {
        Object::Screen(marked) => copy_text(
            marked.parser.screen().input_mode_formatted(),
            to,
            count,
        ),
        _ => OTHER_KIND,
    }
}

/// Copies the bytes that set how the next character is drawn.
pub fn attributes(object: &Object, to: &mut [u8], count: &mut usize) -> i32
    ensures text { ScreenSays (HasAttributes to.old to.new count.new) object.now result }
    ensures refused { IsRefusal result → (to.new ≡ to.old) × (count.new ≡ count.old) }
{
    match object {
        Object::Screen(marked) => copy_text(
            marked.parser.screen().attributes_formatted(),
            to,
            count,
        ),
        _ => OTHER_KIND,
    }
}

/// Copies the bytes that bring a terminal's cursor to a screen's.
pub fn cursor(object: &Object, to: &mut [u8], count: &mut usize) -> i32
    ensures text { ScreenSays (HasCursor to.old to.new count.new) object.now result }
    ensures refused { IsRefusal result → (to.new ≡ to.old) × (count.new ≡ count.old) }
{
    match object {
        Object::Screen(marked) => copy_text(
            marked.parser.screen().cursor_state_formatted(),
            to,
            count,
        ),
        _ => OTHER_KIND,
    }
}

/// Copies the bytes that take a terminal from the picture of an earlier screen to that of a screen.
pub fn contents_diff(object: &Object, earlier: &Object, to: &mut [u8], count: &mut usize) -> i32
    ensures text { ScreensSay (HasContentsDiff to.old to.new count.new) object.now earlier.now result }
    ensures refused { IsRefusal result → (to.new ≡ to.old) × (count.new ≡ count.old) }
{
    match (object, earlier) {
        (Object::Screen(marked), Object::Screen(before)) => {
            let before = before.parser.screen();
            copy_text(marked.parser.screen().contents_diff(before), to, count)
        }
        _ => OTHER_KIND,
    }
}

/// Copies the bytes that take a terminal from all that an earlier screen shows to all that a screen shows.
pub fn state_diff(object: &Object, earlier: &Object, to: &mut [u8], count: &mut usize) -> i32
    ensures text { ScreensSay (HasStateDiff to.old to.new count.new) object.now earlier.now result }
    ensures refused { IsRefusal result → (to.new ≡ to.old) × (count.new ≡ count.old) }
{
    match (object, earlier) {
        (Object::Screen(marked), Object::Screen(before)) => {
            let before = before.parser.screen();
            copy_text(marked.parser.screen().state_diff(before), to, count)
        }
        _ => OTHER_KIND,
    }
}

/// Copies the bytes that take a terminal from the modes of an earlier screen to those of a screen.
pub fn modes_diff(object: &Object, earlier: &Object, to: &mut [u8], count: &mut usize) -> i32
    ensures text { ScreensSay (HasModesDiff to.old to.new count.new) object.now earlier.now result }
    ensures refused { IsRefusal result → (to.new ≡ to.old) × (count.new ≡ count.old) }
{
    match (object, earlier) {
        (Object::Screen(marked), Object::Screen(before)) => {
            let before = before.parser.screen();
            copy_text(marked.parser.screen().input_mode_diff(before), to, count)
        }
        _ => OTHER_KIND,
    }
}

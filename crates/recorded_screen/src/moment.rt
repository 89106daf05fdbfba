//! The screen at a moment of a recording.

ghost use Rattle.std.specs.Prelude.{◌≡◌, ◌++◌, ◌∷◌, [], ℕ, false, List, Err, IfOk, OnErr, OnOk};
ghost use Rattle.vt100.specs.Parsing.{ParserIsAfter};
ghost use Rattle.screen_model.specs.Made.{Act};
ghost use Rattle.vt100.specs.declared.error.ScreenError.TheVariants.{Memory};
ghost use Rattle.recorded_screen.specs.Moment.{act_of, acts_until};

use recordings::{Change, Event, ScreenSize};
use std::alloc::Global;
use vt100::{Parser, ScreenError};

/// The moment at which a recording has ended.
pub const END: u64 = u64::MAX;

/// The terminal at a moment: a new one to which the events up to that time were applied, in order. It is refused only
/// for memory.
pub fn terminal_at(
    alloc: Global,
    size: ScreenSize,
    capacity: usize,
    events: &[Event],
    moment: u64,
) -> Result<Parser<()>, ScreenError>
    ensures shows { IfOk result (λ p. ParserIsAfter p size.rows.value size.cols.value capacity
        (acts_until moment events.now)) }
    ensures memory { OnErr result (result ≡ Err Memory) }
{
    let mut parser = Parser::new(alloc, size.rows, size.cols, capacity)?;
    play(&mut parser, events, moment)?;
    Ok(parser)
}

// Applies the events up to a moment.
fn play(parser: &mut Parser<()>, events: &[Event], moment: u64) -> Result<(), ScreenError>
    requires live { parser.old.screen.failed ≡ false }
    ensures live { OnOk result (parser.new.screen.failed ≡ false) }
    ensures memory { OnErr result (result ≡ Err Memory) }
    ensures shows { OnOk result ((rows cols capacity : ℕ) (acts : List Act) → ParserIsAfter parser.old rows cols
        capacity acts
        → ParserIsAfter parser.new rows cols capacity (acts ++ acts_until moment events.now)) }
{
    for event in events {
        step(parser, event, moment)?;
    }
    Ok(())
}

// Applies an event, unless it comes after a moment.
fn step(parser: &mut Parser<()>, event: &Event, moment: u64) -> Result<(), ScreenError>
    requires live { parser.old.screen.failed ≡ false }
    ensures live { OnOk result (parser.new.screen.failed ≡ false) }
    ensures memory { OnErr result (result ≡ Err Memory) }
    ensures shows { OnOk result ((rows cols capacity : ℕ) (acts : List Act) → ParserIsAfter parser.old rows cols
        capacity acts
        → ParserIsAfter parser.new rows cols capacity (acts ++ acts_until moment (event.now ∷ []))) }
{
    if event.time > moment {
        return Ok(());
    }
    act(parser, &event.change)
}

/// Applies an event's change.
pub fn act(parser: &mut Parser<()>, change: &Change) -> Result<(), ScreenError>
    requires live { parser.old.screen.failed ≡ false }
    ensures live { OnOk result (parser.new.screen.failed ≡ false) }
    ensures memory { OnErr result (result ≡ Err Memory) }
    ensures shows { OnOk result ((rows cols capacity : ℕ) (acts : List Act) → ParserIsAfter parser.old rows cols
        capacity acts
        → ParserIsAfter parser.new rows cols capacity (acts ++ act_of change.now ∷ [])) }
{
    match change {
        Change::Output(bytes) => parser.process(bytes),
        Change::Resize(size) => parser.set_size(size.rows, size.cols),
        Change::Marker(_) => parser.process(b""),
    }
}

//! Asciicasts of version 1: one object, whose outputs have the times between them.

ghost use Rattle.std.specs.Prelude.{◌≡◌, IfOk, Some, option_and_then, codes};
ghost use Rattle.std.specs.Option.{option_map};
ghost use Rattle.serde_json.specs.Find.{as_array, get};
ghost use Rattle.serde_json.specs.View.{items_view, view};
ghost use Rattle.recordings.specs.FirstVersion.{AreOutputs, IsReadObject, first_version, is_first, output_in};
ghost use Rattle.recordings.specs.Recorded.{writes};

use crate::asciicast::size_of;
use crate::details::{idle_in, title_in};
use crate::lines::unmarked;
use crate::recording::{Change, Kind, Recording};
use crate::theme::theme_in;
use crate::time::{microseconds, parse_json};
use crate::timeline::{Pace, Timeline};
use serde_json::Value;
use std::alloc::{AllocError, Global};

/// The object that a text is, if it is an object of version 1.
pub(crate) fn parse_object(alloc: Global, text: &[u8]) -> Result<Option<Value>, AllocError>
    ensures { IfOk result (λ object. option_map view object ≡ first_version text.now) }
{
    match parse_json(alloc, unmarked(text))? {
        Some(object) => Ok(if is_first_version(&object) {
            Some(object)
        } else {
            None
        }),
        None => Ok(None),
    }
}

fn is_first_version(object: &Value) -> bool
    ensures { result ≡ is_first (view object.now) }
{
    match object.get("version") {
        Some(version) => version.as_u64() == Some(1),
        None => false,
    }
}

/// What an object of version 1 says, if it has a size and outputs.
pub(crate) fn read_object(alloc: Global, object: &Value) -> Result<Option<Recording>, AllocError>
    ensures { IfOk result (IsReadObject (view object.now)) }
{
    let Some(size) = size_of(object, "height", "width") else {
        return Ok(None);
    };
    let Some(outputs) = outputs_of(object) else {
        return Ok(None);
    };
    let Some(timeline) = read_outputs(alloc, outputs)? else {
        return Ok(None);
    };
    Ok(Some(Recording {
        kind: Kind::Asciicast,
        size: Some(size),
        theme: theme_in(object),
        idle: idle_in(object),
        title: title_in(alloc, object)?,
        events: timeline.events,
        length: timeline.time,
    }))
}

fn outputs_of(object: &Value) -> Option<&[Value]>
    ensures { option_map (λ vs. items_view vs.now) result
        ≡ option_and_then as_array (get (codes "stdout") (view object.now)) }
{
    Some(object.get("stdout")?.as_array()?.as_slice())
}

// Reads outputs. Returns `None` if one of the values isn't an output.
fn read_outputs(alloc: Global, outputs: &[Value]) -> Result<Option<Timeline>, AllocError>
    ensures { IfOk result (AreOutputs (items_view outputs.now)) }
{
    let mut timeline = Timeline::new(alloc, Pace::FromLast);
    for output in outputs {
        let Some((time, text)) = output_of(output) else {
            return Ok(None);
        };
        let bytes = text.as_bytes().to_vec(alloc)?;
        timeline.push(time, Some(Change::Output(bytes)))?;
    }
    Ok(Some(timeline))
}

// Reads `[DELAY, TEXT]`. What follows is passed over.
fn output_of(value: &Value) -> Option<(u64, &str)>
    ensures { option_map (λ o. (o.0, Some (writes o.1.now))) result ≡ output_in (view value.now) }
{
    let [time, text, ..] = value.as_array()?.as_slice() else {
        return None;
    };
    Some((microseconds(time)?, text.as_str()?))
}

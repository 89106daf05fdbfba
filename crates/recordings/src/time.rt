//! Times, and other values in JSON.

ghost use Rattle.std.specs.Prelude.{◌≡◌, IfOk};
ghost use Rattle.std.specs.Option.{option_map};
ghost use Rattle.serde_json.specs.Read.{read};
ghost use Rattle.serde_json.specs.View.{view};
ghost use Rattle.recordings.specs.Times.{json_in, time_in, time_of};

use serde_json::Value;
use std::alloc::{AllocError, Global};
use std::num::saturating_f64_to_u64;
use std::str;

/// A number of seconds, in whole microseconds, unless it is negative.
pub fn microseconds(seconds: &Value) -> Option<u64>
    ensures { result ≡ time_of (view seconds.now) }
{
    let seconds = seconds.as_f64()?;
    if seconds < 0.0 {
        return None;
    }
    Some(saturating_f64_to_u64(seconds * 1_000_000.0 + 0.5))
}

/// A number of seconds, written as in JSON, in whole microseconds.
pub fn parse_seconds(alloc: Global, word: &[u8]) -> Result<Option<u64>, AllocError>
    ensures { IfOk result (λ time. time ≡ time_in word.now) }
{
    match parse_json(alloc, word)? {
        Some(number) => Ok(microseconds(&number)),
        None => Ok(None),
    }
}

/// The value of a text in JSON, if it is one.
pub fn parse_json(alloc: Global, text: &[u8]) -> Result<Option<Value>, AllocError>
    ensures { IfOk result (λ value. option_map view value ≡ json_in text.now) }
{
    match str::from_utf8(text) {
        Ok(text) => parse_text(alloc, text),
        Err(_) => Ok(None),
    }
}

fn parse_text(alloc: Global, text: &str) -> Result<Option<Value>, AllocError>
    ensures { IfOk result (λ value. option_map view value ≡ read text.now) }
{
    match Value::from_str(alloc, text) {
        Ok(value) => Ok(Some(value)),
        Err(error) if error.is_memory() => Err(AllocError),
        Err(_) => Ok(None),
    }
}

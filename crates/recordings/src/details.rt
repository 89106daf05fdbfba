//! What the header of an asciicast says besides the size.

ghost use Rattle.std.specs.Prelude.{◌≡◌, IfOk, string_bytes};
ghost use Rattle.std.specs.Option.{option_map};
ghost use Rattle.serde_json.specs.View.{view};
ghost use Rattle.recordings.specs.Details.{idle_in as idle_in_data, title_in as title_in_data};

use crate::theme::text_at;
use crate::time::microseconds;
use serde_json::Value;
use std::alloc::{AllocError, Global};

/// The header's `idle_time_limit` in microseconds, if it has one. A limit of 0 counts as no limit.
pub(crate) fn idle_in(header: &Value) -> Option<u64>
    ensures { result ≡ idle_in_data (view header.now) }
{
    microseconds(header.get("idle_time_limit")?).filter(|time| *time > 0)
}

/// The header's `title`, if it has one. An empty title counts as no title.
pub(crate) fn title_in(alloc: Global, header: &Value) -> Result<Option<String>, AllocError>
    ensures { IfOk result (λ title. option_map string_bytes title ≡ title_in_data (view header.now)) }
{
    match text_at(header, "title") {
        Some(title) if !title.is_empty() => Ok(Some(title.to_owned(alloc)?)),
        _ => Ok(None),
    }
}

//! A writer with a script.
ghost use Rattle.std.specs.Prelude.{List};
ghost use Rattle.termrelay.specs.Calls.{WritesAsReported};

use crate::runs::call::Take;
use byte_streams::ByteSink;
use std::io;
use std::io::ErrorKind;
use std::marker::Model;

/// A scripted writer: the results of its next writes are given. After the last of them each write takes all bytes.
#[derive(Drop)]
pub(crate) struct ScriptedWriter<'a> {
    takes: &'a [Take],
}

impl<'a> Model for ScriptedWriter<'a> {
    ghost use Rattle.std.specs.Prelude.{List};
    ghost use Rattle.termrelay.specs.declared.runs.call.Take.{Take};

    ghost Value = { List Take };

    ghost view = { λ s. s.takes.now };
}

impl<'a> ScriptedWriter<'a> {
    ghost use Rattle.std.specs.Prelude.{◌≡◌};

    pub(crate) fn new(takes: &'a [Take]) -> Self
        ensures { result ≡ takes.now }
    {
        ScriptedWriter { takes }
    }
}

impl ByteSink for ScriptedWriter<'_> {
    ghost takes = { WritesAsReported };

    fn offer(&mut self, bytes: &[u8]) -> io::Result<usize> {
        let Some((take, rest)) = self.takes.split_first() else {
            return Ok(bytes.len());
        };
        self.takes = rest;
        match take {
            Take::Bytes(n) => Ok((*n).min(bytes.len())),
            Take::Fault => Err(io::Error::from(ErrorKind::Other)),
        }
    }
}

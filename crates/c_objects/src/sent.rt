//! A sink that takes a given number of bytes.
ghost use Rattle.std.specs.Prelude.{◌≡◌, ◌≤◌, length};
ghost use Rattle.c_objects.specs.Taken.{takes_so_many};

use byte_streams::ByteSink;
use std::io;

/// A sink that takes `left` more bytes.
#[derive(Drop)]
pub(crate) struct SoMany {
    pub(crate) left: usize,
}

impl ByteSink for SoMany {
    ghost use Rattle.c_objects.specs.Taken.{takes_so_many};

    ghost takes = { λ s bytes answer t. takes_so_many s.left bytes answer t.left };

    fn offer(&mut self, bytes: &[u8]) -> io::Result<usize> {
        let n = bytes.len().min(self.left);
        self.left -= n;
        Ok(n)
    }
}

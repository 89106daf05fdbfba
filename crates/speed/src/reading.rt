//! Work that reads the stream each time.

use crate::counting::Counting;
use crate::work::{PIECE_LEN, Workload};
use termview::{UntilCleared, View};
use vt100::Parser;
use vte::ansi::Processor;

impl<'a> Workload<'a> {
    pub(crate) fn events(&self) -> usize {
        let mut counting = Counting::new();
        for _ in 0..self.times {
            let mut parser = vte::Parser::new();
            for piece in self.stream.chunks(PIECE_LEN) {
                parser.advance(&mut counting, piece);
            }
        }
        counting.count
    }

    pub(crate) fn calls(&self) -> Option<usize> {
        let mut processor = Processor::new(self.alloc, UntilCleared::new()).ok()?;
        let mut counting = Counting::new();
        for _ in 0..self.times {
            for piece in self.stream.chunks(PIECE_LEN) {
                processor.advance(&mut counting, piece);
            }
        }
        Some(counting.count)
    }

    /// A terminal that has read these bytes, and keeps this many rows.
    pub(crate) fn filled(&self, bytes: &[u8], kept: usize) -> Option<Parser<()>> {
        let mut parser = Parser::new(self.alloc, self.rows, self.cols, kept).ok()?;
        if process(&mut parser, bytes) {
            Some(parser)
        } else {
            None
        }
    }

    pub(crate) fn screen(&self, kept: usize) -> Option<usize> {
        let mut count = 0;
        for _ in 0..self.times {
            count = end_of(&self.filled(self.stream, kept)?);
        }
        Some(count)
    }

    pub(crate) fn view(&self) -> Option<usize> {
        let mut view = View::new(self.alloc, self.rows, self.cols, UntilCleared::new()).ok()?;
        for _ in 0..self.times {
            for piece in self.stream.chunks(PIECE_LEN) {
                view.advance(piece);
            }
        }
        let (row, col) = view.cursor_position();
        Some(usize::from(row) + usize::from(col))
    }
}

/// Has a terminal read bytes, in pieces. Returns whether it could.
pub(crate) fn process(parser: &mut Parser<()>, bytes: &[u8]) -> bool {
    for piece in bytes.chunks(PIECE_LEN) {
        if parser.process(piece).is_err() {
            return false;
        }
    }
    true
}

/// Where the cursor is at the end.
fn end_of(parser: &Parser<()>) -> usize {
    let (row, col) = parser.screen().cursor_position();
    usize::from(row) + usize::from(col)
}

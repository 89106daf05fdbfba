//! A reader that is interrupted and gives little, and the reads that are counted.

use case_player::Answer;
use relay_streams::fill;
use std::io;
use std::io::{ErrorKind, Read};

/// A reader that is interrupted first, and then gives a byte a read, which says how much room there was.
#[derive(Drop)]
struct Rooms {
    reads: u64,
}

impl Read for Rooms {
    fn read(&mut self, buf: &mut [u8]) -> io::Result<usize> {
        self.reads = self.reads.saturating_add(1);
        if self.reads == 1 {
            return Err(io::Error::from(ErrorKind::Interrupted));
        }
        let room = buf.len();
        let Some(first) = buf.first_mut() else {
            return Ok(0);
        };
        *first = u8::try_from(room).unwrap_or(u8::MAX);
        Ok(1)
    }
}

/// Fills a piece of four bytes, where `reads` reads were made before. Appends how many bytes were read or the error,
/// how many reads were made, how many are counted then, and the piece.
pub fn fill_piece(mut reads: u64, answer: &mut Answer) {
    let mut input = Rooms { reads: 0 };
    let mut piece = [0; 4];
    match fill(&mut input, &mut piece, &mut reads) {
        Ok(length) => answer.number(length as u64),
        Err(error) => answer.display(&error),
    }
    answer.push(", ");
    answer.number(input.reads);
    answer.push(" reads, ");
    answer.number(reads);
    answer.push(" counted, ");
    answer.quoted(&piece);
}

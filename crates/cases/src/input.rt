//! What a program reads: bytes, and faults between them.

use std::alloc::{AllocError, Global};
use std::io;
use std::io::{ErrorKind, Read};

/// A piece of an input.
#[derive(Drop)]
pub enum Piece {
    /// Bytes, for as many reads as they fill.
    Bytes(Vec<u8>),
    /// A read that fails with an error of this kind.
    Fault(ErrorKind),
}

/// The input of a program. Each run of the program reads it from its start.
#[derive(Drop)]
pub struct Input {
    /// What reads give.
    pub pieces: Vec<Piece>,
    /// How many bytes a read gives at most.
    pub most: usize,
}

impl Input {
    /// An input without bytes.
    pub fn new(alloc: Global) -> Input {
        Input {
            pieces: Vec::new(alloc),
            most: usize::MAX,
        }
    }

    /// Makes these bytes the whole input.
    pub fn set(&mut self, bytes: Vec<u8>) -> Result<(), AllocError> {
        self.pieces.clear();
        self.push(Piece::Bytes(bytes))
    }

    /// Appends bytes to the input. A read may give them together with the bytes before them.
    pub fn extend(&mut self, bytes: Vec<u8>) -> Result<(), AllocError> {
        if let Some(Piece::Bytes(last)) = self.pieces.last_mut() {
            return last.extend_from_slice(&bytes);
        }
        self.push(Piece::Bytes(bytes))
    }

    /// Appends a piece to the input.
    pub fn push(&mut self, piece: Piece) -> Result<(), AllocError> {
        self.pieces.push(piece)?;
        Ok(())
    }

    /// A reader at the start of the input.
    pub fn reader(&self) -> InputReader<'_> {
        InputReader {
            left: &[],
            pieces: &self.pieces,
            most: self.most,
            reads: 0,
        }
    }
}

/// A reader of an input. A read gives bytes of one piece, and none after the last one.
#[derive(Drop)]
pub struct InputReader<'a> {
    // What is left of the piece that was begun.
    left: &'a [u8],
    // The pieces after it.
    pieces: &'a [Piece],
    most: usize,
    /// How many reads were made, also those that failed and those at the end.
    pub reads: u64,
}

impl Read for InputReader<'_> {
    fn read(&mut self, buf: &mut [u8]) -> io::Result<usize> {
        self.reads = self.reads.saturating_add(1);
        if self.left.is_empty()
            && let [piece, rest @ ..] = self.pieces
        {
            self.pieces = rest;
            match piece {
                Piece::Bytes(bytes) => self.left = bytes,
                Piece::Fault(kind) => return Err(io::Error::from(*kind)),
            }
        }
        let n = self.left.len().min(buf.len()).min(self.most);
        buf[..n].copy_from_slice(&self.left[..n]);
        self.left = &self.left[n..];
        Ok(n)
    }
}

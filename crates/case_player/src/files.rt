//! Where files of cases are read.

use std::{fs, io};

/// Where files are read.
pub trait Files {
    /// The bytes of a file.
    fn read(&self, path: &str) -> io::Result<Vec<u8>>;
}

/// The system's files.
#[derive(Clone, Copy)]
pub struct Disk<'a>(pub &'a HostRuntime);

impl Files for Disk<'_> {
    fn read(&self, path: &str) -> io::Result<Vec<u8>> {
        fs::read(self.0, path)
    }
}

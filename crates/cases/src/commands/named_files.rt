//! The files that a program's arguments name.

use screentext_command::{Files, TextError};
use std::alloc::Global;

/// A file: its name, and its bytes.
#[derive(Drop)]
pub struct NamedFile {
    /// Its name.
    pub name: String,
    /// Its bytes.
    pub bytes: Vec<u8>,
}

/// Files by their names. No other file can be read.
#[derive(Drop)]
pub struct NamedFiles(pub Vec<NamedFile>);

impl Files for NamedFiles {
    fn read(&self, alloc: Global, path: &str) -> Result<Vec<u8>, TextError> {
        for file in &self.0 {
            if file.name.as_str() == path {
                return Ok(file.bytes.to_vec(alloc)?);
            }
        }
        Err(TextError::File)
    }
}

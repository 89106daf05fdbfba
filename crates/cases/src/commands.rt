//! Cases of the programs' command lines: whole commands, byte for byte, faults of readers and writers in mid-stream, and
//! refusals of memory.

mod named_files;
mod player;
mod programs;

pub use player::CommandPlayer;

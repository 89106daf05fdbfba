//! What plays the steps of each folder's cases.

use crate::commands::CommandPlayer;
use crate::relays::RelayPlayer;
use case_player::{Answer, Disk, Player, StepError, Words, value_of};
use library_steps::{GridPlayer, ScreenPlayer, StreamPlayer};
use std::mem;

/// What a case is about.
#[derive(Clone, Copy)]
enum Subject {
    Streams,
    Grids,
    Screens,
    Relays,
    Commands,
}

/// What cases are about, by their folders. Those of any other folder are about streams.
const SUBJECTS: &[(&str, Subject)] = &[
    ("grids", Subject::Grids),
    ("screens", Subject::Screens),
    ("relays", Subject::Relays),
    ("commands", Subject::Commands),
];

fn subject_of(folder: &str) -> Subject {
    value_of(SUBJECTS, folder).unwrap_or(Subject::Streams)
}

/// A player for each subject, and which of them plays the case.
#[derive(Drop)]
pub struct Stage<'a> {
    rt: &'a HostRuntime,
    subject: Subject,
    streams: StreamPlayer,
    grids: GridPlayer,
    screens: ScreenPlayer,
    relays: RelayPlayer,
    commands: CommandPlayer,
}

impl<'a> Stage<'a> {
    /// Players of a case of this folder that have taken no step. Files lie on the system's disk.
    pub fn new(rt: &'a HostRuntime, folder: &str) -> Stage<'a> {
        let alloc = rt.alloc();
        Stage {
            rt,
            subject: subject_of(folder),
            streams: StreamPlayer::new(alloc),
            grids: GridPlayer::new(alloc),
            screens: ScreenPlayer::new(alloc),
            relays: RelayPlayer::new(alloc),
            commands: CommandPlayer::new(alloc),
        }
    }
}

impl Player for Stage<'_> {
    fn begin(&mut self, folder: &str) {
        let begun = Stage::new(self.rt, folder);
        drop(mem::replace(self, begun));
    }

    fn take(&mut self, name: &str, words: &Words, answer: &mut Answer) -> Result<(), StepError> {
        match self.subject {
            Subject::Streams => self.streams.take(name, words, answer),
            Subject::Grids => self.grids.take(name, words, answer),
            Subject::Screens => self.screens.take(name, words, answer),
            Subject::Relays => self.relays.take(name, words, answer),
            Subject::Commands => self.commands.take(&Disk(self.rt), name, words, answer),
        }
    }
}

//! The steps of a case.

use crate::commands::named_files::{NamedFile, NamedFiles};
use crate::commands::programs::{relayer, run};
use crate::faults::fault_named;
use crate::input::{Input, Piece};
use crate::limited::LimitedWriter;
use case_player::{Answer, Disk, Files, StepError, Words};
use relay_streams::RelayError;
use std::alloc::{AllocError, Global};
use std::io::ErrorKind;
use std::mem;

/// What the programs of a case are run on, and what the last of them did.
#[derive(Drop)]
pub struct CommandPlayer {
    alloc: Global,
    input: Input,
    // What the programs write to.
    output: LimitedWriter,
    errors: LimitedWriter,
    // What the last program wrote to its output, if memory was refused to it.
    refused: Vec<u8>,
    // How many lines of output are answered.
    lines: usize,
    // The files that arguments may name.
    files: NamedFiles,
    // A file whose name replaces its bytes in answers.
    known: Option<NamedFile>,
    // How often the last program read.
    reads: u64,
}

impl CommandPlayer {
    /// A player with an empty input and no files. Its writers take all that the programs write here.
    pub fn new(alloc: Global) -> CommandPlayer {
        CommandPlayer {
            alloc,
            input: Input::new(alloc),
            output: LimitedWriter::new(alloc, 65_536),
            errors: LimitedWriter::new(alloc, 4_096),
            refused: Vec::new(alloc),
            lines: usize::MAX,
            files: NamedFiles(Vec::new(alloc)),
            known: None,
            reads: 0,
        }
    }

    // The bytes of a word, a number of times if the step is `more`.
    fn bytes_of(&self, name: &str, words: &Words) -> Result<Vec<u8>, AllocError> {
        let times = if name == "more" { words.count() } else { 1 };
        let bytes = words.bytes();
        let mut all = Vec::new(self.alloc);
        for _ in 0..times {
            all.extend_from_slice(bytes)?;
        }
        Ok(all)
    }

    // Appends bytes to the input, or makes them the whole of it.
    fn put(&mut self, name: &str, words: &Words) -> Result<(), StepError> {
        let bytes = self.bytes_of(name, words)?;
        let outcome = match name {
            "read" => self.input.push(Piece::Bytes(bytes)),
            "more" => self.input.extend(bytes),
            _ => self.input.set(bytes),
        };
        Ok(outcome?)
    }

    fn add_file(&mut self, words: &Words) -> Result<(), StepError> {
        let name = String::from_str(self.alloc, words.text())?;
        let bytes = words.bytes().to_vec(self.alloc)?;
        self.files.0.push(NamedFile { name, bytes })?;
        Ok(())
    }

    fn know_file(&mut self, data: &Disk<'_>, words: &Words) -> Result<(), StepError> {
        let name = words.word();
        let bytes = file_in_data(self.alloc, data, name)?;
        let name = String::from_str(self.alloc, name)?;
        self.known = Some(NamedFile { name, bytes });
        Ok(())
    }

    // Runs a program with the rest of the words as arguments, and returns its status. The program reads the input from
    // its start, so that it may be run again if it found no memory.
    fn run(&mut self, name: &str, words: &Words) -> Result<u8, StepError> {
        self.clear_writers()?;
        let texts = texts(self.alloc, words)?;
        let mut input = self.input.reader();
        let status = run(
            self.alloc,
            (name, &texts),
            &self.files,
            &mut input,
            &mut self.output,
            &mut self.errors,
        );
        self.reads = input.reads;
        status.ok_or(StepError::Unknown)
    }

    fn clear_writers(&mut self) -> Result<(), AllocError> {
        self.output.clear()?;
        self.errors.clear()
    }

    // Checks that what was written when memory was refused is a beginning of what is written now.
    fn check_run(&mut self) -> Result<(), StepError> {
        if self.errors.kept.ends_with(b": memory\n") {
            mem::swap(&mut self.refused, &mut self.output.kept);
            return Err(StepError::Memory);
        }
        if self.errors.flushed > 0 {
            return Err(StepError::Wrong("the error output was flushed"));
        }
        if !self.output.kept.starts_with(&self.refused) {
            return Err(StepError::Wrong("other bytes were written before the refusal"));
        }
        self.refused.clear();
        Ok(())
    }

    // Runs a program, and appends all that it wrote. The output of a pipe becomes the input instead.
    fn show(
        &mut self,
        name: &str,
        words: &Words,
        is_pipe: bool,
        answer: &mut Answer,
    ) -> Result<(), StepError> {
        let status = self.run(name, words)?;
        self.check_run()?;
        self.push_status(status, answer);
        if is_pipe {
            self.pipe()?;
        } else {
            self.push_output(answer);
        }
        self.push_errors(answer);
        Ok(())
    }

    // Makes the output the input.
    fn pipe(&mut self) -> Result<(), AllocError> {
        let output = mem::replace(&mut self.output.kept, Vec::new(self.alloc));
        self.input.set(output)
    }

    // Appends what a program reports of an input that didn't end after very many reads, which a test can't wait for.
    fn too_many_reads(&mut self, words: &Words, answer: &mut Answer) -> Result<(), StepError> {
        let Some(program) = relayer(words.word()) else {
            return Err(StepError::Word("the name of a program that relays"));
        };
        self.errors.clear()?;
        self.reads = 1 << 40;
        let status = program.report_fault(&mut self.errors, RelayError::TooManyReads);
        self.push_status(status, answer);
        self.push_errors(answer);
        Ok(())
    }

    fn push_status(&self, status: u8, answer: &mut Answer) {
        answer.push("status ");
        answer.number(u64::from(status));
        answer.line(if self.reads == 0 {
            ", nothing read"
        } else {
            ""
        });
    }

    // Appends the output: a line for each of its first lines, and dots if there are more; or the name of a known file.
    fn push_output(&self, answer: &mut Answer) {
        if self.push_known("output", &self.output.kept, answer) {
            return;
        }
        let lines = self.output.kept.split_inclusive(|byte| *byte == b'\n');
        for (index, line) in lines.enumerate() {
            if index >= self.lines {
                answer.line("..");
                return;
            }
            answer.quoted_line(line);
        }
    }

    // Appends the error output, if there is any.
    fn push_errors(&self, answer: &mut Answer) {
        let errors = &self.errors.kept;
        if !errors.is_empty() && !self.push_known("errors", errors, answer) {
            answer.push("errors ");
            answer.quoted_line(errors);
        }
    }

    // Appends the name of the known file in place of these bytes. Returns whether they are the file's.
    fn push_known(&self, stream: &str, bytes: &[u8], answer: &mut Answer) -> bool {
        match &self.known {
            Some(file) if file.bytes.as_slice() == bytes => {
                answer.push(stream);
                answer.push(" as ");
                answer.line(file.name.as_str());
                true
            }
            _ => false,
        }
    }

    /// Takes a step. Files lie on this disk.
    pub fn take(
        &mut self,
        data: &Disk<'_>,
        name: &str,
        words: &Words,
        answer: &mut Answer,
    ) -> Result<(), StepError> {
        match name {
            "input-file" => {
                let bytes = file_in_data(self.alloc, data, words.word())?;
                Ok(self.input.set(bytes)?)
            }
            "known" => self.know_file(data, words),
            _ => self.take_on_stage(name, words, answer),
        }
    }

    // Takes a step that reads no file.
    fn take_on_stage(
        &mut self,
        name: &str,
        words: &Words,
        answer: &mut Answer,
    ) -> Result<(), StepError> {
        match name {
            "input" | "more" | "read" => self.put(name, words),
            "read-fails" => {
                let fault = fault_named(words.word(), words);
                Ok(self.input.push(Piece::Fault(fault))?)
            }
            "file" => self.add_file(words),
            "pipe" => self.show(words.word(), words, true, answer),
            "too-many-reads" => self.too_many_reads(words, answer),
            "reads" => {
                answer.number(self.reads);
                Ok(())
            }
            "flushes" => {
                answer.number(self.output.flushed);
                Ok(())
            }
            _ => self.limit(name, words, answer),
        }
    }

    // Takes a step that changes a limit, or runs a program.
    fn limit(&mut self, name: &str, words: &Words, answer: &mut Answer) -> Result<(), StepError> {
        match name {
            "reads-of" => self.input.most = words.count(),
            "room" => self.output.room = words.count(),
            "errors-room" => self.errors.room = words.count(),
            "writes-of" => {
                self.output.step = words.count();
                self.errors.step = self.output.step;
            }
            "flush-fails" => self.output.flushes = false,
            "lines" => self.lines = words.count(),
            _ => return self.show(name, words, false, answer),
        }
        Ok(())
    }
}

// The rest of the words.
fn texts<'a>(alloc: Global, words: &'a Words) -> Result<Vec<&'a str>, AllocError> {
    let mut texts = Vec::new(alloc);
    // The line has fewer words than this.
    for _ in 0..usize::MAX {
        if words.is_empty() {
            break;
        }
        texts.push(words.text())?;
    }
    Ok(texts)
}

// The bytes of a file that lies beside the cases.
fn file_in_data(alloc: Global, data: &Disk<'_>, name: &str) -> Result<Vec<u8>, StepError> {
    let path = format!(in alloc; "commands/{name}")?;
    match data.read(path.as_str()) {
        Ok(bytes) => Ok(bytes),
        Err(error) if error.kind() == ErrorKind::OutOfMemory => Err(StepError::Memory),
        Err(_) => Err(StepError::Wrong("the file can't be read")),
    }
}

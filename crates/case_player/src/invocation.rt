//! The arguments of the command line.

use command_line::parse_count;

/// What a player is asked to do.
#[derive(Clone, Copy)]
pub(crate) struct Invocation<'a> {
    /// How cases are played.
    pub options: Options,
    /// The names of the files.
    pub files: &'a [&'a str],
}

/// How cases are played.
#[derive(Clone, Copy)]
pub(crate) struct Options {
    /// Whether a step that memory was refused to is taken once more.
    pub may_refuse: bool,
    /// Whether cases are listed, and none is played.
    pub lists: bool,
    /// The number of the one case that is played: the first one has the number 1.
    pub only: Option<usize>,
}

/// Reads `[--may-refuse] [--list] [--case N] FILE..`.
pub(crate) fn parse<'a>(words: &'a [&'a str]) -> Option<Invocation<'a>> {
    let mut options = Options {
        may_refuse: false,
        lists: false,
        only: None,
    };
    let mut taken: usize = 0;
    for _ in 0..words.len() {
        let next = word_at(words, taken.saturating_add(1));
        taken = taken.saturating_add(options.read(word_at(words, taken), next));
    }
    let files = words.get(taken..)?;
    if word_at(files, 0).starts_with('-') {
        return None;
    }
    Some(Invocation { options, files })
}

impl Options {
    // Reads an option that begins with these arguments. Returns how many arguments it has: 0 if it isn't an option.
    fn read(&mut self, word: &str, next: &str) -> usize {
        match word {
            "--may-refuse" => {
                self.may_refuse = true;
                1
            }
            "--list" => {
                self.lists = true;
                1
            }
            "--case" => {
                self.only = parse_count(next);
                if self.only.is_some() { 2 } else { 0 }
            }
            _ => 0,
        }
    }
}

// The argument at an index, or `-` after the last one.
fn word_at<'a>(words: &[&'a str], index: usize) -> &'a str {
    match words.get(index) {
        Some(word) => word,
        None => "-",
    }
}

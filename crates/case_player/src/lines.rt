//! The lines of a file of cases.

/// A line of a file of cases.
#[derive(Clone, Copy)]
pub(crate) enum Line<'a> {
    /// An empty line or a comment.
    Nothing,
    /// A case begins, with this title.
    Case(&'a str),
    /// A line that the step before it has to answer.
    Wanted(&'a str),
    /// A step: a name, and the words after it.
    Step(&'a str, &'a str),
}

/// Reads a line.
pub(crate) fn parse_line(line: &str) -> Line<'_> {
    if line.is_empty() || line.starts_with('#') {
        return Line::Nothing;
    }
    let (name, words) = line.split_once(' ').unwrap_or((line, ""));
    match name {
        "case" => Line::Case(words),
        "=" => Line::Wanted(words),
        _ => Line::Step(name, words),
    }
}

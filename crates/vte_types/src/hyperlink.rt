//! Hyperlinks.

/// A hyperlink (OSC 8). Its texts are borrowed.
#[derive(Clone, Copy, PartialEq, Eq, Debug)]
pub struct Hyperlink<'a> {
    /// Parts of the screen with the same id and the same uri are one link.
    pub id: Option<&'a str>,
    /// The uri that the link leads to.
    pub uri: &'a str,
}

//! The character path (SCP, ECMA-48 8.3.111).

/// The direction in which characters are laid out.
#[derive(Clone, Copy, PartialEq, Eq, Debug)]
pub enum ScpCharPath {
    /// 0: the terminal's own.
    Default,
    /// 1: left to right.
    LTR,
    /// 2: right to left.
    RTL,
}

/// What is updated when the direction changes.
#[derive(Clone, Copy, PartialEq, Eq, Debug)]
pub enum ScpUpdateMode {
    /// 0: the terminal's choice.
    ImplementationDependant,
    /// 1: the presentation is updated from the data.
    DataToPresentation,
    /// 2: the data is updated from the presentation.
    PresentationToData,
}

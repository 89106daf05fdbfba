//! Modes, and the parameters that name them.
ghost use Rattle.std.specs.Prelude.{◌≡◌};
ghost use Rattle.vte_types.specs.Mode.{mode_of, private_mode_of, raw_of, private_raw_of, mode_number};
ghost use Rattle.vte_types.specs.Mode.{private_mode_number, RawIsTheNumber};

/// A mode with a name. Its number (`as u16`) is the parameter that names it.
#[derive(Clone, Copy, PartialEq, Eq, Debug)]
pub enum NamedMode {
    /// 4, IRM: characters are inserted.
    Insert = 4,
    /// 20, LNM: a linefeed also goes to column 0.
    LineFeedNewLine = 20,
}

/// A mode (SM, RM).
#[derive(Clone, Copy, PartialEq, Eq, Debug)]
pub enum Mode {
    /// A mode with a name.
    Named(NamedMode),
    /// A mode that has no name here, by its parameter.
    Unknown(u16),
}

impl Mode {
    /// The mode that a parameter names.
    pub fn new(mode: u16) -> Self
        ensures { result ≡ mode_of mode }
    {
        match mode {
            4 => Mode::Named(NamedMode::Insert),
            20 => Mode::Named(NamedMode::LineFeedNewLine),
            _ => Mode::Unknown(mode),
        }
    }

    /// The parameter that names the mode.
    pub fn raw(self) -> u16
        ensures { result ≡ raw_of self }
    {
        match self {
            Mode::Named(named) => named as u16,
            Mode::Unknown(mode) => mode,
        }
    }
}

impl From<NamedMode> for Mode {
    ghost use Rattle.vte_types.specs.declared.mode.Mode.TheVariants as modes;

    ghost from_gives = { λ named mode. mode ≡ modes.Named named };

    fn from(value: NamedMode) -> Self {
        Mode::Named(value)
    }
}

/// A private mode with a name. Its number (`as u16`) is the parameter that names it.
#[derive(Clone, Copy, PartialEq, Eq, Debug)]
pub enum NamedPrivateMode {
    /// 1, DECCKM: the cursor keys send application sequences.
    CursorKeys = 1,
    /// 3, DECCOLM: 80 or 132 columns.
    ColumnMode = 3,
    /// 6, DECOM: lines count from the region's top.
    Origin = 6,
    /// 7, DECAWM: text wraps at the line's end.
    LineWrap = 7,
    /// 12: the cursor blinks.
    BlinkingCursor = 12,
    /// 25, DECTCEM: the cursor is shown.
    ShowCursor = 25,
    /// 1000: presses and releases of buttons are reported.
    ReportMouseClicks = 1000,
    /// 1002: motion is reported while a button is held.
    ReportCellMouseMotion = 1002,
    /// 1003: all motion is reported.
    ReportAllMouseMotion = 1003,
    /// 1004: gaining and losing the focus is reported.
    ReportFocusInOut = 1004,
    /// 1005: the mouse's coordinates are sent in UTF-8.
    Utf8Mouse = 1005,
    /// 1006: the mouse's coordinates are sent as decimal numbers.
    SgrMouse = 1006,
    /// 1007: the wheel sends cursor keys on the alternate screen.
    AlternateScroll = 1007,
    /// 1042: the bell marks the window as urgent.
    UrgencyHints = 1042,
    /// 1049: the alternate screen, with the cursor saved.
    SwapScreenAndSetRestoreCursor = 1049,
    /// 2004: pasted text is sent between `ESC [200~` and `ESC [201~`.
    BracketedPaste = 2004,
    /// 2026: a synchronized update; its changes are shown together at its end.
    SyncUpdate = 2026,
}

/// A private mode (DECSET, DECRST).
#[derive(Clone, Copy, PartialEq, Eq, Debug)]
pub enum PrivateMode {
    /// A private mode with a name.
    Named(NamedPrivateMode),
    /// A private mode that has no name here, by its parameter.
    Unknown(u16),
}

impl PrivateMode {
    /// The private mode that a parameter names.
    pub fn new(mode: u16) -> Self
        ensures { result ≡ private_mode_of mode }
    {
        let named = match mode {
            1 => NamedPrivateMode::CursorKeys,
            3 => NamedPrivateMode::ColumnMode,
            6 => NamedPrivateMode::Origin,
            7 => NamedPrivateMode::LineWrap,
            12 => NamedPrivateMode::BlinkingCursor,
            25 => NamedPrivateMode::ShowCursor,
            1000 => NamedPrivateMode::ReportMouseClicks,
            1002 => NamedPrivateMode::ReportCellMouseMotion,
            1003 => NamedPrivateMode::ReportAllMouseMotion,
            1004 => NamedPrivateMode::ReportFocusInOut,
            1005 => NamedPrivateMode::Utf8Mouse,
            1006 => NamedPrivateMode::SgrMouse,
            1007 => NamedPrivateMode::AlternateScroll,
            1042 => NamedPrivateMode::UrgencyHints,
            1049 => NamedPrivateMode::SwapScreenAndSetRestoreCursor,
            2004 => NamedPrivateMode::BracketedPaste,
            2026 => NamedPrivateMode::SyncUpdate,
            _ => return PrivateMode::Unknown(mode),
        };
        PrivateMode::Named(named)
    }

    /// The parameter that names the private mode.
    pub fn raw(self) -> u16
        ensures { result ≡ private_raw_of self }
    {
        match self {
            PrivateMode::Named(named) => named as u16,
            PrivateMode::Unknown(mode) => mode,
        }
    }
}

impl From<NamedPrivateMode> for PrivateMode {
    ghost use Rattle.vte_types.specs.declared.mode.PrivateMode.TheVariants as modes;

    ghost from_gives = { λ named mode. mode ≡ modes.Named named };

    fn from(value: NamedPrivateMode) -> Self {
        PrivateMode::Named(value)
    }
}

/// A mode made from a parameter has that parameter as `raw`.
pub fn raw_is_the_number()
    ensures { RawIsTheNumber }
{}

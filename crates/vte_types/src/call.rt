//! The calls of a handler, as values.
use crate::attr::Attr;
use crate::charset::{CharsetIndex, StandardCharset};
use crate::clear::{ClearMode, LineClearMode, TabulationClearMode};
use crate::cursor::{CursorShape, CursorStyle};
use crate::cursor_icon::CursorIcon;
use crate::hyperlink::Hyperlink;
use crate::keyboard::{KeyboardModes, KeyboardModesApplyBehavior, ModifyOtherKeys};
use crate::mode::{Mode, PrivateMode};
use crate::rgb::Rgb;
use crate::scp::{ScpCharPath, ScpUpdateMode};

/// A call of a handler.
#[derive(Clone, Copy, Debug)]
pub enum Call<'a> {
    /// Sets the window's title (OSC 0 and 2), or the default one for `None`.
    SetTitle(Option<&'a str>),
    /// Sets the cursor's style (DECSCUSR), or the default one for `None`.
    SetCursorStyle(Option<CursorStyle>),
    /// Sets the cursor's shape (OSC 50).
    SetCursorShape(CursorShape),
    /// Writes a character at the cursor.
    Input(char),
    /// Moves the cursor to a line and a column, both from 0 (CUP, HVP).
    Goto(i32, usize),
    /// Moves the cursor to a line, from 0 (VPA).
    GotoLine(i32),
    /// Moves the cursor to a column, from 0 (CHA, HPA).
    GotoCol(usize),
    /// Inserts a number of blanks at the cursor (ICH).
    InsertBlank(usize),
    /// Moves the cursor up by a number of rows (CUU).
    MoveUp(usize),
    /// Moves the cursor down by a number of rows (CUD, VPR).
    MoveDown(usize),
    /// Asks what terminal this is (DA). The first intermediate says which report is wanted.
    IdentifyTerminal(Option<char>),
    /// Asks for the report with this number (DSR).
    DeviceStatus(usize),
    /// Moves the cursor right by a number of columns (CUF, HPR).
    MoveForward(usize),
    /// Moves the cursor left by a number of columns (CUB).
    MoveBackward(usize),
    /// Moves the cursor down by a number of rows, to column 0 (CNL).
    MoveDownAndCr(usize),
    /// Moves the cursor up by a number of rows, to column 0 (CPL).
    MoveUpAndCr(usize),
    /// Moves the cursor over a number of tab stops (HT).
    PutTab(u16),
    /// Moves the cursor left one column (BS).
    Backspace,
    /// Moves the cursor to column 0 (CR).
    CarriageReturn,
    /// Moves the cursor to the next line (LF, VT, FF, IND).
    Linefeed,
    /// Rings the bell (BEL).
    Bell,
    /// Shows that a character was in error (SUB).
    Substitute,
    /// Moves the cursor to the next line, and to column 0 in new line mode. No sequence calls it.
    Newline,
    /// Sets a tab stop at the cursor's column (HTS).
    SetHorizontalTabstop,
    /// Scrolls the region up by a number of rows (SU).
    ScrollUp(usize),
    /// Scrolls the region down by a number of rows (SD).
    ScrollDown(usize),
    /// Inserts a number of blank lines at the cursor (IL).
    InsertBlankLines(usize),
    /// Deletes a number of lines from the cursor on (DL).
    DeleteLines(usize),
    /// Erases a number of cells from the cursor on (ECH).
    EraseChars(usize),
    /// Deletes a number of cells from the cursor on (DCH).
    DeleteChars(usize),
    /// Moves the cursor back by a number of tab stops (CBT).
    MoveBackwardTabs(u16),
    /// Moves the cursor forward by a number of tab stops (CHT).
    MoveForwardTabs(u16),
    /// Saves the cursor (DECSC, SCOSC).
    SaveCursorPosition,
    /// Restores the saved cursor (DECRC, SCORC).
    RestoreCursorPosition,
    /// Clears a part of the cursor's line (EL).
    ClearLine(LineClearMode),
    /// Clears a part of the screen (ED).
    ClearScreen(ClearMode),
    /// Clears tab stops (TBC).
    ClearTabs(TabulationClearMode),
    /// Sets a tab stop every n columns (DECST8C).
    SetTabs(u16),
    /// Resets the terminal to its initial state (RIS).
    ResetState,
    /// Moves the cursor up one line, and scrolls at the region's top (RI).
    ReverseIndex,
    /// Changes one drawing attribute (SGR).
    TerminalAttribute(Attr),
    /// Sets a mode (SM).
    SetMode(Mode),
    /// Resets a mode (RM).
    UnsetMode(Mode),
    /// Asks whether a mode is set (DECRQM).
    ReportMode(Mode),
    /// Sets a private mode (DECSET).
    SetPrivateMode(PrivateMode),
    /// Resets a private mode (DECRST).
    UnsetPrivateMode(PrivateMode),
    /// Asks whether a private mode is set (DECRQM).
    ReportPrivateMode(PrivateMode),
    /// Sets the scrolling region (DECSTBM). Both lines count from 1, and `None` is the last line.
    SetScrollingRegion(usize, Option<usize>),
    /// Makes the keypad send application sequences (DECKPAM).
    SetKeypadApplicationMode,
    /// Makes the keypad send numbers (DECKPNM).
    UnsetKeypadApplicationMode,
    /// Draws with the character set of this index (SI, SO).
    SetActiveCharset(CharsetIndex),
    /// Gives an index its character set (SCS).
    ConfigureCharset(CharsetIndex, StandardCharset),
    /// Sets the colour of an index (OSC 4, 10, 11 and 12).
    SetColor(usize, Rgb),
    /// Asks for the colour of an index (OSC 4, 10, 11 and 12 with `?`). The answer begins with the prefix and ends with
    /// the terminator.
    DynamicColorSequence(&'a str, usize, &'a str),
    /// Resets the colour of an index to its initial one (OSC 104, 110, 111 and 112).
    ResetColor(usize),
    /// Stores data, in base64, in a clipboard (OSC 52).
    ClipboardStore(u8, &'a [u8]),
    /// Asks for a clipboard's data (OSC 52). The answer ends with the terminator.
    ClipboardLoad(u8, &'a str),
    /// Fills the screen with `E` (DECALN).
    Decaln,
    /// Pushes the title on a stack (`CSI 22 t`).
    PushTitle,
    /// Pops the title from the stack (`CSI 23 t`).
    PopTitle,
    /// Asks for the text area's size in pixels (`CSI 14 t`).
    TextAreaSizePixels,
    /// Asks for the text area's size in characters (`CSI 18 t`).
    TextAreaSizeChars,
    /// Begins a hyperlink, or ends the present one for `None` (OSC 8).
    SetHyperlink(Option<Hyperlink<'a>>),
    /// Sets the pointer's shape (OSC 22).
    SetMouseCursorIcon(CursorIcon),
    /// Asks for the keyboard modes (`CSI ? u`).
    ReportKeyboardMode,
    /// Pushes keyboard modes on a stack (`CSI > u`).
    PushKeyboardMode(KeyboardModes),
    /// Pops a number of keyboard modes from the stack (`CSI < u`).
    PopKeyboardModes(u16),
    /// Changes the keyboard modes (`CSI = u`).
    SetKeyboardMode(KeyboardModes, KeyboardModesApplyBehavior),
    /// Sets xterm's `modifyOtherKeys` (`CSI > 4 m`).
    SetModifyOtherKeys(ModifyOtherKeys),
    /// Asks for xterm's `modifyOtherKeys` (`CSI ? 4 m`).
    ReportModifyOtherKeys,
    /// Selects the character path (SCP): the direction in which characters are laid out.
    SetScp(ScpCharPath, ScpUpdateMode),
}

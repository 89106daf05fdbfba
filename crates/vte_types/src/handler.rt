//! The trait that receives a terminal's calls.
ghost use Rattle.std.specs.Option.{option_map};
ghost use Rattle.std.specs.Prelude.{map, All};
ghost use Rattle.std.specs.Str.{chars};
ghost use Rattle.printable.specs.Printable.{IsPrintable};
ghost use Rattle.vte_types.specs.Call as said;
ghost use Rattle.vte_types.specs.Call.{Calls, link_of};
ghost use Rattle.vte_types.specs.CallOf.{call_of};

use crate::attr::Attr;
use crate::call::Call;
use crate::charset::{CharsetIndex, StandardCharset};
use crate::clear::{ClearMode, LineClearMode, TabulationClearMode};
use crate::cursor::{CursorShape, CursorStyle};
use crate::cursor_icon::CursorIcon;
use crate::hyperlink::Hyperlink;
use crate::keyboard::{KeyboardModes, KeyboardModesApplyBehavior, ModifyOtherKeys};
use crate::mode::{Mode, PrivateMode};
use crate::rgb::Rgb;
use crate::scp::{ScpCharPath, ScpUpdateMode};

/// From this many bytes on, a text is first tested for being ASCII, since ASCII needs no decoding.
const LONG_TEXT: usize = 16;

/// Receives the calls that a terminal's input asks for.
///
/// `call` is the one required method, and receives every call as a value. Each named method passes its call on to it.
/// So a handler writes one `match`, with an arm for each call that it knows and a last one that does nothing. A named
/// method may be overridden; it must then do what `call` does with that call.
///
/// Texts are borrowed: a handler copies what it keeps.
pub trait Handler {
    /// What a call may do: the handler before it, the call, and the handler after it.
    ghost step: { Self → said.Call → Self → Type 0 };

    /// Receives a call.
    fn call(&mut self, call: Call<'_>)
        ensures { step self.old (call_of call.entry) self.new };

    /// Sets the window's title (OSC 0 and 2), or the default one for `None`.
    fn set_title(&mut self, title: Option<&str>)
        ensures { step self.old (said.set_title (option_map (λ t. t.now) title.entry)) self.new }
    {
        self.call(Call::SetTitle(title))
    }

    /// Sets the cursor's style (DECSCUSR), or the default one for `None`.
    fn set_cursor_style(&mut self, style: Option<CursorStyle>)
        ensures { step self.old (said.set_cursor_style style) self.new }
    {
        self.call(Call::SetCursorStyle(style))
    }

    /// Sets the cursor's shape (OSC 50).
    fn set_cursor_shape(&mut self, shape: CursorShape)
        ensures { step self.old (said.set_cursor_shape shape) self.new }
    {
        self.call(Call::SetCursorShape(shape))
    }

    /// Writes a character at the cursor.
    fn input(&mut self, c: char)
        ensures { step self.old (said.input c) self.new }
    {
        self.call(Call::Input(c))
    }

    /// Writes the characters of a text at the cursor, one after another, as [`input`](Self::input) does. A handler that
    /// is faster with many characters at once may override this method.
    fn input_str(&mut self, text: &str)
        ensures { Calls step self.old (map said.input (chars text.now)) self.new }
    {
        if text.len() >= LONG_TEXT && text.is_ascii() {
            for byte in text.as_bytes() {
                self.input(*byte as char);
            }
            return;
        }
        for c in text.chars() {
            self.input(c);
        }
    }

    /// Writes printable ASCII (0x20 to 0x7E) at the cursor, as [`input_str`](Self::input_str) does. A handler that is
    /// faster where it need not look for other characters may override this method.
    #[doc(hidden)]
    fn input_ascii(&mut self, text: &str)
        requires { All IsPrintable text.now }
        ensures { Calls step self.old (map said.input (chars text.now)) self.new }
    {
        self.input_str(text);
    }

    /// Moves the cursor to a line and a column, both from 0 (CUP, HVP).
    fn goto(&mut self, line: i32, col: usize)
        ensures { step self.old (said.goto line col) self.new }
    {
        self.call(Call::Goto(line, col))
    }

    /// Moves the cursor to a line, from 0 (VPA).
    fn goto_line(&mut self, line: i32)
        ensures { step self.old (said.goto_line line) self.new }
    {
        self.call(Call::GotoLine(line))
    }

    /// Moves the cursor to a column, from 0 (CHA, HPA).
    fn goto_col(&mut self, col: usize)
        ensures { step self.old (said.goto_col col) self.new }
    {
        self.call(Call::GotoCol(col))
    }

    /// Inserts `count` blanks at the cursor (ICH).
    fn insert_blank(&mut self, count: usize)
        ensures { step self.old (said.insert_blank count) self.new }
    {
        self.call(Call::InsertBlank(count))
    }

    /// Moves the cursor up by `rows` rows (CUU).
    fn move_up(&mut self, rows: usize)
        ensures { step self.old (said.move_up rows) self.new }
    {
        self.call(Call::MoveUp(rows))
    }

    /// Moves the cursor down by `rows` rows (CUD, VPR).
    fn move_down(&mut self, rows: usize)
        ensures { step self.old (said.move_down rows) self.new }
    {
        self.call(Call::MoveDown(rows))
    }

    /// Asks what terminal this is (DA). The first intermediate says which report is wanted.
    fn identify_terminal(&mut self, intermediate: Option<char>)
        ensures { step self.old (said.identify_terminal intermediate) self.new }
    {
        self.call(Call::IdentifyTerminal(intermediate))
    }

    /// Asks for the report with this number (DSR).
    fn device_status(&mut self, code: usize)
        ensures { step self.old (said.device_status code) self.new }
    {
        self.call(Call::DeviceStatus(code))
    }

    /// Moves the cursor right by `cols` columns (CUF, HPR).
    fn move_forward(&mut self, cols: usize)
        ensures { step self.old (said.move_forward cols) self.new }
    {
        self.call(Call::MoveForward(cols))
    }

    /// Moves the cursor left by `cols` columns (CUB).
    fn move_backward(&mut self, cols: usize)
        ensures { step self.old (said.move_backward cols) self.new }
    {
        self.call(Call::MoveBackward(cols))
    }

    /// Moves the cursor down by `rows` rows, to column 0 (CNL).
    fn move_down_and_cr(&mut self, rows: usize)
        ensures { step self.old (said.move_down_and_cr rows) self.new }
    {
        self.call(Call::MoveDownAndCr(rows))
    }

    /// Moves the cursor up by `rows` rows, to column 0 (CPL).
    fn move_up_and_cr(&mut self, rows: usize)
        ensures { step self.old (said.move_up_and_cr rows) self.new }
    {
        self.call(Call::MoveUpAndCr(rows))
    }

    /// Moves the cursor over `count` tab stops (HT).
    fn put_tab(&mut self, count: u16)
        ensures { step self.old (said.put_tab count) self.new }
    {
        self.call(Call::PutTab(count))
    }

    /// Moves the cursor left one column (BS).
    fn backspace(&mut self)
        ensures { step self.old said.backspace self.new }
    {
        self.call(Call::Backspace)
    }

    /// Moves the cursor to column 0 (CR).
    fn carriage_return(&mut self)
        ensures { step self.old said.carriage_return self.new }
    {
        self.call(Call::CarriageReturn)
    }

    /// Moves the cursor to the next line (LF, VT, FF, IND).
    fn linefeed(&mut self)
        ensures { step self.old said.linefeed self.new }
    {
        self.call(Call::Linefeed)
    }

    /// Rings the bell (BEL).
    fn bell(&mut self)
        ensures { step self.old said.bell self.new }
    {
        self.call(Call::Bell)
    }

    /// Shows that a character was in error (SUB).
    fn substitute(&mut self)
        ensures { step self.old said.substitute self.new }
    {
        self.call(Call::Substitute)
    }

    /// Moves the cursor to the next line, and to column 0 in new line mode. No sequence calls it.
    fn newline(&mut self)
        ensures { step self.old said.newline self.new }
    {
        self.call(Call::Newline)
    }

    /// Sets a tab stop at the cursor's column (HTS).
    fn set_horizontal_tabstop(&mut self)
        ensures { step self.old said.set_horizontal_tabstop self.new }
    {
        self.call(Call::SetHorizontalTabstop)
    }

    /// Scrolls the region up by `rows` rows (SU).
    fn scroll_up(&mut self, rows: usize)
        ensures { step self.old (said.scroll_up rows) self.new }
    {
        self.call(Call::ScrollUp(rows))
    }

    /// Scrolls the region down by `rows` rows (SD).
    fn scroll_down(&mut self, rows: usize)
        ensures { step self.old (said.scroll_down rows) self.new }
    {
        self.call(Call::ScrollDown(rows))
    }

    /// Inserts `count` blank lines at the cursor (IL).
    fn insert_blank_lines(&mut self, count: usize)
        ensures { step self.old (said.insert_blank_lines count) self.new }
    {
        self.call(Call::InsertBlankLines(count))
    }

    /// Deletes `count` lines from the cursor on (DL).
    fn delete_lines(&mut self, count: usize)
        ensures { step self.old (said.delete_lines count) self.new }
    {
        self.call(Call::DeleteLines(count))
    }

    /// Erases `count` cells from the cursor on (ECH).
    fn erase_chars(&mut self, count: usize)
        ensures { step self.old (said.erase_chars count) self.new }
    {
        self.call(Call::EraseChars(count))
    }

    /// Deletes `count` cells from the cursor on (DCH).
    fn delete_chars(&mut self, count: usize)
        ensures { step self.old (said.delete_chars count) self.new }
    {
        self.call(Call::DeleteChars(count))
    }

    /// Moves the cursor back by `count` tab stops (CBT).
    fn move_backward_tabs(&mut self, count: u16)
        ensures { step self.old (said.move_backward_tabs count) self.new }
    {
        self.call(Call::MoveBackwardTabs(count))
    }

    /// Moves the cursor forward by `count` tab stops (CHT).
    fn move_forward_tabs(&mut self, count: u16)
        ensures { step self.old (said.move_forward_tabs count) self.new }
    {
        self.call(Call::MoveForwardTabs(count))
    }

    /// Saves the cursor (DECSC, SCOSC).
    fn save_cursor_position(&mut self)
        ensures { step self.old said.save_cursor_position self.new }
    {
        self.call(Call::SaveCursorPosition)
    }

    /// Restores the saved cursor (DECRC, SCORC).
    fn restore_cursor_position(&mut self)
        ensures { step self.old said.restore_cursor_position self.new }
    {
        self.call(Call::RestoreCursorPosition)
    }

    /// Clears a part of the cursor's line (EL).
    fn clear_line(&mut self, mode: LineClearMode)
        ensures { step self.old (said.clear_line mode) self.new }
    {
        self.call(Call::ClearLine(mode))
    }

    /// Clears a part of the screen (ED).
    fn clear_screen(&mut self, mode: ClearMode)
        ensures { step self.old (said.clear_screen mode) self.new }
    {
        self.call(Call::ClearScreen(mode))
    }

    /// Clears tab stops (TBC).
    fn clear_tabs(&mut self, mode: TabulationClearMode)
        ensures { step self.old (said.clear_tabs mode) self.new }
    {
        self.call(Call::ClearTabs(mode))
    }

    /// Sets a tab stop every `interval` columns (DECST8C).
    fn set_tabs(&mut self, interval: u16)
        ensures { step self.old (said.set_tabs interval) self.new }
    {
        self.call(Call::SetTabs(interval))
    }

    /// Resets the terminal to its initial state (RIS).
    fn reset_state(&mut self)
        ensures { step self.old said.reset_state self.new }
    {
        self.call(Call::ResetState)
    }

    /// Moves the cursor up one line, and scrolls at the region's top (RI).
    fn reverse_index(&mut self)
        ensures { step self.old said.reverse_index self.new }
    {
        self.call(Call::ReverseIndex)
    }

    /// Changes one drawing attribute (SGR).
    fn terminal_attribute(&mut self, attr: Attr)
        ensures { step self.old (said.terminal_attribute attr) self.new }
    {
        self.call(Call::TerminalAttribute(attr))
    }

    /// Sets a mode (SM).
    fn set_mode(&mut self, mode: Mode)
        ensures { step self.old (said.set_mode mode) self.new }
    {
        self.call(Call::SetMode(mode))
    }

    /// Resets a mode (RM).
    fn unset_mode(&mut self, mode: Mode)
        ensures { step self.old (said.unset_mode mode) self.new }
    {
        self.call(Call::UnsetMode(mode))
    }

    /// Asks whether a mode is set (DECRQM).
    fn report_mode(&mut self, mode: Mode)
        ensures { step self.old (said.report_mode mode) self.new }
    {
        self.call(Call::ReportMode(mode))
    }

    /// Sets a private mode (DECSET).
    fn set_private_mode(&mut self, mode: PrivateMode)
        ensures { step self.old (said.set_private_mode mode) self.new }
    {
        self.call(Call::SetPrivateMode(mode))
    }

    /// Resets a private mode (DECRST).
    fn unset_private_mode(&mut self, mode: PrivateMode)
        ensures { step self.old (said.unset_private_mode mode) self.new }
    {
        self.call(Call::UnsetPrivateMode(mode))
    }

    /// Asks whether a private mode is set (DECRQM).
    fn report_private_mode(&mut self, mode: PrivateMode)
        ensures { step self.old (said.report_private_mode mode) self.new }
    {
        self.call(Call::ReportPrivateMode(mode))
    }

    /// Sets the scrolling region (DECSTBM). Both lines count from 1, and `None` is the last line.
    fn set_scrolling_region(&mut self, top: usize, bottom: Option<usize>)
        ensures { step self.old (said.set_scrolling_region top bottom) self.new }
    {
        self.call(Call::SetScrollingRegion(top, bottom))
    }

    /// Makes the keypad send application sequences (DECKPAM).
    fn set_keypad_application_mode(&mut self)
        ensures { step self.old said.set_keypad_application_mode self.new }
    {
        self.call(Call::SetKeypadApplicationMode)
    }

    /// Makes the keypad send numbers (DECKPNM).
    fn unset_keypad_application_mode(&mut self)
        ensures { step self.old said.unset_keypad_application_mode self.new }
    {
        self.call(Call::UnsetKeypadApplicationMode)
    }

    /// Draws with the character set of this index (SI, SO).
    fn set_active_charset(&mut self, index: CharsetIndex)
        ensures { step self.old (said.set_active_charset index) self.new }
    {
        self.call(Call::SetActiveCharset(index))
    }

    /// Gives an index its character set (SCS).
    fn configure_charset(&mut self, index: CharsetIndex, charset: StandardCharset)
        ensures { step self.old (said.configure_charset index charset) self.new }
    {
        self.call(Call::ConfigureCharset(index, charset))
    }

    /// Sets the colour of an index (OSC 4, 10, 11 and 12).
    fn set_color(&mut self, index: usize, color: Rgb)
        ensures { step self.old (said.set_color index color) self.new }
    {
        self.call(Call::SetColor(index, color))
    }

    /// Asks for the colour of an index (OSC 4, 10, 11 and 12 with `?`). The answer begins with the prefix and ends with
    /// the terminator.
    fn dynamic_color_sequence(&mut self, prefix: &str, index: usize, terminator: &str)
        ensures { step self.old (said.dynamic_color_sequence prefix.now index terminator.now) self.new }
    {
        self.call(Call::DynamicColorSequence(prefix, index, terminator))
    }

    /// Resets the colour of an index to its initial one (OSC 104, 110, 111 and 112).
    fn reset_color(&mut self, index: usize)
        ensures { step self.old (said.reset_color index) self.new }
    {
        self.call(Call::ResetColor(index))
    }

    /// Stores data, in base64, in a clipboard (OSC 52).
    fn clipboard_store(&mut self, clipboard: u8, base64: &[u8])
        ensures { step self.old (said.clipboard_store clipboard base64.now) self.new }
    {
        self.call(Call::ClipboardStore(clipboard, base64))
    }

    /// Asks for a clipboard's data (OSC 52). The answer ends with the terminator.
    fn clipboard_load(&mut self, clipboard: u8, terminator: &str)
        ensures { step self.old (said.clipboard_load clipboard terminator.now) self.new }
    {
        self.call(Call::ClipboardLoad(clipboard, terminator))
    }

    /// Fills the screen with `E` (DECALN).
    fn decaln(&mut self)
        ensures { step self.old said.decaln self.new }
    {
        self.call(Call::Decaln)
    }

    /// Pushes the title on a stack (`CSI 22 t`).
    fn push_title(&mut self)
        ensures { step self.old said.push_title self.new }
    {
        self.call(Call::PushTitle)
    }

    /// Pops the title from the stack (`CSI 23 t`).
    fn pop_title(&mut self)
        ensures { step self.old said.pop_title self.new }
    {
        self.call(Call::PopTitle)
    }

    /// Asks for the text area's size in pixels (`CSI 14 t`).
    fn text_area_size_pixels(&mut self)
        ensures { step self.old said.text_area_size_pixels self.new }
    {
        self.call(Call::TextAreaSizePixels)
    }

    /// Asks for the text area's size in characters (`CSI 18 t`).
    fn text_area_size_chars(&mut self)
        ensures { step self.old said.text_area_size_chars self.new }
    {
        self.call(Call::TextAreaSizeChars)
    }

    /// Begins a hyperlink, or ends the present one for `None` (OSC 8).
    fn set_hyperlink(&mut self, link: Option<Hyperlink<'_>>)
        ensures { step self.old (said.set_hyperlink (option_map link_of link.entry)) self.new }
    {
        self.call(Call::SetHyperlink(link))
    }

    /// Sets the pointer's shape (OSC 22).
    fn set_mouse_cursor_icon(&mut self, icon: CursorIcon)
        ensures { step self.old (said.set_mouse_cursor_icon icon) self.new }
    {
        self.call(Call::SetMouseCursorIcon(icon))
    }

    /// Asks for the keyboard modes (`CSI ? u`).
    fn report_keyboard_mode(&mut self)
        ensures { step self.old said.report_keyboard_mode self.new }
    {
        self.call(Call::ReportKeyboardMode)
    }

    /// Pushes keyboard modes on a stack (`CSI > u`).
    fn push_keyboard_mode(&mut self, mode: KeyboardModes)
        ensures { step self.old (said.push_keyboard_mode mode) self.new }
    {
        self.call(Call::PushKeyboardMode(mode))
    }

    /// Pops `count` keyboard modes from the stack (`CSI < u`).
    fn pop_keyboard_modes(&mut self, count: u16)
        ensures { step self.old (said.pop_keyboard_modes count) self.new }
    {
        self.call(Call::PopKeyboardModes(count))
    }

    /// Changes the keyboard modes (`CSI = u`).
    fn set_keyboard_mode(&mut self, mode: KeyboardModes, behavior: KeyboardModesApplyBehavior)
        ensures { step self.old (said.set_keyboard_mode mode behavior) self.new }
    {
        self.call(Call::SetKeyboardMode(mode, behavior))
    }

    /// Sets xterm's `modifyOtherKeys` (`CSI > 4 m`).
    fn set_modify_other_keys(&mut self, mode: ModifyOtherKeys)
        ensures { step self.old (said.set_modify_other_keys mode) self.new }
    {
        self.call(Call::SetModifyOtherKeys(mode))
    }

    /// Asks for xterm's `modifyOtherKeys` (`CSI ? 4 m`).
    fn report_modify_other_keys(&mut self)
        ensures { step self.old said.report_modify_other_keys self.new }
    {
        self.call(Call::ReportModifyOtherKeys)
    }

    /// Selects the character path (SCP): the direction in which characters are laid out.
    fn set_scp(&mut self, char_path: ScpCharPath, update_mode: ScpUpdateMode)
        ensures { step self.old (said.set_scp char_path update_mode) self.new }
    {
        self.call(Call::SetScp(char_path, update_mode))
    }
}

//! What a screen reports to the program around it.
ghost use Rattle.std.specs.Prelude.{◌≡◌, map, Bool};
ghost use Rattle.screen_model.specs.Call as said;
ghost use Rattle.screen_model.specs.Call.{ScreenView};
ghost use Rattle.vt100_rows.specs.Row.{RowView};
ghost use Rattle.vt100.specs.CallOf.{call_of};

use crate::screen::Screen;
use vt100_core::capture::RowContents;

/// A call, as a value. Each variant is a method of [`Callbacks`].
#[derive(Clone, Copy)]
pub enum Call<'a> {
    /// The audible bell (BEL).
    AudibleBell,
    /// The visual bell (`ESC g`).
    VisualBell,
    /// A request for this many rows and columns (XTWINOPS 8).
    Resize(u16, u16),
    /// The name of the window's icon (OSC 0 and 1).
    SetWindowIconName(&'a [u8]),
    /// The window's title (OSC 0 and 2).
    SetWindowTitle(&'a [u8]),
    /// Data in base64 for the clipboards of these letters and digits (OSC 52).
    CopyToClipboard(&'a [u8], &'a [u8]),
    /// A request for what the clipboards of these letters and digits hold (OSC 52 with `?`).
    PasteFromClipboard(&'a [u8]),
    /// U+FFFD, or a control from U+0080 to U+009F.
    UnhandledChar(char),
    /// A control.
    UnhandledControl(u8),
    /// An escape sequence: its first two intermediates and its final byte.
    UnhandledEscape(Option<u8>, Option<u8>, u8),
    /// A control sequence: its first two intermediates, its parameters and its final byte.
    UnhandledCsi(Option<u8>, Option<u8>, &'a [&'a [u16]], char),
    /// An operating system command: its pieces.
    UnhandledOsc(&'a [&'a [u8]]),
}

/// Receives what a program asks of its terminal beyond drawing, and the rows that leave the screen for good.
///
/// An implementation provides [`call`](Callbacks::call) and [`on_scroll`](Callbacks::on_scroll). Every other method
/// passes its call to `call`; an implementation may override it, to save that step. A call comes after the change
/// that its event made, and may change the screen.
pub trait Callbacks {
    /// What a call does: the callbacks and the screen before it, the call, and both after it.
    ghost step: { Self → ScreenView → said.Call → Self → ScreenView → Type 0 };

    /// What a report does: the callbacks before it, the row, whether it left the alternate sheet, and the callbacks
    /// after.
    ghost scrolls: { Self → RowView → Bool → Self → Type 0 };

    /// A call.
    fn call(&mut self, screen: &mut Screen, call: Call<'_>)
        ensures { step self.old screen.old (call_of call.entry) self.new screen.new };

    /// A row left for good: it was kept and is pushed out, or it left the screen and isn't kept. `alternate_screen`
    /// is true if it was a row of the alternate screen.
    ///
    /// A screen that becomes lower reports rows too. One that becomes higher gets rows back, blank where they weren't
    /// kept; these are reported like others when they leave again.
    fn on_scroll(&mut self, contents: RowContents<'_>, alternate_screen: bool)
        ensures { scrolls self.old contents.entry alternate_screen self.new };

    /// The audible bell (BEL).
    fn audible_bell(&mut self, screen: &mut Screen)
        ensures { step self.old screen.old said.audible_bell self.new screen.new }
    {
        self.call(screen, Call::AudibleBell);
    }

    /// The visual bell (`ESC g`).
    fn visual_bell(&mut self, screen: &mut Screen)
        ensures { step self.old screen.old said.visual_bell self.new screen.new }
    {
        self.call(screen, Call::VisualBell);
    }

    /// A request for this many rows and columns (XTWINOPS 8).
    fn resize(&mut self, screen: &mut Screen, request: (u16, u16))
        ensures { step self.old screen.old (said.resize request.0 request.1) self.new screen.new }
    {
        self.call(screen, Call::Resize(request.0, request.1));
    }

    /// The name of the window's icon (OSC 0 and 1).
    fn set_window_icon_name(&mut self, screen: &mut Screen, icon_name: &[u8])
        ensures { step self.old screen.old (said.set_window_icon_name icon_name.now) self.new screen.new }
    {
        self.call(screen, Call::SetWindowIconName(icon_name));
    }

    /// The window's title (OSC 0 and 2).
    fn set_window_title(&mut self, screen: &mut Screen, title: &[u8])
        ensures { step self.old screen.old (said.set_window_title title.now) self.new screen.new }
    {
        self.call(screen, Call::SetWindowTitle(title));
    }

    /// Data in base64 for the clipboards of these letters and digits (OSC 52).
    fn copy_to_clipboard(&mut self, screen: &mut Screen, ty: &[u8], data: &[u8])
        ensures { step self.old screen.old (said.copy_to_clipboard ty.now «data».now) self.new screen.new }
    {
        self.call(screen, Call::CopyToClipboard(ty, data));
    }

    /// A request for what the clipboards of these letters and digits hold (OSC 52 with `?`).
    fn paste_from_clipboard(&mut self, screen: &mut Screen, ty: &[u8])
        ensures { step self.old screen.old (said.paste_from_clipboard ty.now) self.new screen.new }
    {
        self.call(screen, Call::PasteFromClipboard(ty));
    }

    /// U+FFFD, or a control from U+0080 to U+009F.
    fn unhandled_char(&mut self, screen: &mut Screen, c: char)
        ensures { step self.old screen.old (said.unhandled_char c) self.new screen.new }
    {
        self.call(screen, Call::UnhandledChar(c));
    }

    /// A control that does nothing here.
    fn unhandled_control(&mut self, screen: &mut Screen, b: u8)
        ensures { step self.old screen.old (said.unhandled_control b) self.new screen.new }
    {
        self.call(screen, Call::UnhandledControl(b));
    }

    /// An escape sequence that does nothing here: its first two intermediates and its final byte.
    fn unhandled_escape(&mut self, screen: &mut Screen, i1: Option<u8>, i2: Option<u8>, b: u8)
        ensures { step self.old screen.old (said.unhandled_escape i1 i2 b) self.new screen.new }
    {
        self.call(screen, Call::UnhandledEscape(i1, i2, b));
    }

    /// A control sequence that does nothing here, or of which a group of parameters does nothing: its first two
    /// intermediates, its parameters and its final byte.
    fn unhandled_csi(
        &mut self,
        screen: &mut Screen,
        i1: Option<u8>,
        i2: Option<u8>,
        params: &[&[u16]],
        c: char,
    )
        ensures { step self.old screen.old (said.unhandled_csi i1 i2 (map (λ g. g.now) params.now) c) self.new
            screen.new }
    {
        self.call(screen, Call::UnhandledCsi(i1, i2, params, c));
    }

    /// An operating system command that does nothing here: its pieces.
    fn unhandled_osc(&mut self, screen: &mut Screen, params: &[&[u8]])
        ensures { step self.old screen.old (said.unhandled_osc (map (λ p. p.now) params.now)) self.new screen.new }
    {
        self.call(screen, Call::UnhandledOsc(params));
    }
}

/// Does nothing.
impl Callbacks for () {
    ghost step = { λ c v k d w. v ≡ w };

    ghost scrolls = { λ c v a d. c ≡ d };

    fn call(&mut self, _screen: &mut Screen, _call: Call<'_>) {}

    fn on_scroll(&mut self, _contents: RowContents<'_>, _alternate_screen: bool) {}
}

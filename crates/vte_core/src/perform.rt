//! The trait of what receives events.

ghost use Rattle.std.specs.Prelude.{◌≡◌, Bool, map, All};
ghost use Rattle.std.specs.Str.{chars};
ghost use Rattle.printable.specs.Printable.{IsPrintable};
ghost use Rattle.vte_core.specs.Event as e;
ghost use Rattle.vte_core.specs.Event.{Performs};
ghost use Rattle.vte_core.specs.EventOf.{event_of};

use crate::event::Event;
use crate::params::Params;
use crate::thresholds::LONG_TEXT;

/// Receives the events of a byte stream, in order, each once.
///
/// An implementation writes [`event`](Perform::event) and [`terminated`](Perform::terminated). Every other method
/// passes its event to `event`; an implementation may override it, to save the detour.
pub trait Perform {
    /// What an event does: the performer before it, the event, the performer after it.
    ghost step: { Self → e.Event → Self → Type 0 };

    /// Whether the performer asks the parser to stop.
    ghost is_terminated: { Self → Bool };

    /// An event.
    fn event(&mut self, event: Event<'_>)
        ensures { step self.old (event_of event.entry) self.new };

    /// Whether `Parser::advance_until_terminated` should stop.
    fn terminated(&self) -> bool
        ensures { result ≡ is_terminated self.now };

    /// A character of ground text, DEL included. A malformed sequence of bytes is U+FFFD.
    fn print(&mut self, c: char)
        ensures { step self.old (e.Print c) self.new }
    {
        self.event(Event::Print(c));
    }

    /// A run of ground text without controls: its characters, one after another. The parser hands over what lies
    /// between two controls or malformed sequences as one text. Only a character that is alone, that the end of a
    /// piece cut, or that ends a malformed sequence comes by `print`, and the text goes on after it.
    fn print_str(&mut self, text: &str)
        ensures { Performs step self.old (map e.Print (chars text.now)) self.new }
    {
        if text.len() >= LONG_TEXT && text.is_ascii() {
            for byte in text.as_bytes() {
                self.print(*byte as char);
            }
            return;
        }
        for c in text.chars() {
            self.print(c);
        }
    }

    /// A run of printable ASCII (0x20 to 0x7E). It comes in the place of `print_str`, where each character is such. An
    /// implementation may write it, to save a look at each byte.
    fn print_ascii(&mut self, text: &str)
        requires { All IsPrintable text.now }
        ensures { Performs step self.old (map e.Print (chars text.now)) self.new }
    {
        self.print_str(text);
    }

    /// A control: 0x00 to 0x1F but ESC, and in ground text 0x80 to 0x9F.
    fn execute(&mut self, byte: u8)
        ensures { step self.old (e.Execute byte) self.new }
    {
        self.event(Event::Execute(byte));
    }

    /// A run of controls of ASCII, one after another. It comes in the place of `execute` of each. An implementation may
    /// write it, to save a look at each control.
    #[inline(always)]
    fn execute_all(&mut self, controls: &[u8])
        ensures { Performs step self.old (map e.Execute controls.now) self.new }
    {
        for byte in controls {
            self.execute(*byte);
        }
    }

    /// The final byte of a device control string's header. `ignore` says that there were more numbers or
    /// intermediates than are kept.
    fn hook(&mut self, params: &Params, intermediates: &[u8], ignore: bool, action: char)
        ensures { step self.old (e.Hook params.now intermediates.now ignore action) self.new }
    {
        self.event(Event::Hook {
            params,
            intermediates,
            ignore,
            action,
        });
    }

    /// A byte of a device control string's data.
    fn put(&mut self, byte: u8)
        ensures { step self.old (e.Put byte) self.new }
    {
        self.event(Event::Put(byte));
    }

    /// The end of a device control string.
    fn unhook(&mut self)
        ensures { step self.old e.Unhook self.new }
    {
        self.event(Event::Unhook);
    }

    /// An operating system command: its data, cut at `;`. `bell_terminated` says that BEL ended it, and not ESC, CAN
    /// or SUB.
    fn osc_dispatch(&mut self, params: &[&[u8]], bell_terminated: bool)
        ensures { step self.old (e.Osc (map (λ p. p.now) params.now) bell_terminated) self.new }
    {
        self.event(Event::OscDispatch {
            params,
            bell_terminated,
        });
    }

    /// The final byte of a control sequence. `ignore` says that there were more numbers or intermediates than are
    /// kept.
    fn csi_dispatch(&mut self, params: &Params, intermediates: &[u8], ignore: bool, action: char)
        ensures { step self.old (e.Csi params.now intermediates.now ignore action) self.new }
    {
        self.event(Event::CsiDispatch {
            params,
            intermediates,
            ignore,
            action,
        });
    }

    /// The final byte of an escape sequence. `ignore` says that there were more intermediates than are kept.
    fn esc_dispatch(&mut self, intermediates: &[u8], ignore: bool, byte: u8)
        ensures { step self.old (e.Esc intermediates.now ignore byte) self.new }
    {
        self.event(Event::EscDispatch {
            intermediates,
            ignore,
            byte,
        });
    }
}

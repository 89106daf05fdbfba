//! Control characters and escape sequences (ECMA-48, the DEC terminals).
ghost use Rattle.std.specs.Prelude.{◌≡◌};
ghost use Rattle.vte_types.specs.Call.{Calls};
ghost use Rattle.vte.specs.Escape.{calls_at, execute_calls, escape_calls, unmarked_escape_rows, charset_calls};
ghost use Rattle.vte.specs.Escape.{charset_index};

use vte_types::C0;
use vte_types::charset::{CharsetIndex, StandardCharset};
use vte_types::handler::Handler;

/// Makes the call of a control character, if it has one. The frequent ones are compared first, since a jump by a table
/// is often mispredicted.
#[inline(always)]
pub fn execute<H: Handler>(handler: &mut H, byte: u8)
    ensures { Calls H.step handler.old (execute_calls byte) handler.new }
{
    match byte {
        C0::CR => handler.carriage_return(),
        C0::LF => handler.linefeed(),
        C0::BS => handler.backspace(),
        0x10..=0x19 => {}
        _ => execute_any(handler, byte),
    }
}

/// Makes the call of any control character, if it has one, by the whole table.
// It isn't inlined, so that the frequent controls need no stack for its calls.
#[inline(never)]
fn execute_any<H: Handler>(handler: &mut H, byte: u8)
    ensures { Calls H.step handler.old (execute_calls byte) handler.new }
{
    match byte {
        C0::HT => handler.put_tab(1),
        C0::BS => handler.backspace(),
        C0::CR => handler.carriage_return(),
        C0::LF | C0::VT | C0::FF => handler.linefeed(),
        C0::BEL => handler.bell(),
        C0::SUB => handler.substitute(),
        C0::SI => handler.set_active_charset(CharsetIndex::G0),
        C0::SO => handler.set_active_charset(CharsetIndex::G1),
        _ => {}
    }
}

/// Makes the calls of an escape sequence.
pub fn escape<H: Handler>(handler: &mut H, intermediates: &[u8], byte: u8)
    ensures { Calls H.step handler.old (escape_calls intermediates.now byte) handler.new }
{
    match intermediates {
        [] => unmarked_escape(handler, byte),
        [b'#'] => {
            if byte == b'8' {
                handler.decaln();
            }
        }
        [mark] => configure_charset(handler, charset_for(*mark), byte),
        _ => {}
    }
}

/// Makes the calls of an escape sequence without intermediates.
fn unmarked_escape<H: Handler>(handler: &mut H, byte: u8)
    ensures { Calls H.step handler.old (calls_at byte unmarked_escape_rows) handler.new }
{
    match byte {
        b'D' => handler.linefeed(),
        b'E' => {
            handler.linefeed();
            handler.carriage_return();
        }
        b'H' => handler.set_horizontal_tabstop(),
        b'M' => handler.reverse_index(),
        b'Z' => handler.identify_terminal(None),
        b'c' => handler.reset_state(),
        b'7' => handler.save_cursor_position(),
        b'8' => handler.restore_cursor_position(),
        b'=' => handler.set_keypad_application_mode(),
        b'>' => handler.unset_keypad_application_mode(),
        _ => {}
    }
}

/// The character set (G0 to G3) that an intermediate byte designates.
fn charset_for(mark: u8) -> Option<CharsetIndex>
    ensures { result ≡ charset_index mark }
{
    match mark {
        b'(' => Some(CharsetIndex::G0),
        b')' => Some(CharsetIndex::G1),
        b'*' => Some(CharsetIndex::G2),
        b'+' => Some(CharsetIndex::G3),
        _ => None,
    }
}

/// Designates the character set that the final byte names.
fn configure_charset<H: Handler>(handler: &mut H, index: Option<CharsetIndex>, byte: u8)
    ensures { Calls H.step handler.old (charset_calls index byte) handler.new }
{
    let Some(index) = index else {
        return;
    };
    match byte {
        b'B' => handler.configure_charset(index, StandardCharset::Ascii),
        b'0' => handler.configure_charset(index, StandardCharset::SpecialCharacterAndLineDrawing),
        _ => {}
    }
}

//! Operating system commands (xterm's control sequences, "Operating System Commands").
ghost use Rattle.std.specs.Prelude.{◌≡◌, ◌≤◌, ◌++◌, ◌∷◌, [], codes, map, filter, length, nat_lt, option_map, Some};
ghost use Rattle.std.specs.Prelude.{None, if◌then◌else◌};
ghost use Rattle.std.specs.List.{flat_map, join_with_byte};
ghost use Rattle.std.specs.Str.{is_utf8};
ghost use Rattle.std.specs.Fmt.{decimal};
ghost use Rattle.vte_core.specs.Event as e;
ghost use Rattle.vte_core.specs.Laws.{Fits};
ghost use Rattle.vte_types.specs.Call.{Calls};
ghost use Rattle.vte.specs.Osc.{osc_calls, title_calls, text_or_empty, utf8_or_none, link_calls, link_id, color_calls};
ghost use Rattle.vte.specs.Osc.{palette_calls, dynamic_calls, icon_calls, cursor_calls, clipboard_calls, reset_calls};
ghost use Rattle.vte.specs.Osc.{all_resets, index_resets, two_digits, AreKept};

use crate::color::{parse_color, parse_number};
use crate::pieces::Pieces;
use crate::split::split_first;
use arrayvec::ArrayString;
use itoa::Buffer;
use std::str;
use vte_types::cursor::CursorShape;
use vte_types::cursor_icon::CursorIcon;
use vte_types::handler::Handler;
use vte_types::hyperlink::Hyperlink;

/// The most bytes of a joined text: the 1,024 bytes of data that the parser keeps, and a `;` for each of its 16 pieces.
const TEXT: usize = 1040;

/// Makes the calls of a command.
pub fn osc<H: Handler>(handler: &mut H, params: &[&[u8]], bell_terminated: bool)
    ensures { Fits 1024 (e.Osc (map (λ p. p.now) params.now) bell_terminated)
        → Calls H.step handler.old (osc_calls (map (λ p. p.now) params.now) bell_terminated) handler.new }
{
    let mut pieces = Pieces::new(params);
    let Some(command) = pieces.next() else {
        return;
    };
    let terminator = if bell_terminated { "\x07" } else { "\x1b\\" };
    match command {
        [b'0'] | [b'2'] => set_title(handler, pieces),
        [b'4'] => set_palette(handler, pieces, terminator),
        [b'8'] => set_hyperlink(handler, pieces),
        [b'1', b'0'] => set_dynamic_colors(handler, 10, pieces, terminator),
        [b'1', b'1'] => set_dynamic_colors(handler, 11, pieces, terminator),
        [b'1', b'2'] => set_dynamic_colors(handler, 12, pieces, terminator),
        [b'2', b'2'] => set_mouse_cursor_icon(handler, pieces),
        [b'5', b'0'] => set_cursor_shape(handler, pieces),
        [b'5', b'2'] => clipboard(handler, pieces, terminator),
        [b'1', b'0', b'4'] => reset_colors(handler, pieces),
        [b'1', b'1', b'0'] => handler.reset_color(256),
        [b'1', b'1', b'1'] => handler.reset_color(257),
        [b'1', b'1', b'2'] => handler.reset_color(258),
        _ => {}
    }
}

/// 0, 2: the window's title.
fn set_title<H: Handler>(handler: &mut H, pieces: Pieces<'_>)
    ensures { AreKept pieces.entry → Calls H.step handler.old (title_calls pieces.entry) handler.new }
{
    let Some(_first) = pieces.peek() else {
        return;
    };
    let mut title = ArrayString::new();
    join_texts(&mut title, pieces);
    handler.set_title(Some(title.as_str().trim()));
}

/// Joins the pieces that are UTF-8, with `;` between them.
fn join_texts(text: &mut ArrayString<TEXT>, mut pieces: Pieces<'_>)
    ensures { text.old.bytes ≡ [] → length (join_with_byte 59 (filter is_utf8 pieces.entry)) ≤ 1040
        → text.new.bytes ≡ join_with_byte 59 (filter is_utf8 pieces.entry) }
{
    while let Some(piece) = pieces.next() {
        if let Some(first) = text_of(piece) {
            begin(text, first);
            return append_texts(text, pieces);
        }
    }
}

/// Appends `;` and the piece, for each piece that is UTF-8.
fn append_texts(text: &mut ArrayString<TEXT>, mut pieces: Pieces<'_>)
    ensures { length (text.old.bytes ++ flat_map (λ p. 59 ∷ p) (filter is_utf8 pieces.entry)) ≤ 1040
        → text.new.bytes ≡ text.old.bytes ++ flat_map (λ p. 59 ∷ p) (filter is_utf8 pieces.entry) }
{
    while let Some(piece) = pieces.next() {
        if let Some(more) = text_of(piece) {
            append(text, more);
        }
    }
}

/// Appends `;` and the piece, or only `;` if it isn't UTF-8.
fn append_pieces(text: &mut ArrayString<TEXT>, mut pieces: Pieces<'_>)
    ensures { length (text.old.bytes ++ flat_map (λ p. 59 ∷ text_or_empty p) pieces.entry) ≤ 1040
        → text.new.bytes ≡ text.old.bytes ++ flat_map (λ p. 59 ∷ text_or_empty p) pieces.entry }
{
    while let Some(piece) = pieces.next() {
        append(text, text_or_nothing(piece));
    }
}

/// Puts a first text into an empty one.
fn begin(text: &mut ArrayString<TEXT>, first: &str)
    ensures { text.old.bytes ≡ [] → length first.now ≤ 1040 → text.new.bytes ≡ first.now }
{
    // It fits: a command has at most 1,040 bytes.
    let _ = text.try_push_str(first);
}

/// Appends `;` and a text.
fn append(text: &mut ArrayString<TEXT>, more: &str)
    ensures { length (text.old.bytes ++ 59 ∷ more.now) ≤ 1040 → text.new.bytes ≡ text.old.bytes ++ 59 ∷ more.now }
{
    // It fits, as above.
    let _ = text.try_push(';');
    let _ = text.try_push_str(more);
}

/// The piece as a text, if it is UTF-8.
fn text_of(piece: &[u8]) -> Option<&str>
    ensures { option_map (λ t. t.now) result ≡ utf8_or_none piece.now }
{
    match str::from_utf8(piece) {
        Ok(text) => Some(text),
        Err(_) => None,
    }
}

/// The piece as a text, which is empty if it isn't UTF-8.
fn text_or_nothing(piece: &[u8]) -> &str
    ensures { result.now ≡ text_or_empty piece.now }
{
    text_of(piece).unwrap_or("")
}

/// 4: colours of the palette, in pairs of index and colour.
fn set_palette<H: Handler>(handler: &mut H, mut pieces: Pieces<'_>, terminator: &str)
    ensures { Calls H.step handler.old (palette_calls pieces.entry terminator.now) handler.new }
{
    if pieces.len() % 2 != 0 {
        return;
    }
    while let Some(index) = pieces.next() {
        let Some(color) = pieces.next() else {
            return;
        };
        if let Some(index) = parse_number(index) {
            set_indexed(handler, index, color, terminator);
        }
    }
}

/// Sets a colour of the palette, or asks for it at `?`.
fn set_indexed<H: Handler>(handler: &mut H, index: u8, color: &[u8], terminator: &str)
    ensures { Calls H.step handler.old (color_calls (codes "4;" ++ decimal index) index terminator.now color.now)
        handler.new }
{
    let mut prefix = ArrayString::<64>::new();
    prefix.push_str("4;");
    prefix.push_str(Buffer::new().format(index));
    set_color(
        handler,
        prefix.as_str(),
        usize::from(index),
        color,
        terminator,
    );
}

/// Sets the colour of an index, or asks for it at `?`.
fn set_color<H: Handler>(
    handler: &mut H,
    prefix: &str,
    index: usize,
    color: &[u8],
    terminator: &str,
)
    ensures { Calls H.step handler.old (color_calls prefix.now index terminator.now color.now) handler.new }
{
    if let Some(color) = parse_color(color) {
        handler.set_color(index, color);
    } else if let [b'?'] = color {
        handler.dynamic_color_sequence(prefix, index, terminator);
    }
}

/// 10, 11, 12: the colours of the text, the background and the cursor. Each further piece is for the next number.
fn set_dynamic_colors<H: Handler>(
    handler: &mut H,
    first: u16,
    mut pieces: Pieces<'_>,
    terminator: &str,
)
    requires { 10 ≤ first }
    ensures { Calls H.step handler.old (dynamic_calls first pieces.entry terminator.now) handler.new }
{
    let mut number = first;
    while let Some(color) = pieces.next() {
        let Some(prefix) = dynamic_prefix(number) else {
            return;
        };
        set_color(
            handler,
            prefix,
            usize::from(number) + 246,
            color,
            terminator,
        );
        number += 1;
    }
}

/// The decimal digits of 10, 11 and 12.
fn dynamic_prefix(number: u16) -> Option<&'static str>
    requires { 10 ≤ number }
    ensures { option_map (λ t. t.now) result ≡ (if nat_lt 12 number then None else Some (two_digits number)) }
{
    match number {
        10 => Some("10"),
        11 => Some("11"),
        12 => Some("12"),
        _ => None,
    }
}

/// 8: a hyperlink, or the end of one.
fn set_hyperlink<H: Handler>(handler: &mut H, mut pieces: Pieces<'_>)
    ensures { AreKept pieces.entry → Calls H.step handler.old (link_calls pieces.entry) handler.new }
{
    let Some(params) = pieces.next() else {
        return;
    };
    let Some(first) = pieces.next() else {
        return;
    };
    let mut uri = ArrayString::new();
    join_pieces(&mut uri, first, pieces);
    let uri = uri.as_str();
    if uri.is_empty() {
        handler.set_hyperlink(None);
        return;
    }
    handler.set_hyperlink(Some(Hyperlink {
        id: find_id(params),
        uri,
    }));
}

/// Joins a piece and those after it, with `;` between them. A piece that isn't UTF-8 counts as empty.
fn join_pieces(text: &mut ArrayString<TEXT>, first: &[u8], pieces: Pieces<'_>)
    ensures { text.old.bytes ≡ [] → length (join_with_byte 59 (map text_or_empty (first.now ∷ pieces.entry))) ≤ 1040
        → text.new.bytes ≡ join_with_byte 59 (map text_or_empty (first.now ∷ pieces.entry)) }
{
    begin(text, text_or_nothing(first));
    append_pieces(text, pieces);
}

/// The id of a hyperlink: what follows the first `id=` at the start of a part, where parts end at `:`. `None` if it
/// isn't UTF-8.
fn find_id(params: &[u8]) -> Option<&str>
    ensures { option_map (λ t. t.now) result ≡ link_id params.now }
{
    let mut rest = Some(params);
    while let Some(parts) = rest {
        let (part, after) = split_first(parts, b':');
        if part.starts_with(b"id=") {
            return text_of(&part[3..]);
        }
        rest = after;
    }
    None
}

/// 22: the pointer's shape.
fn set_mouse_cursor_icon<H: Handler>(handler: &mut H, mut pieces: Pieces<'_>)
    ensures { Calls H.step handler.old (icon_calls pieces.entry) handler.new }
{
    let Some(name) = pieces.next() else {
        return;
    };
    if pieces.peek().is_some() {
        return;
    }
    if let Some(icon) = CursorIcon::from_name(name) {
        handler.set_mouse_cursor_icon(icon);
    }
}

/// 50: the cursor's shape.
fn set_cursor_shape<H: Handler>(handler: &mut H, mut pieces: Pieces<'_>)
    ensures { Calls H.step handler.old (cursor_calls pieces.entry) handler.new }
{
    let Some(piece) = pieces.next() else {
        return;
    };
    if !piece.starts_with(b"CursorShape=") {
        return;
    }
    match &piece[12..] {
        [b'0', ..] => handler.set_cursor_shape(CursorShape::Block),
        [b'1', ..] => handler.set_cursor_shape(CursorShape::Beam),
        [b'2', ..] => handler.set_cursor_shape(CursorShape::Underline),
        _ => {}
    }
}

/// 52: stores data in a clipboard, or asks for its data.
fn clipboard<H: Handler>(handler: &mut H, mut pieces: Pieces<'_>, terminator: &str)
    ensures { Calls H.step handler.old (clipboard_calls pieces.entry terminator.now) handler.new }
{
    let Some(selector) = pieces.next() else {
        return;
    };
    let Some(base64) = pieces.next() else {
        return;
    };
    let clipboard = match selector {
        [] => b'c',
        [first, ..] => *first,
    };
    match base64 {
        [b'?'] => handler.clipboard_load(clipboard, terminator),
        _ => handler.clipboard_store(clipboard, base64),
    }
}

/// 104: resets the named colours of the palette, or all if none is named.
fn reset_colors<H: Handler>(handler: &mut H, pieces: Pieces<'_>)
    ensures { Calls H.step handler.old (reset_calls pieces.entry) handler.new }
{
    match pieces.peek() {
        None | Some([]) => reset_palette(handler),
        Some(_) => reset_indexed(handler, pieces),
    }
}

/// Resets all colours of the palette.
fn reset_palette<H: Handler>(handler: &mut H)
    ensures { Calls H.step handler.old all_resets handler.new }
{
    for index in 0..256 {
        handler.reset_color(index);
    }
}

/// Resets the colours of the palette with these indices.
fn reset_indexed<H: Handler>(handler: &mut H, mut pieces: Pieces<'_>)
    ensures { Calls H.step handler.old (flat_map index_resets pieces.entry) handler.new }
{
    while let Some(piece) = pieces.next() {
        if let Some(index) = parse_number(piece) {
            handler.reset_color(usize::from(index));
        }
    }
}

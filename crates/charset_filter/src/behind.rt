//! The bytes behind an event. They make a screen do what a terminal does at the event.

ghost use Rattle.std.specs.Prelude.{◌≡◌, ◌∷◌, [], ◌||◌, decimal};
ghost use Rattle.std.specs.List.{list_all};
ghost use Rattle.charset_filter.specs.Behind as specs;
ghost use Rattle.charset_filter.specs.Behind.{as_known, csi_behind, escape_behind, mode_behind, modes_behind};
ghost use Rattle.charset_filter.specs.Behind.{sgr_behind};
ghost use Rattle.charset_filter.specs.Room.{Appends};
ghost use Rattle.charset_filter.specs.Sets as sets;
ghost use Rattle.vte_core.specs.ParamsText.{group_text};
ghost use Rattle.charset_filter.specs.Groups.{first_text, has_some};

use crate::sets::CharacterSets;
use arrayvec::ArrayVec;
use itoa::Buffer;
use vte_core::Params;

/// The largest number of bytes behind an event.
pub const MOST_BEHIND: usize = 252;

/// The bytes behind an event. Bytes without room are dropped, but all bytes behind an event have room.
pub type Behind = ArrayVec<u8, MOST_BEHIND>;

/// DECSC and DECRC.
const SAVE: &[u8] = b"\x1b7";

const RESTORE: &[u8] = b"\x1b8";

/// What DECSTR resets: the attributes, the modes of the cursor and of the cursor keys, the keypad, and the region.
const SOFT_RESET: &[u8] = b"\x1b[m\x1b[?25h\x1b[?1l\x1b>\x1b7\x1b[r\x1b8";

/// Appends bytes.
fn push(behind: &mut Behind, bytes: &[u8])
    ensures { Appends behind.old.items bytes.now behind.new.items }
{
    let _fits = behind.try_extend_from_slice(bytes);
}

/// Appends the bytes behind an escape sequence.
pub fn push_escape(behind: &mut Behind, intermediates: &[u8], last: u8)
    ensures { Appends behind.old.items (escape_behind intermediates.now last) behind.new.items }
{
    match (intermediates, last) {
        ([], b'D') => push(behind, b"\n"),
        ([], b'E') => push(behind, b"\r\n"),
        _ => {}
    }
}

/// Appends the bytes behind a control sequence. `sets` are those before it.
pub fn push_csi(
    behind: &mut Behind,
    sets: CharacterSets,
    params: &Params,
    intermediates: &[u8],
    many: bool,
    last: char,
)
    ensures { Appends behind.old.items (csi_behind sets params.now intermediates.now many last) behind.new.items }
{
    match (intermediates, last) {
        ([], 'm') if !many => push_sgr(behind, params),
        ([], 'r') => push(behind, b"\x1b[H"),
        ([], 's') if is_bare(params) => push(behind, SAVE),
        ([], 'u') if is_bare(params) => push(behind, RESTORE),
        ([b'!'], 'p') => push(behind, SOFT_RESET),
        ([b'?'], 'h') => push_modes(behind, sets, params, true),
        ([b'?'], 'l') => push_modes(behind, sets, params, false),
        _ => {}
    }
}

/// Whether no parameter is given, or 0 alone.
pub fn is_bare(params: &Params) -> bool
    ensures { result ≡ sets.is_bare params.now }
{
    let mut groups = params.iter();
    let first = groups.next();
    let second = groups.next();
    match (first, second) {
        (Some([0]), None) => true,
        _ => false,
    }
}

/// Appends the bytes behind private modes that are set or reset, one after the other. `sets` are those before them.
fn push_modes(behind: &mut Behind, sets: CharacterSets, params: &Params, set: bool)
    ensures { Appends behind.old.items (modes_behind set sets params.now) behind.new.items }
{
    let mut sets = sets;
    let mut groups = params.iter();
    while let Some(group) = groups.next() {
        push_mode(behind, &sets, group, set);
        sets.change_mode(group, set);
    }
}

/// Appends the bytes behind the private mode that a group names.
fn push_mode(behind: &mut Behind, sets: &CharacterSets, group: &[u16], set: bool)
    ensures { Appends behind.old.items (mode_behind set sets.now group.now) behind.new.items }
{
    match group {
        [1047] if set => push(behind, b"\x1b[?47h"),
        [1047] if sets.is_alternate() => push(behind, b"\x1b[?47h\x1b[2J\x1b[?47l"),
        [1048] if set => push(behind, SAVE),
        [1048] => push(behind, RESTORE),
        _ => {}
    }
}

/// Appends the bytes behind SGR.
fn push_sgr(behind: &mut Behind, params: &Params)
    ensures { Appends behind.old.items (sgr_behind params.now) behind.new.items }
{
    if all_known(params) {
        return;
    }
    let mut some = false;
    let mut groups = params.iter();
    while let Some(group) = groups.next() {
        some = push_group(behind, group, some);
    }
    if some {
        push(behind, b"m");
    }
}

/// Whether `vt100` reads each of the groups.
fn all_known(params: &Params) -> bool
    ensures { result ≡ list_all specs.is_known params.now }
{
    let mut groups = params.iter();
    while let Some(group) = groups.next() {
        if !is_known(group) {
            return false;
        }
    }
    true
}

/// Whether `vt100` reads the group: a number, or a colour with its index or its three parts.
fn is_known(group: &[u16]) -> bool
    ensures { result ≡ specs.is_known group.now }
{
    matches!(group, [_] | [38 | 48, 5, _] | [38 | 48, 2, _, _, _])
}

/// Appends the group, or the one that `vt100` reads in its place, if there is one. `some` says whether a group was
/// appended before. Returns whether a group has been appended now.
fn push_group(behind: &mut Behind, group: &[u16], some: bool) -> bool
    ensures some { result ≡ (some || has_some (as_known group.now)) }
    ensures text { Appends behind.old.items (first_text some (as_known group.now)) behind.new.items }
{
    if is_known(group) {
        push_numbers(behind, some, group);
        return true;
    }
    match group {
        [4, 0] => push_numbers(behind, some, &[24]),
        [4, 1..=5] => push_numbers(behind, some, &[4]),
        [
            color @ (38 | 48),
            2,
            _,
            red @ 0..=255,
            green @ 0..=255,
            blue @ 0..=255,
        ] => {
            push_numbers(behind, some, &[*color, 2, *red, *green, *blue]);
        }
        _ => return some,
    }
    true
}

/// Appends a group of numbers, after others or as the first one.
fn push_numbers(behind: &mut Behind, some: bool, group: &[u16])
    ensures { Appends behind.old.items (first_text some (group.now ∷ [])) behind.new.items }
{
    push(behind, if some { b";" } else { b"\x1b[" });
    push_group_text(behind, group);
}

/// Appends the numbers of a group, joined by `:`.
fn push_group_text(behind: &mut Behind, group: &[u16])
    ensures { Appends behind.old.items (group_text group.now) behind.new.items }
{
    if let [first, rest @ ..] = group {
        push_number(behind, *first);
        for number in rest {
            push(behind, b":");
            push_number(behind, *number);
        }
    }
}

/// Appends a number in decimal digits.
fn push_number(behind: &mut Behind, number: u16)
    ensures { Appends behind.old.items (decimal number) behind.new.items }
{
    let mut buffer = Buffer::new();
    push(behind, buffer.format(number).as_bytes());
}

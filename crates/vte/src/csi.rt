//! Control sequences (CSI: ECMA-48, the DEC terminals and xterm).
ghost use Rattle.std.specs.Prelude.{◌≡◌, ◌≢◌, ◌≤◌, ◌<◌, ◌-◌, ℕ, pos, [], Option, length, map, true};
ghost use Rattle.std.specs.Int.{is_in_range};
ghost use Rattle.std.specs.List.{list_any};
ghost use Rattle.vte_types.specs.Call.{Calls, set_mode as set_mode_call, unset_mode as unset_mode_call};
ghost use Rattle.vte_types.specs.Call.{set_private_mode as set_private_call, unset_private_mode as unset_private_call};
ghost use Rattle.vte_types.specs.Call.{goto as goto_call, set_scrolling_region as set_scrolling_region_call};
ghost use Rattle.vte_types.specs.Lookup.{lookup};
ghost use Rattle.vte_types.specs.Mode.{mode_of, private_mode_of};
ghost use Rattle.vte.specs.Escape.{calls_at};
ghost use Rattle.vte.specs.Sgr.{first};
ghost use Rattle.vte.specs.Csi.{number_or, rest, nonzero, identify_calls, clear_screen_rows, clear_line_rows};
ghost use Rattle.vte.specs.Csi.{clear_tabs_rows, repeat_calls, window_rows, keyboard_modes, behaviour_of, asks_four};
ghost use Rattle.vte.specs.Csi.{calls_by, equals_rows, less_rows, space_rows, dollar_rows, question_dollar_rows};
ghost use Rattle.vte.specs.Csi.{question_rows, char_path, update_mode, style_rows, csi_calls, opens_group};
ghost use Rattle.vte.specs.Csi.{opening_groups, greater_rows};
ghost use Rattle.vte.specs.Timeout.{Ticked, sets_of};

use crate::sgr::{next_number, sgr};
use crate::timeout::Timeout;
use bitflags::Flags;
use std::time::Duration;
use vte_core::{Params, ParamsIter};
use vte_types::clear::{ClearMode, LineClearMode, TabulationClearMode};
use vte_types::cursor::{CursorShape, CursorStyle};
use vte_types::handler::Handler;
use vte_types::keyboard::{KeyboardModes, KeyboardModesApplyBehavior, ModifyOtherKeys};
use vte_types::mode::{Mode, PrivateMode};
use vte_types::scp::{ScpCharPath, ScpUpdateMode};

/// How long a synchronized update may last, in milliseconds.
pub const SYNC_UPDATE_TIMEOUT_MILLIS: u64 = 150;

/// The private mode of synchronized updates.
const SYNC_UPDATE: u16 = 2026;

/// The first number of the next group, or the default if there is none or it is 0.
fn next_or(groups: &mut ParamsIter<'_>, default: u16) -> u16
    ensures number { result ≡ number_or default groups.old }
    ensures rest { groups.new ≡ rest groups.old }
    ensures least { 1 ≤ default → 1 ≤ result }
{
    match next_number(groups) {
        None | Some(0) => default,
        Some(number) => number,
    }
}

/// The first number, or the default if there is none or it is 0.
#[inline(always)]
fn first_or(params: &Params, default: u16) -> u16
    ensures number { result ≡ number_or default params.now }
    ensures least { 1 ≤ default → 1 ≤ result }
{
    match params.numbers() {
        Some([]) | Some([0, ..]) => default,
        Some([number, ..]) => *number,
        None => first_of_groups(params, default),
    }
}

/// The first number where a group has several numbers, or the default if it is 0.
// It isn't inlined, since it is rare.
#[inline(never)]
fn first_of_groups(params: &Params, default: u16) -> u16
    ensures number { result ≡ number_or default params.now }
    ensures least { 1 ≤ default → 1 ≤ result }
{
    next_or(&mut params.iter(), default)
}

/// The first number as a count.
#[inline(always)]
fn count_in(params: &Params) -> usize
    ensures { result ≡ number_or 1 params.now }
{
    usize::from(first_or(params, 1))
}

/// Makes the calls of a control sequence, and returns whether it opened a synchronized update.
#[inline(always)]
pub fn csi<H: Handler, T: Timeout>(
    handler: &mut H,
    timeout: &mut T,
    last: Option<char>,
    params: &Params,
    intermediates: &[u8],
    action: char,
) -> bool
    ensures calls { Calls H.step handler.old (csi_calls last params.now intermediates.now action) handler.new }
    ensures timeout { Ticked T.ticking timeout.old (sets_of (opening_groups params.now intermediates.now action))
        timeout.new }
    ensures opened { result ≡ list_any opens_group (opening_groups params.now intermediates.now action) }
{
    if intermediates.is_empty() {
        unmarked(handler, last, params, action);
        return false;
    }
    marked(handler, timeout, params, intermediates, action)
}

/// Makes the calls of a control sequence with intermediates, and returns whether it opened an update.
// It isn't inlined, so that sequences without intermediates need no stack for its borrows.
#[inline(never)]
fn marked<H: Handler, T: Timeout>(
    handler: &mut H,
    timeout: &mut T,
    params: &Params,
    intermediates: &[u8],
    action: char,
) -> bool
    requires { 0 < length intermediates.now }
    ensures calls { (last : Option ℕ)
        → Calls H.step handler.old (csi_calls last params.now intermediates.now action) handler.new }
    ensures timeout { Ticked T.ticking timeout.old (sets_of (opening_groups params.now intermediates.now action))
        timeout.new }
    ensures opened { result ≡ list_any opens_group (opening_groups params.now intermediates.now action) }
{
    if action == 'c' {
        identify_terminal(handler, params, intermediates);
        return false;
    }
    match intermediates {
        [b'?'] if action == 'h' => return set_private_modes(handler, timeout, params.iter()),
        [b'?'] => question(handler, params.iter(), action),
        [b'>'] => greater(handler, params.iter(), action),
        [b'='] => equals(handler, params.iter(), action),
        [b'<'] => less(handler, params.iter(), action),
        [b' '] => space(handler, params.iter(), action),
        [b'$'] => dollar(handler, params.iter(), action),
        [b'?', b'$'] => question_dollar(handler, params.iter(), action),
        _ => {}
    }
    false
}

/// DA (`c`).
fn identify_terminal<H: Handler>(handler: &mut H, params: &Params, intermediates: &[u8])
    ensures { Calls H.step handler.old (identify_calls params.now intermediates.now) handler.new }
{
    if first_or(params, 0) == 0 {
        handler.identify_terminal(intermediates.first().map(|mark| *mark as char));
    }
}

/// Sequences without intermediates: the ones that are frequent in most streams, and any other. They are distinguished
/// by comparisons, since a jump by a table is often mispredicted.
#[inline(always)]
fn unmarked<H: Handler>(handler: &mut H, last: Option<char>, params: &Params, action: char)
    ensures { Calls H.step handler.old (csi_calls last params.now [] action) handler.new }
{
    if action >= 'a' {
        return lower_unmarked(handler, last, params, action);
    }
    match action {
        'A'..='D' => move_cursor(handler, params, action),
        'H' => goto(handler, params),
        'K' => clear_line(handler, first_or(params, 0)),
        _ => any_unmarked(handler, last, params, action),
    }
}

/// A sequence without marks whose final byte comes after the capital letters: SGR, and any other.
#[inline(always)]
fn lower_unmarked<H: Handler>(handler: &mut H, last: Option<char>, params: &Params, action: char)
    ensures { Calls H.step handler.old (csi_calls last params.now [] action) handler.new }
{
    match action {
        'm' => sgr(handler, params),
        _ => any_unmarked(handler, last, params, action),
    }
}

/// CUU, CUD, CUF and CUB: moves the cursor by a count.
#[inline(always)]
fn move_cursor<H: Handler>(handler: &mut H, params: &Params, action: char)
    requires { is_in_range 0x41 0x44 action ≡ true }
    ensures { (last : Option ℕ) → Calls H.step handler.old (csi_calls last params.now [] action) handler.new }
{
    let count = count_in(params);
    match action {
        'A' => handler.move_up(count),
        'B' => handler.move_down(count),
        'C' => handler.move_forward(count),
        _ => handler.move_backward(count),
    }
}

/// Any sequence without intermediates, by the whole table.
// It isn't inlined, so that the frequent sequences need no stack for its calls.
#[inline(never)]
fn any_unmarked<H: Handler>(handler: &mut H, last: Option<char>, params: &Params, action: char)
    ensures { Calls H.step handler.old (csi_calls last params.now [] action) handler.new }
{
    match action {
        '@' => handler.insert_blank(count_in(params)),
        'A' => handler.move_up(count_in(params)),
        'B' | 'e' => handler.move_down(count_in(params)),
        'C' | 'a' => handler.move_forward(count_in(params)),
        'D' => handler.move_backward(count_in(params)),
        'E' => handler.move_down_and_cr(count_in(params)),
        'F' => handler.move_up_and_cr(count_in(params)),
        'G' | '`' => handler.goto_col(usize::from(first_or(params, 1)) - 1),
        'H' | 'f' => goto(handler, params),
        'I' => handler.move_forward_tabs(first_or(params, 1)),
        'J' => clear_screen(handler, first_or(params, 0)),
        'K' => clear_line(handler, first_or(params, 0)),
        'L' => handler.insert_blank_lines(count_in(params)),
        'M' => handler.delete_lines(count_in(params)),
        'P' => handler.delete_chars(count_in(params)),
        'S' => handler.scroll_up(count_in(params)),
        'T' => handler.scroll_down(count_in(params)),
        'X' => handler.erase_chars(count_in(params)),
        'Z' => handler.move_backward_tabs(first_or(params, 1)),
        'b' => repeat(handler, last, first_or(params, 1)),
        'c' => identify_terminal(handler, params, &[]),
        'd' => handler.goto_line(i32::from(first_or(params, 1) - 1)),
        'g' => clear_tabs(handler, first_or(params, 0)),
        'h' => set_modes(handler, params),
        'l' => unset_modes(handler, params),
        'm' => sgr(handler, params),
        'n' => handler.device_status(usize::from(first_or(params, 0))),
        'r' => set_scrolling_region(handler, params),
        's' => handler.save_cursor_position(),
        't' => window(handler, first_or(params, 1)),
        'u' => handler.restore_cursor_position(),
        _ => {}
    }
}

/// CUP (`H`), HVP (`f`).
#[inline(always)]
fn goto<H: Handler>(handler: &mut H, params: &Params)
    ensures { H.step handler.old (goto_call (pos (number_or 1 params.now - 1)) (number_or 1 (rest params.now) - 1))
        handler.new }
{
    let (line, col) = place_in(params);
    handler.goto(i32::from(line - 1), usize::from(col) - 1);
}

/// The first two numbers, each 1 if there is none or it is 0.
#[inline(always)]
fn place_in(params: &Params) -> (u16, u16)
    ensures first { result.0 ≡ number_or 1 params.now }
    ensures second { result.1 ≡ number_or 1 (rest params.now) }
    ensures least_first { 1 ≤ result.0 }
    ensures least_second { 1 ≤ result.1 }
{
    if let Some([line, col, ..]) = params.numbers() {
        return ((*line).max(1), (*col).max(1));
    }
    place_in_groups(params)
}

/// The first two numbers where there are fewer, or a group has several, each 1 if there is none or it is 0.
// It isn't inlined, since it is rare.
#[inline(never)]
fn place_in_groups(params: &Params) -> (u16, u16)
    ensures first { result.0 ≡ number_or 1 params.now }
    ensures second { result.1 ≡ number_or 1 (rest params.now) }
    ensures least_first { 1 ≤ result.0 }
    ensures least_second { 1 ≤ result.1 }
{
    let mut groups = params.iter();
    let line = next_or(&mut groups, 1);
    (line, next_or(&mut groups, 1))
}

/// DECSTBM (`r`).
// It isn't inlined, so that the other sequences need no stack for its groups.
#[inline(never)]
fn set_scrolling_region<H: Handler>(handler: &mut H, params: &Params)
    ensures { H.step handler.old (set_scrolling_region_call (number_or 1 params.now)
        (nonzero (number_or 0 (rest params.now)))) handler.new }
{
    let mut groups = params.iter();
    let top = next_or(&mut groups, 1);
    let bottom = next_or(&mut groups, 0);
    let bottom = if bottom == 0 {
        None
    } else {
        Some(usize::from(bottom))
    };
    handler.set_scrolling_region(usize::from(top), bottom);
}

/// ED (`J`).
fn clear_screen<H: Handler>(handler: &mut H, number: u16)
    ensures { Calls H.step handler.old (calls_at number clear_screen_rows) handler.new }
{
    match number {
        0 => handler.clear_screen(ClearMode::Below),
        1 => handler.clear_screen(ClearMode::Above),
        2 => handler.clear_screen(ClearMode::All),
        3 => handler.clear_screen(ClearMode::Saved),
        _ => {}
    }
}

/// EL (`K`).
fn clear_line<H: Handler>(handler: &mut H, number: u16)
    ensures { Calls H.step handler.old (calls_at number clear_line_rows) handler.new }
{
    match number {
        0 => handler.clear_line(LineClearMode::Right),
        1 => handler.clear_line(LineClearMode::Left),
        2 => handler.clear_line(LineClearMode::All),
        _ => {}
    }
}

/// TBC (`g`).
fn clear_tabs<H: Handler>(handler: &mut H, number: u16)
    ensures { Calls H.step handler.old (calls_at number clear_tabs_rows) handler.new }
{
    match number {
        0 => handler.clear_tabs(TabulationClearMode::Current),
        3 => handler.clear_tabs(TabulationClearMode::All),
        _ => {}
    }
}

/// Window operations (`t`, xterm's).
fn window<H: Handler>(handler: &mut H, number: u16)
    ensures { Calls H.step handler.old (calls_at number window_rows) handler.new }
{
    match number {
        14 => handler.text_area_size_pixels(),
        18 => handler.text_area_size_chars(),
        22 => handler.push_title(),
        23 => handler.pop_title(),
        _ => {}
    }
}

/// REP (`b`): prints the last printed character `count` times.
// It isn't inlined, so that the other sequences need no stack for its loop.
#[inline(never)]
fn repeat<H: Handler>(handler: &mut H, last: Option<char>, count: u16)
    ensures { Calls H.step handler.old (repeat_calls last count) handler.new }
{
    if let Some(c) = last {
        for _i in 0..count {
            handler.input(c);
        }
    }
}

/// SM (`h`).
// It isn't inlined, so that the other sequences need no stack for its groups.
#[inline(never)]
fn set_modes<H: Handler>(handler: &mut H, params: &Params)
    ensures { Calls H.step handler.old (map (λ g. set_mode_call (mode_of (first g))) params.now) handler.new }
{
    let mut groups = params.iter();
    while let Some(number) = next_number(&mut groups) {
        handler.set_mode(Mode::new(number));
    }
}

/// RM (`l`).
// It isn't inlined, so that the other sequences need no stack for its groups.
#[inline(never)]
fn unset_modes<H: Handler>(handler: &mut H, params: &Params)
    ensures { Calls H.step handler.old (map (λ g. unset_mode_call (mode_of (first g))) params.now) handler.new }
{
    let mut groups = params.iter();
    while let Some(number) = next_number(&mut groups) {
        handler.unset_mode(Mode::new(number));
    }
}

/// DECSET (`? h`): sets private modes. Returns whether one of them opened an update, for which the timeout was set.
fn set_private_modes<H: Handler, T: Timeout>(
    handler: &mut H,
    timeout: &mut T,
    mut groups: ParamsIter<'_>,
) -> bool
    ensures calls { Calls H.step handler.old (map (λ g. set_private_call (private_mode_of (first g))) groups.entry)
        handler.new }
    ensures timeout { Ticked T.ticking timeout.old (sets_of groups.entry) timeout.new }
    ensures opened { result ≡ list_any opens_group groups.entry }
{
    let mut opened = false;
    while let Some(number) = next_number(&mut groups) {
        if number == SYNC_UPDATE {
            timeout.set_timeout(Duration::from_millis(SYNC_UPDATE_TIMEOUT_MILLIS));
            opened = true;
        }
        handler.set_private_mode(PrivateMode::new(number));
    }
    opened
}

/// DECRST (`? l`).
fn unset_private_modes<H: Handler>(handler: &mut H, mut groups: ParamsIter<'_>)
    ensures { Calls H.step handler.old (map (λ g. unset_private_call (private_mode_of (first g))) groups.entry)
        handler.new }
{
    while let Some(number) = next_number(&mut groups) {
        handler.unset_private_mode(PrivateMode::new(number));
    }
}

/// Sequences with `?`, other than DECSET.
fn question<H: Handler>(handler: &mut H, mut groups: ParamsIter<'_>, action: char)
    requires { action ≢ 104 }
    ensures { Calls H.step handler.old (calls_by action question_rows groups.entry) handler.new }
{
    match action {
        'l' => unset_private_modes(handler, groups),
        'W' => {
            if next_or(&mut groups, 0) == 5 {
                handler.set_tabs(8);
            }
        }
        'm' => {
            if let Some([4]) = groups.next() {
                handler.report_modify_other_keys();
            }
        }
        'u' => handler.report_keyboard_mode(),
        _ => {}
    }
}

/// Sequences with `>`: keyboard modes, and xterm's `modifyOtherKeys`.
fn greater<H: Handler>(handler: &mut H, mut groups: ParamsIter<'_>, action: char)
    ensures { Calls H.step handler.old (calls_by action greater_rows groups.entry) handler.new }
{
    match action {
        'm' => {
            if next_or(&mut groups, 0) == 4 {
                match next_or(&mut groups, 0) {
                    0 => handler.set_modify_other_keys(ModifyOtherKeys::Reset),
                    1 => handler.set_modify_other_keys(ModifyOtherKeys::EnableExceptWellDefined),
                    2 => handler.set_modify_other_keys(ModifyOtherKeys::EnableAll),
                    _ => {}
                }
            }
        }
        'u' => handler.push_keyboard_mode(keyboard_modes_of(next_or(&mut groups, 0))),
        _ => {}
    }
}

/// Sequences with `=`: keyboard modes.
fn equals<H: Handler>(handler: &mut H, mut groups: ParamsIter<'_>, action: char)
    ensures { Calls H.step handler.old (calls_by action equals_rows groups.entry) handler.new }
{
    if action == 'u' {
        let modes = keyboard_modes_of(next_or(&mut groups, 0));
        let behavior = match next_or(&mut groups, 0) {
            2 => KeyboardModesApplyBehavior::Union,
            3 => KeyboardModesApplyBehavior::Difference,
            _ => KeyboardModesApplyBehavior::Replace,
        };
        handler.set_keyboard_mode(modes, behavior);
    }
}

/// Sequences with `<`: keyboard modes.
fn less<H: Handler>(handler: &mut H, mut groups: ParamsIter<'_>, action: char)
    ensures { Calls H.step handler.old (calls_by action less_rows groups.entry) handler.new }
{
    if action == 'u' {
        handler.pop_keyboard_modes(next_or(&mut groups, 1));
    }
}

/// Sequences with a space: SCP and DECSCUSR.
fn space<H: Handler>(handler: &mut H, mut groups: ParamsIter<'_>, action: char)
    ensures { Calls H.step handler.old (calls_by action space_rows groups.entry) handler.new }
{
    match action {
        'k' => {
            let path = char_path_for(next_or(&mut groups, 0));
            let update = update_mode_for(next_or(&mut groups, 0));
            if let Some(path) = path
                && let Some(update) = update
            {
                handler.set_scp(path, update);
            }
        }
        'q' => set_cursor_style(handler, next_or(&mut groups, 0)),
        _ => {}
    }
}

/// DECSCUSR (` q`).
fn set_cursor_style<H: Handler>(handler: &mut H, number: u16)
    ensures { Calls H.step handler.old (calls_at number style_rows) handler.new }
{
    let shape = match number {
        0 => return handler.set_cursor_style(None),
        1 | 2 => CursorShape::Block,
        3 | 4 => CursorShape::Underline,
        5 | 6 => CursorShape::Beam,
        _ => return,
    };
    let blinking = number % 2 == 1;
    handler.set_cursor_style(Some(CursorStyle { shape, blinking }));
}

/// Sequences with `$`: DECRQM of a mode.
fn dollar<H: Handler>(handler: &mut H, mut groups: ParamsIter<'_>, action: char)
    ensures { Calls H.step handler.old (calls_by action dollar_rows groups.entry) handler.new }
{
    if action == 'p' {
        handler.report_mode(Mode::new(next_or(&mut groups, 0)));
    }
}

/// Sequences with `?` and `$`: DECRQM of a private mode.
fn question_dollar<H: Handler>(handler: &mut H, mut groups: ParamsIter<'_>, action: char)
    ensures { Calls H.step handler.old (calls_by action question_dollar_rows groups.entry) handler.new }
{
    if action == 'p' {
        handler.report_private_mode(PrivateMode::new(next_or(&mut groups, 0)));
    }
}

/// The keyboard modes of a number's low 8 bits. Bits without a mode are dropped.
fn keyboard_modes_of(number: u16) -> KeyboardModes
    ensures { result ≡ keyboard_modes number }
{
    KeyboardModes::from_bits_truncate((number & 0xFF) as u8)
}

/// The character path with this number.
fn char_path_for(number: u16) -> Option<ScpCharPath>
    ensures { result ≡ char_path number }
{
    match number {
        0 => Some(ScpCharPath::Default),
        1 => Some(ScpCharPath::LTR),
        2 => Some(ScpCharPath::RTL),
        _ => None,
    }
}

/// The update mode with this number.
fn update_mode_for(number: u16) -> Option<ScpUpdateMode>
    ensures { result ≡ update_mode number }
{
    match number {
        0 => Some(ScpUpdateMode::ImplementationDependant),
        1 => Some(ScpUpdateMode::DataToPresentation),
        2 => Some(ScpUpdateMode::PresentationToData),
        _ => None,
    }
}

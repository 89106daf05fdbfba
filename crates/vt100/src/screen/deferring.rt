//! A screen on which the erasing of a row's end is put off. Programs that colour their messages erase it at each change
//! of colour (EL), and print over it next: so the cells are written once.
ghost use Rattle.std.specs.Prelude.{◌≡◌, ◌<◌, ◌+◌, ◌++◌, ℕ, List, All, IsTrue, Some, None, false, length, map};
ghost use Rattle.std.specs.Str.{chars};
ghost use Rattle.std.specs.List.{list_all};
ghost use Rattle.vt100_forms.specs.Attrs.{default_attrs};
ghost use Rattle.printable.specs.Printable.{IsPrintable};
ghost use Rattle.screen_model.specs.Lookup.{lookup};
ghost use Rattle.screen_model.specs.Effect.{plain_effect, plain_rows, csi_effect, first};
ghost use Rattle.vte_core.specs.Event as e;
ghost use Rattle.vte_core.specs.Event.{Performs};
ghost use Rattle.vte_core.specs.Reported.{Reported};
ghost use Rattle.vte_core.specs.Standing.{IsAfter};
ghost use Rattle.vt100.specs.Goes.{Steps};
ghost use Rattle.vt100.specs.Memory.{plain_may_allocate, csi_may_allocate};
ghost use Rattle.vt100.specs.Deferring.{erased_on, settled, Defers, DefersEffect, is_frequent, AreHandled};

use crate::callbacks::Callbacks;
use crate::perform::canonicalize_params_1;
use crate::screen::{Screen, WrappedScreen};
use std::marker::Model;
use vt100_cells::PackedAttrs;
use vt100_core::attrs::Attrs;
use vte_core::{Event, Params, Perform};

/// Proper attributes: those that the calls of a terminal can set.
#[derive(Drop)]
struct ProperAttrs {
    attrs: PackedAttrs,
}

impl Model for ProperAttrs {
    ghost use Rattle.vt100_forms.specs.declared.attrs.Attrs.{Attrs};
    ghost use Rattle.vt100_forms.specs.Attrs.{IsProper};

    ghost Value = { Attrs };

    ghost view = { λ a. a.attrs };

    ghost invariant = { λ a. IsProper a.attrs };
}

impl Screen {
    /// The drawing attributes.
    #[inline(always)]
    fn proper_attrs(&self) -> ProperAttrs
        ensures { result ≡ self.now.state.attrs }
    {
        ProperAttrs { attrs: self.attrs }
    }

    /// Whether the drawing attributes are the default ones.
    #[inline(always)]
    fn draws_plainly(&self) -> bool
        ensures { IsTrue result → self.now.state.attrs ≡ default_attrs }
    {
        self.attrs.is_default()
    }

    /// Empties the cursor's row from the cursor on, with these attributes.
    #[tactic(auto, using(crate::proofs::ProperScreens::drawn_rules))]
    #[inline(always)]
    fn erase_with(&mut self, attrs: &ProperAttrs)
        ensures { self.new ≡ erased_on attrs.now self.old }
    {
        self.grid.erase_forward(&attrs.attrs);
    }

    /// Empties the cursor's row from the cursor on, with the default attributes.
    #[tactic(auto, using(crate::proofs::ProperScreens::drawn_rules))]
    #[inline(always)]
    fn erase_plain(&mut self)
        ensures { self.new ≡ erased_on default_attrs self.old }
    {
        self.grid.erase_row_forward(Attrs::new());
    }

    /// Whether the screen is usable, and its cursor's row has room for more than `len` characters of one column.
    #[inline(always)]
    fn has_room_for(&self, len: usize) -> bool
        ensures live { IsTrue result → self.now.failed ≡ false }
        ensures room { IsTrue result → self.now.state.shown.col + len < self.now.state.shown.width }
    {
        let (_, col) = self.cursor_position();
        let (_, cols) = self.size();
        !self.failed && usize::from(cols.get().saturating_sub(col)) > len
    }
}

/// A screen with its callbacks, on which the erasing of the cursor's row from the cursor on may be put off. Printable
/// ASCII that leaves a column of the row takes cells that it would erase, and another erasing replaces it. It is done
/// before any other event, except the most frequent SGR.
#[derive(Drop)]
pub(crate) struct Deferring<'a, CB> {
    screen: &'a mut WrappedScreen<CB>,
    /// The attributes of the erasing that is put off.
    erasing: Option<ProperAttrs>,
}

impl<'a, CB: Callbacks> Deferring<'a, CB> {
    /// Does what is put off.
    #[inline(always)]
    fn settle(&mut self)
        ensures screen { self.new.screen.now ≡ settled self.old }
        ensures none { self.new.erasing ≡ None }
        ensures same { self.new.screen.ghost_name ≡ self.old.screen.ghost_name }
    {
        if self.erasing.is_some() {
            self.erase();
        }
    }

    /// Does what is put off, as [`settle`](Self::settle) does.
    // Neither this nor what calls it is inlined: mostly nothing is put off.
    #[cold]
    #[inline(never)]
    fn erase(&mut self)
        ensures screen { self.new.screen.now ≡ settled self.old }
        ensures none { self.new.erasing ≡ None }
        ensures same { self.new.screen.ghost_name ≡ self.old.screen.ghost_name }
    {
        if let Some(attrs) = &self.erasing {
            self.screen.screen.erase_with(attrs);
        }
        self.erasing = None;
    }

    /// Does what is put off, and then prints a character.
    #[cold]
    #[inline(never)]
    fn print_late(&mut self, c: char)
        ensures { Defers CB.step CB.scrolls self.old (e.Print c) self.new }
    {
        self.erase();
        self.screen.print(c);
    }

    /// Prints printable ASCII while an erasing is put off. It stays so where the text leaves a column of the row.
    #[cold]
    #[inline(never)]
    fn print_ascii_late(&mut self, text: &str)
        requires { All IsPrintable text.now }
        ensures { Performs (Defers CB.step CB.scrolls) self.old (map e.Print (chars text.now)) self.new }
    {
        if text.is_empty() {
            return;
        }
        if self.screen.screen.has_room_for(text.len()) {
            self.print_over(text);
        } else {
            self.erase();
            self.screen.print_ascii(text);
        }
    }

    /// Prints printable ASCII that leaves a column of the row. What is put off stays so.
    #[inline(always)]
    fn print_over(&mut self, text: &str)
        requires live { self.old.screen.now.screen.failed ≡ false }
        requires printable { All IsPrintable text.now }
        requires some { 0 < length text.now }
        requires room { self.old.screen.now.screen.state.shown.col + length text.now
            < self.old.screen.now.screen.state.shown.width }
        ensures { Performs (Defers CB.step CB.scrolls) self.old (map e.Print (chars text.now)) self.new }
    {
        prove!(self.screen.screen.is_live());
        // It isn't refused, since nothing scrolls.
        let _ = self.screen.run::<u8, 1>(text.as_bytes());
    }

    /// A control sequence without intermediates.
    // It isn't inlined, so that SGR, which is checked for before, needs no stack for the others.
    #[inline(never)]
    fn plain_csi(&mut self, params: &Params, action: char)
        requires { self.old.screen.now.screen.failed ≡ false }
        ensures { DefersEffect CB.step CB.scrolls (plain_effect (lookup action plain_rows) params.now action)
            (plain_may_allocate params.now action) self.old self.new }
    {
        if self.erasing.is_some() {
            return self.csi_late(params, action);
        }
        match action {
            'K' => self.el(params),
            _ => self.screen.plain_csi(params, action),
        }
    }

    /// EL, while nothing is put off. Erasing of the row's end with attributes other than the default ones is put off.
    #[inline(never)]
    fn el(&mut self, params: &Params)
        requires live { self.old.screen.now.screen.failed ≡ false }
        requires none { self.old.erasing ≡ None }
        ensures { DefersEffect CB.step CB.scrolls (plain_effect (lookup 0x4B plain_rows) params.now 0x4B)
            (plain_may_allocate params.now 0x4B) self.old self.new }
    {
        if canonicalize_params_1(params, 0) != 0 {
            self.screen.el_csi(params);
        } else if self.screen.screen.draws_plainly() {
            self.screen.screen.erase_plain();
        } else {
            self.erasing = Some(self.screen.screen.proper_attrs());
        }
    }

    /// A control sequence without intermediates while an erasing is put off. It stays put off at the most frequent
    /// numbers of SGR, which call nothing back. Erasing of the row's end replaces it.
    #[cold]
    #[inline(never)]
    fn csi_late(&mut self, params: &Params, action: char)
        requires { self.old.screen.now.screen.failed ≡ false }
        ensures { DefersEffect CB.step CB.scrolls (plain_effect (lookup action plain_rows) params.now action)
            (plain_may_allocate params.now action) self.old self.new }
    {
        match action {
            'K' if canonicalize_params_1(params, 0) == 0 => {
                prove!(self.screen.screen.is_live());
                self.erasing = Some(self.screen.screen.proper_attrs());
            }
            'm' if are_frequent(params) => self.screen.sgr_csi(params),
            _ => {
                self.erase();
                self.screen.plain_csi(params, action);
            }
        }
    }

    /// Does what is put off, and then what a control sequence with a private byte or intermediates asks for, of which
    /// `mark` is the first.
    #[cold]
    #[inline(never)]
    fn marked_late(&mut self, mark: u8, params: &Params, intermediates: &[u8], action: char)
        requires live { self.old.screen.now.screen.failed ≡ false }
        requires mark { first intermediates.now ≡ Some mark }
        ensures { DefersEffect CB.step CB.scrolls (csi_effect params.now intermediates.now action)
            (csi_may_allocate params.now intermediates.now action) self.old self.new }
    {
        self.erase();
        self.screen.marked_csi(mark, params, intermediates, action);
    }
}

impl<'a, CB: Callbacks> Perform for Deferring<'a, CB> {
    ghost use Rattle.std.specs.Prelude.{false};
    ghost use Rattle.vt100.specs.Deferring.{Defers};

    ghost step = { Defers CB.step CB.scrolls };

    ghost is_terminated = { λ p. false };

    fn event(&mut self, event: Event<'_>) {
        self.settle();
        self.screen.event(event);
    }

    fn terminated(&self) -> bool {
        false
    }

    // A function of its own, so that the parser's loop stays short.
    #[inline(never)]
    fn print(&mut self, c: char) {
        if self.erasing.is_some() {
            return self.print_late(c);
        }
        self.screen.print(c);
    }

    fn print_str(&mut self, text: &str) {
        if text.is_empty() {
            return;
        }
        self.settle();
        self.screen.print_str(text);
    }

    #[inline(always)]
    fn print_ascii(&mut self, text: &str) {
        if self.erasing.is_some() {
            return self.print_ascii_late(text);
        }
        self.screen.print_ascii(text);
    }

    #[inline(always)]
    fn execute(&mut self, byte: u8) {
        self.settle();
        self.screen.execute(byte);
    }

    #[inline(always)]
    fn execute_all(&mut self, controls: &[u8]) {
        if controls.is_empty() {
            return;
        }
        self.settle();
        self.screen.execute_all(controls);
    }

    #[inline(always)]
    fn csi_dispatch(&mut self, params: &Params, intermediates: &[u8], _ignore: bool, action: char) {
        if self.screen.screen.failed() {
            return;
        }
        match intermediates.first().copied() {
            None if action == 'm' && self.erasing.is_none() => self.screen.sgr_csi(params),
            None => self.plain_csi(params, action),
            // Where each group is one number, nothing is saved for a call that reads groups.
            Some(mark) if self.erasing.is_none() && params.numbers().is_some() => {
                self.screen.marked_csi(mark, params, intermediates, action)
            }
            Some(mark) => self.marked_late(mark, params, intermediates, action),
        }
    }

    fn esc_dispatch(&mut self, intermediates: &[u8], ignore: bool, byte: u8) {
        self.settle();
        self.screen.esc_dispatch(intermediates, ignore, byte);
    }

    fn osc_dispatch(&mut self, params: &[&[u8]], bell_terminated: bool) {
        self.settle();
        self.screen.osc_dispatch(params, bell_terminated);
    }
}

/// Whether all groups of an SGR are of the most frequent numbers, each of which is handled.
fn are_frequent(params: &Params) -> bool
    ensures { IsTrue result → AreHandled params.now }
{
    match params.numbers() {
        Some(numbers) => are_all_frequent(numbers),
        None => false,
    }
}

fn are_all_frequent(numbers: &[u16]) -> bool
    ensures { result ≡ list_all is_frequent numbers.now }
{
    numbers.iter().all(|code| is_frequent(*code))
}

fn is_frequent(code: u16) -> bool
    ensures { result ≡ is_frequent code }
{
    matches!(code, 0 | 1 | 30..=37)
}

/// Reads bytes, and does their events.
#[inline(always)]
fn advance_deferring<CB: Callbacks>(
    parser: &mut vte_core::Parser<1024>,
    deferring: &mut Deferring<'_, CB>,
    bytes: &[u8],
)
    ensures state_after { (past : List ℕ) → IsAfter 1024 parser.old past → IsAfter 1024 parser.new (past ++ bytes.now) }
    ensures reported { Reported (Steps CB.step CB.scrolls) 1024 parser.old (settled deferring.old) bytes.now
        (settled deferring.new) }
    ensures same { deferring.new.screen.ghost_name ≡ deferring.old.screen.ghost_name }
{
    parser.advance(deferring, bytes);
}

/// Reads bytes, and does their events on a screen with its callbacks.
#[inline(always)]
pub(crate) fn advance<CB: Callbacks>(
    parser: &mut vte_core::Parser<1024>,
    screen: &mut WrappedScreen<CB>,
    bytes: &[u8],
)
    ensures state_after { (past : List ℕ) → IsAfter 1024 parser.old past → IsAfter 1024 parser.new (past ++ bytes.now) }
    ensures reported { Reported (Steps CB.step CB.scrolls) 1024 parser.old screen.old bytes.now screen.new }
{
    let mut deferring = Deferring {
        screen,
        erasing: None,
    };
    advance_deferring(parser, &mut deferring, bytes);
    deferring.settle();
}

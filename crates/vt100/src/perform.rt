//! The events of a byte stream, on a screen (ECMA-48; DEC's VT100 to VT510; xterm's control sequences).
ghost use Rattle.std.specs.Prelude.{◌≡◌, ◌≢◌, [], ◌∷◌, replicate, map, nat_eq, true, false, None, Some};
ghost use Rattle.std.specs.Prelude.{if◌then◌else◌, unwrap_or, ◌<◌, length, IfSome};
ghost use Rattle.std.specs.List.{list_all};
ghost use Rattle.std.specs.Int.{is_in_range};
ghost use Rattle.screen_model.specs.Effect.{calling, partly, number_or, given, later, csi_call, plain_effect};
ghost use Rattle.screen_model.specs.Effect.{plain_rows};
ghost use Rattle.screen_model.specs.Effect.{row_effect, other_rows, private_rows, window_effect, styled};
ghost use Rattle.screen_model.specs.Effect.{first, second, effect_or, escape_rows, osc_calls, is_unhandled};
ghost use Rattle.screen_model.specs.Effect.{is_selector, is_question, is_base64};
ghost use Rattle.screen_model.specs.Lookup.{lookup};
ghost use Rattle.screen_model.specs.Effect.{effect, csi_effect};
ghost use Rattle.screen_model.specs.Call as said;
ghost use Rattle.vte_core.specs.Event as e;
ghost use Rattle.vt100.specs.Goes.{Handles, MakesCalls};
ghost use Rattle.vt100.specs.Memory.{may_allocate, plain_may_allocate, private_may_allocate, csi_may_allocate};
ghost use Rattle.vt100.specs.Runs.{PrintsPrefix};

use crate::callbacks::Callbacks;
use crate::screen::WrappedScreen;
use arrayvec::ArrayVec;
use printable::{is_printable, printable_len};
use std::num::NonZeroU16;
use vte_core::{Event, Params, ParamsIter, Perform};

impl<CB: Callbacks> Perform for WrappedScreen<CB> {
    ghost use Rattle.std.specs.Prelude.{false};
    ghost use Rattle.vt100.specs.Goes.{Goes};

    ghost step = { λ p e q. Goes CB.step CB.scrolls e p.callbacks p.screen q.callbacks q.screen };

    ghost is_terminated = { λ p. false };

    fn event(&mut self, event: Event<'_>) {
        match event {
            Event::Print(c) => self.print(c),
            Event::Execute(byte) => self.execute(byte),
            Event::CsiDispatch {
                params,
                intermediates,
                ignore,
                action,
            } => self.csi_dispatch(params, intermediates, ignore, action),
            Event::EscDispatch {
                intermediates,
                ignore,
                byte,
            } => self.esc_dispatch(intermediates, ignore, byte),
            Event::OscDispatch {
                params,
                bell_terminated,
            } => self.osc_dispatch(params, bell_terminated),
            Event::Hook { .. } => {}
            Event::Put(_) => {}
            Event::Unhook => {}
        }
    }

    fn terminated(&self) -> bool {
        false
    }

    #[inline(always)]
    fn print(&mut self, c: char) {
        if self.screen.failed() {
            return;
        }
        // The fast path, which needs no stack, for most characters.
        if is_printable(c) && self.screen.has_room() {
            // Nothing scrolls, so nothing is refused.
            let _ = self.text(c);
            return;
        }
        self.print_any(c);
    }

    fn print_str(&mut self, text: &str) {
        let mut rest = text;
        while !rest.is_empty() {
            rest = self.print_some(rest);
        }
    }

    // Text between sequences comes here. If this and SGR aren't inlined, coloured text takes 8 % more instructions.
    #[inline(always)]
    fn print_ascii(&mut self, text: &str) {
        if text.is_empty() {
            return;
        }
        prove!(self.screen.is_live() || self.screen.failed());
        // A refusal is recorded in the screen, which has then failed.
        let _ = self.run::<u8, 1>(text.as_bytes());
    }

    // Comparisons distinguish the frequent bytes: a jump through a table costs more where its target changes.
    #[inline(always)]
    fn execute(&mut self, byte: u8) {
        if self.screen.failed() {
            return;
        }
        // No control above shift in changes the screen.
        if byte > 15 {
            self.callbacks.unhandled_control(&mut self.screen, byte);
            return;
        }
        match byte {
            8 => self.bs(),
            10 => {
                // A refusal is recorded in the screen, which has then failed.
                let _ = self.lf();
            }
            13 => self.cr(),
            _ => self.any_control(byte),
        }
    }

    #[inline(always)]
    fn csi_dispatch(&mut self, params: &Params, intermediates: &[u8], _ignore: bool, action: char) {
        if self.screen.failed() {
            return;
        }
        match intermediates.first().copied() {
            None if action == 'm' => self.sgr_csi(params),
            None => self.plain_csi(params, action),
            Some(mark) => self.marked_csi(mark, params, intermediates, action),
        }
    }

    fn esc_dispatch(&mut self, intermediates: &[u8], _ignore: bool, byte: u8) {
        if self.screen.failed() {
            return;
        }
        match intermediates {
            [] => self.plain_esc(byte),
            _ => {
                let marks = first_two(intermediates);
                self.callbacks
                    .unhandled_escape(&mut self.screen, marks.0, marks.1, byte);
            }
        }
    }

    fn osc_dispatch(&mut self, params: &[&[u8]], _bell_terminated: bool) {
        if self.screen.failed() {
            return;
        }
        match params {
            [command, text] => self.title(params, command, text),
            [command, selectors, bytes] => self.clipboard(params, command, selectors, bytes),
            _ => self.callbacks.unhandled_osc(&mut self.screen, params),
        }
    }
}

impl<CB: Callbacks> WrappedScreen<CB> {
    /// Prints the printable ASCII at the start of a text at once, or the other characters there that take one column
    /// each, or two each, or else its first character; returns what is left.
    fn print_some<'a>(&mut self, text: &'a str) -> &'a str
        requires { 0 < length text.now }
        ensures shorter { length result.now < length text.now }
        ensures printed { PrintsPrefix CB.step CB.scrolls text.now result.now self.old.callbacks self.old.screen
            self.new.callbacks self.new.screen }
    {
        if begins_alone(text) {
            return self.print_first(text);
        }
        let len = printable_len(text.as_bytes());
        if len > 0 {
            prove!(self.screen.is_live() || self.screen.failed());
            // A refusal is recorded in the screen, which has then failed.
            let _ = self.run::<u8, 1>(&text.as_bytes()[..len]);
            return &text[len..];
        }
        match self.print_chars(text) {
            Some(rest) => rest,
            None => self.print_first(text),
        }
    }

    /// Prints a character, or reports it.
    // A function of its own, so that `print` needs no stack.
    #[inline(never)]
    fn print_any(&mut self, c: char)
        requires { self.old.screen.failed ≡ false }
        ensures { Handles CB.step CB.scrolls (effect (e.Print c)) (may_allocate (e.Print c) self.old.screen.state)
            self.old self.new }
    {
        if is_unhandled(c) {
            self.callbacks.unhandled_char(&mut self.screen, c);
        } else {
            // A refusal is recorded in the screen, which has then failed.
            let _ = self.text(c);
        }
    }

    /// Does what any control asks for, or reports it, by the whole table.
    // It isn't inlined, so that the frequent controls need no stack for it.
    #[inline(never)]
    fn any_control(&mut self, byte: u8)
        requires { self.old.screen.failed ≡ false }
        ensures { Handles CB.step CB.scrolls (effect (e.Execute byte)) (may_allocate (e.Execute byte)
            self.old.screen.state)
            self.old self.new }
    {
        match byte {
            7 => self.callbacks.audible_bell(&mut self.screen),
            8 => self.bs(),
            9 => self.tab(),
            10 => {
                // A refusal is recorded in the screen, which has then failed.
                let _ = self.lf();
            }
            11 => {
                let _ = self.vt();
            }
            12 => {
                let _ = self.ff();
            }
            13 => self.cr(),
            // Shift out and in: there are no other character sets, but it isn't an error to ask for them.
            14 | 15 => {}
            _ => self.callbacks.unhandled_control(&mut self.screen, byte),
        }
    }

    /// Prints the first character of a text, and returns what is left.
    #[inline(always)]
    fn print_first<'a>(&mut self, text: &'a str) -> &'a str
        requires { 0 < length text.now }
        ensures shorter { length result.now < length text.now }
        ensures printed { PrintsPrefix CB.step CB.scrolls text.now result.now self.old.callbacks self.old.screen
            self.new.callbacks self.new.screen }
    {
        let mut chars = text.chars();
        if let Some(c) = chars.next() {
            self.print(c);
        }
        chars.as_str()
    }

    /// An escape sequence without intermediates.
    fn plain_esc(&mut self, byte: u8)
        requires { self.old.screen.failed ≡ false }
        ensures { Handles CB.step CB.scrolls (effect_or (lookup byte escape_rows)
            (said.unhandled_escape None None byte)) false self.old self.new }
    {
        match byte {
            b'7' => self.decsc(),
            b'8' => self.decrc(),
            b'=' => self.deckpam(),
            b'>' => self.deckpnm(),
            b'M' => self.ri(),
            b'c' => {
                // Only a failed screen refuses a full reset, and this one hasn't failed.
                let _ = self.ris();
            }
            b'g' => self.callbacks.visual_bell(&mut self.screen),
            _ => self
                .callbacks
                .unhandled_escape(&mut self.screen, None, None, byte),
        }
    }

    /// SGR. `csi_dispatch` checks for it first, since most streams have more of it than of any other sequence.
    #[inline(always)]
    pub(crate) fn sgr_csi(&mut self, params: &Params)
        requires { self.old.screen.failed ≡ false }
        ensures { Handles CB.step CB.scrolls (plain_effect (lookup 0x6D plain_rows) params.now 0x6D)
            (plain_may_allocate params.now 0x6D self.old.screen.state) self.old self.new }
    {
        let unhandled = self.sgr(params);
        self.unhandled_groups(unhandled, params, &[], 'm');
    }

    /// EL.
    #[inline(never)]
    pub(crate) fn el_csi(&mut self, params: &Params)
        requires { self.old.screen.failed ≡ false }
        ensures { Handles CB.step CB.scrolls (plain_effect (lookup 0x4B plain_rows) params.now 0x4B)
            (plain_may_allocate params.now 0x4B self.old.screen.state) self.old self.new }
    {
        let unhandled = self.el(canonicalize_params_1(params, 0));
        self.unhandled_groups(unhandled, params, &[], 'K');
    }

    /// A control sequence without intermediates: the most frequent ones, and any other. Comparisons distinguish them:
    /// a jump through a table costs more where its target changes.
    // Each is a function of its own, so that none needs stack for the others.
    #[inline(always)]
    pub(crate) fn plain_csi(&mut self, params: &Params, action: char)
        requires { self.old.screen.failed ≡ false }
        ensures { Handles CB.step CB.scrolls (plain_effect (lookup action plain_rows) params.now action)
            (plain_may_allocate params.now action self.old.screen.state) self.old self.new }
    {
        match action {
            'A'..='D' => self.moving_csi(params, action),
            'H' => self.cup_csi(params),
            'K' => self.el_csi(params),
            _ => self.any_csi(params, action),
        }
    }

    /// CUU, CUD, CUF and CUB: moves the cursor by a count.
    #[inline(never)]
    fn moving_csi(&mut self, params: &Params, action: char)
        requires live { self.old.screen.failed ≡ false }
        requires moving { is_in_range 0x41 0x44 action ≡ true }
        ensures { Handles CB.step CB.scrolls (plain_effect (lookup action plain_rows) params.now action)
            (plain_may_allocate params.now action self.old.screen.state) self.old self.new }
    {
        let count = match count_alone(params) {
            Some(count) => count,
            None => return self.any_csi(params, action),
        };
        match action {
            'A' => self.cuu(count),
            'B' => self.cud(count),
            'C' => self.cuf(count),
            _ => self.cub(count),
        }
    }

    /// CUP.
    #[inline(never)]
    fn cup_csi(&mut self, params: &Params)
        requires { self.old.screen.failed ≡ false }
        ensures { Handles CB.step CB.scrolls (plain_effect (lookup 0x48 plain_rows) params.now 0x48)
            (plain_may_allocate params.now 0x48 self.old.screen.state) self.old self.new }
    {
        match place_alone(params) {
            Some(place) => self.cup(place),
            None => self.any_csi(params, 'H'),
        }
    }

    /// A control sequence with a private byte or intermediates, of which `mark` is the first.
    // The mark is an argument of its own, so that the bytes need no memory where no callback reads them.
    #[inline(always)]
    pub(crate) fn marked_csi(
        &mut self,
        mark: u8,
        params: &Params,
        intermediates: &[u8],
        action: char,
    )
        requires live { self.old.screen.failed ≡ false }
        requires mark { first intermediates.now ≡ Some mark }
        ensures { Handles CB.step CB.scrolls (csi_effect params.now intermediates.now action)
            (csi_may_allocate params.now intermediates.now action self.old.screen.state) self.old self.new }
    {
        match mark {
            b' ' => self.space_csi(params, intermediates, action),
            b'?' => self.private_csi(params, intermediates, action),
            _ => self.unhandled_csi(params, intermediates, action),
        }
    }

    /// Any control sequence without intermediates: those that take counts or positions, and all others.
    // It isn't inlined, so that no jump through a table comes before the frequent sequences.
    #[inline(never)]
    fn any_csi(&mut self, params: &Params, action: char)
        requires { self.old.screen.failed ≡ false }
        ensures { Handles CB.step CB.scrolls (plain_effect (lookup action plain_rows) params.now action)
            (plain_may_allocate params.now action self.old.screen.state) self.old self.new }
    {
        match action {
            '@' => self.ich(canonicalize_params_1(params, 1)),
            'A' => self.cuu(canonicalize_params_1(params, 1)),
            'B' => self.cud(canonicalize_params_1(params, 1)),
            'C' => self.cuf(canonicalize_params_1(params, 1)),
            'D' => self.cub(canonicalize_params_1(params, 1)),
            'E' => self.cnl(canonicalize_params_1(params, 1)),
            'F' => self.cpl(canonicalize_params_1(params, 1)),
            'G' => self.cha(canonicalize_params_1(params, 1)),
            'H' => self.cup(canonicalize_params_2(params, 1, 1)),
            'L' => self.il(canonicalize_params_1(params, 1)),
            'M' => self.dl(canonicalize_params_1(params, 1)),
            'P' => self.dch(canonicalize_params_1(params, 1)),
            'S' => {
                // A refusal is recorded in the screen, which has then failed.
                let _ = self.su(canonicalize_params_1(params, 1));
            }
            'T' => self.sd(canonicalize_params_1(params, 1)),
            'X' => self.ech(canonicalize_params_1(params, 1)),
            '`' => self.hpa(canonicalize_params_1(params, 1)),
            'b' => {
                // A refusal is recorded in the screen, which has then failed.
                let _ = self.rep(canonicalize_params_1(params, 1));
            }
            'd' => self.vpa(canonicalize_params_1(params, 1)),
            'f' => self.cup(canonicalize_params_2(params, 1, 1)),
            'r' => {
                let (rows, _) = self.screen.size();
                self.decstbm(canonicalize_params_2(params, 1, rows.get()));
            }
            _ => self.other_csi(params, action),
        }
    }

    /// Control sequences that are unhandled at some numbers, and all others.
    fn other_csi(&mut self, params: &Params, action: char)
        requires { self.old.screen.failed ≡ false }
        ensures { Handles CB.step CB.scrolls (row_effect (lookup action other_rows) params.now
            (csi_call [] params.now action)) false self.old self.new }
    {
        match action {
            'J' => {
                let unhandled = self.ed(canonicalize_params_1(params, 0));
                self.unhandled_groups(unhandled, params, &[], action);
            }
            'K' => self.el_csi(params),
            'm' => self.sgr_csi(params),
            't' => self.window(params, action),
            _ => self.unhandled_csi(params, &[], action),
        }
    }

    /// XTWINOPS: 8 asks for a size. An absent number means the screen's.
    fn window(&mut self, params: &Params, action: char)
        requires { self.old.screen.failed ≡ false }
        ensures { Handles CB.step CB.scrolls (window_effect params.now (csi_call [] params.now action)) false
            self.old self.new }
    {
        let mut groups = params.iter();
        let operation = next_number(&mut groups).unwrap_or(0);
        match operation {
            8 => {
                let request = requested_size(groups, self.screen.size());
                self.callbacks.resize(&mut self.screen, request);
            }
            _ => self.unhandled_csi(params, &[], action),
        }
    }

    /// A control sequence with a space as its first intermediate.
    fn space_csi(&mut self, params: &Params, intermediates: &[u8], action: char)
        requires { self.old.screen.failed ≡ false }
        ensures { Handles CB.step CB.scrolls (λ s. if nat_eq action 0x71
            then partly (styled (number_or 0 params.now) s) (csi_call intermediates.now params.now action)
            else calling (csi_call [] params.now action ∷ []) s) false self.old self.new }
    {
        match action {
            'q' => {
                let unhandled = self.decscusr(canonicalize_params_1(params, 0));
                self.unhandled_groups(unhandled, params, intermediates, action);
            }
            _ => self.unhandled_csi(params, &[], action),
        }
    }

    /// A control sequence with `?` as its first intermediate.
    fn private_csi(&mut self, params: &Params, intermediates: &[u8], action: char)
        requires { self.old.screen.failed ≡ false }
        ensures { Handles CB.step CB.scrolls (row_effect (lookup action private_rows) params.now
            (csi_call intermediates.now params.now action)) (private_may_allocate params.now action
            self.old.screen.state)
            self.old self.new }
    {
        match action {
            'J' => {
                let unhandled = self.decsed(canonicalize_params_1(params, 0));
                self.unhandled_groups(unhandled, params, intermediates, action);
            }
            'K' => {
                let unhandled = self.decsel(canonicalize_params_1(params, 0));
                self.unhandled_groups(unhandled, params, intermediates, action);
            }
            'h' => {
                if let Ok(unhandled) = self.decset(params) {
                    self.unhandled_groups(unhandled, params, intermediates, action);
                }
            }
            'l' => {
                let unhandled = self.decrst(params);
                self.unhandled_groups(unhandled, params, intermediates, action);
            }
            _ => self.unhandled_csi(params, intermediates, action),
        }
    }

    /// Reports an unhandled sequence, once for each of its unhandled groups, while the screen hasn't failed. Mostly
    /// no group is unhandled.
    #[inline(always)]
    fn unhandled_groups(
        &mut self,
        count: usize,
        params: &Params,
        intermediates: &[u8],
        action: char,
    )
        ensures { MakesCalls CB.step self.old.callbacks self.old.screen
            (replicate count (csi_call intermediates.now params.now action)) self.new.callbacks self.new.screen }
    {
        if count > 0 {
            self.report_groups(count, params, intermediates, action);
        }
    }

    /// Reports an unhandled sequence `count` times, while the screen hasn't failed.
    // It isn't inlined, since mostly there is nothing to report.
    #[inline(never)]
    fn report_groups(&mut self, count: usize, params: &Params, intermediates: &[u8], action: char)
        ensures { MakesCalls CB.step self.old.callbacks self.old.screen
            (replicate count (csi_call intermediates.now params.now action)) self.new.callbacks self.new.screen }
    {
        for _i in 0..count {
            if self.screen.failed() {
                return;
            }
            self.report_csi(params, intermediates, action);
        }
    }

    /// An unhandled sequence.
    fn unhandled_csi(&mut self, params: &Params, intermediates: &[u8], action: char)
        requires { self.old.screen.failed ≡ false }
        ensures { Handles CB.step CB.scrolls (calling (csi_call intermediates.now params.now action ∷ [])) false
            self.old self.new }
    {
        self.report_csi(params, intermediates, action);
    }

    /// Reports an unhandled sequence: its first two intermediates, its parameters and its final byte.
    fn report_csi(&mut self, params: &Params, intermediates: &[u8], action: char)
        ensures { CB.step self.old.callbacks self.old.screen (csi_call intermediates.now params.now action)
            self.new.callbacks self.new.screen }
    {
        let mut groups: ArrayVec<&[u16], 32> = ArrayVec::new();
        let mut rest = params.iter();
        while let Some(group) = rest.next() {
            groups.push(group);
        }
        self.callbacks.unhandled_csi(
            &mut self.screen,
            intermediates.first().copied(),
            intermediates.get(1).copied(),
            groups.as_slice(),
            action,
        );
    }

    /// OSC 0, 1 and 2: the icon's name and the window's title.
    fn title(&mut self, params: &[&[u8]], command: &[u8], text: &[u8])
        requires live { self.old.screen.failed ≡ false }
        requires pieces { map (λ p. p.now) params.now ≡ command.now ∷ text.now ∷ [] }
        ensures { Handles CB.step CB.scrolls (calling (osc_calls (map (λ p. p.now) params.now))) false
            self.old self.new }
    {
        match command {
            [b'0'] => self.icon_and_title(text),
            [b'1'] => self.callbacks.set_window_icon_name(&mut self.screen, text),
            [b'2'] => self.callbacks.set_window_title(&mut self.screen, text),
            _ => self.callbacks.unhandled_osc(&mut self.screen, params),
        }
    }

    /// Reports one text as the icon's name and as the window's title.
    fn icon_and_title(&mut self, text: &[u8])
        requires { self.old.screen.failed ≡ false }
        ensures { Handles CB.step CB.scrolls (calling (said.set_window_icon_name text.now
            ∷ said.set_window_title text.now ∷ [])) false self.old self.new }
    {
        self.callbacks.set_window_icon_name(&mut self.screen, text);
        if !self.screen.failed() {
            self.callbacks.set_window_title(&mut self.screen, text);
        }
    }

    /// OSC 52: data for clipboards, or a request for what they hold.
    fn clipboard(&mut self, params: &[&[u8]], command: &[u8], selectors: &[u8], bytes: &[u8])
        requires live { self.old.screen.failed ≡ false }
        requires pieces { map (λ p. p.now) params.now ≡ command.now ∷ selectors.now ∷ bytes.now ∷ [] }
        ensures { Handles CB.step CB.scrolls (calling (osc_calls (map (λ p. p.now) params.now))) false
            self.old self.new }
    {
        if !is_clipboard(command) || !are_selectors(selectors) {
            self.callbacks.unhandled_osc(&mut self.screen, params);
        } else if is_question(bytes) {
            self.callbacks
                .paste_from_clipboard(&mut self.screen, selectors);
        } else if are_base64(bytes) {
            self.callbacks
                .copy_to_clipboard(&mut self.screen, selectors, bytes);
        } else {
            self.callbacks.unhandled_osc(&mut self.screen, params);
        }
    }
}

/// Whether a character isn't drawn, but reported: U+FFFD, and the controls from U+0080 to U+009F.
#[inline]
fn is_unhandled(c: char) -> bool
    ensures { result ≡ is_unhandled c }
{
    matches!(c, '\u{FFFD}' | '\u{80}'..='\u{9F}')
}

/// Whether the first character of a text is printed faster without a run: a letter of ASCII before another character,
/// or one of the accents from U+0300 to U+036F, which join the letter before them.
#[inline(always)]
fn begins_alone(text: &str) -> bool {
    matches!(
        text.as_bytes(),
        [0..=0x7F, 0x80..=0xFF, ..] | [0xCC, ..] | [0xCD, 0x80..=0xAF, ..]
    )
}

/// Whether a command is that of clipboards.
fn is_clipboard(command: &[u8]) -> bool
    ensures yes { result ≡ true → command.now ≡ 0x35 ∷ 0x32 ∷ [] }
    ensures no { result ≡ false → command.now ≢ 0x35 ∷ 0x32 ∷ [] }
{
    matches!(command, [b'5', b'2'])
}

/// Whether letters and digits name clipboards: `c`, `p`, `q`, `s` or `0` to `7`.
fn are_selectors(selectors: &[u8]) -> bool
    ensures { result ≡ list_all is_selector selectors.now }
{
    selectors.iter().all(|byte| is_selector(*byte))
}

fn is_selector(byte: u8) -> bool
    ensures { result ≡ is_selector byte }
{
    matches!(byte, b'0'..=b'7' | b'c' | b'p' | b'q' | b's')
}

/// Whether the clipboards' contents are asked for.
fn is_question(bytes: &[u8]) -> bool
    ensures { result ≡ is_question bytes.now }
{
    matches!(bytes, [b'?'])
}

/// Whether bytes are those of base64.
fn are_base64(bytes: &[u8]) -> bool
    ensures { result ≡ list_all is_base64 bytes.now }
{
    bytes.iter().all(|byte| is_base64(*byte))
}

fn is_base64(byte: u8) -> bool
    ensures { result ≡ is_base64 byte }
{
    matches!(byte, b'A'..=b'Z' | b'a'..=b'z' | b'0'..=b'9' | b'+' | b'/' | b'=')
}

/// The first two intermediates.
fn first_two(intermediates: &[u8]) -> (Option<u8>, Option<u8>)
    ensures first { result.0 ≡ first intermediates.now }
    ensures second { result.1 ≡ second intermediates.now }
{
    (
        intermediates.first().copied(),
        intermediates.get(1).copied(),
    )
}

/// The first number of the next group, if it is there.
#[inline(always)]
fn next_number(groups: &mut ParamsIter<'_>) -> Option<u16>
    ensures number { result ≡ given groups.old }
    ensures rest { groups.new ≡ later groups.old }
{
    groups.next()?.first().copied()
}

/// The rows and columns that the next two groups name, or else those of the screen.
fn requested_size(mut groups: ParamsIter<'_>, size: (NonZeroU16, NonZeroU16)) -> (u16, u16)
    ensures rows { result.0 ≡ unwrap_or (given groups.entry) size.0.value }
    ensures cols { result.1 ≡ unwrap_or (given (later groups.entry)) size.1.value }
{
    let (rows, cols) = size;
    let rows = next_number(&mut groups).unwrap_or(rows.get());
    let cols = next_number(&mut groups).unwrap_or(cols.get());
    (rows, cols)
}

/// The first number of the next group, or the default where it is absent or 0.
#[inline(always)]
fn next_or(groups: &mut ParamsIter<'_>, default: u16) -> u16
    ensures number { result ≡ number_or default groups.old }
    ensures rest { groups.new ≡ later groups.old }
{
    match next_number(groups) {
        None | Some(0) => default,
        Some(number) => number,
    }
}

/// The first number, or the default where it is absent or 0.
#[inline(always)]
pub(crate) fn canonicalize_params_1(params: &Params, default: u16) -> u16
    ensures { result ≡ number_or default params.now }
{
    match params.numbers() {
        Some([number, ..]) => number_or(*number, default),
        Some([]) => default,
        None => led_by_group(params, default),
    }
}

/// The first number of the first group, or the default where it is absent or 0.
#[inline(never)]
fn led_by_group(params: &Params, default: u16) -> u16
    ensures { result ≡ number_or default params.now }
{
    next_or(&mut params.iter(), default)
}

/// A number, or the default where it is 0.
#[inline(always)]
fn number_or(number: u16, default: u16) -> u16
    ensures { result ≡ (if nat_eq number 0 then default else number) }
{
    if number == 0 { default } else { number }
}

/// The first number, or 1 where it is absent or 0, if each group is one number.
#[inline(always)]
fn count_alone(params: &Params) -> Option<u16>
    ensures { IfSome result (λ n. n ≡ number_or 1 params.now) }
{
    match params.numbers()? {
        [number, ..] => Some(number_or(*number, 1)),
        [] => Some(1),
    }
}

/// The first two numbers, each or 1 where it is 0, if both are there and each group is one number.
#[inline(always)]
fn place_alone(params: &Params) -> Option<(u16, u16)>
    ensures row { IfSome result (λ n. n.0 ≡ number_or 1 params.now) }
    ensures col { IfSome result (λ n. n.1 ≡ number_or 1 (later params.now)) }
{
    match params.numbers()? {
        [row, col, ..] => Some((number_or(*row, 1), number_or(*col, 1))),
        _ => None,
    }
}

/// The first numbers of the first two groups, each or its default where it is absent or 0.
#[inline(always)]
fn canonicalize_params_2(params: &Params, default1: u16, default2: u16) -> (u16, u16)
    ensures first { result.0 ≡ number_or default1 params.now }
    ensures second { result.1 ≡ number_or default2 (later params.now) }
{
    match params.numbers() {
        Some([first, second, ..]) => (number_or(*first, default1), number_or(*second, default2)),
        _ => led_by_groups(params, default1, default2),
    }
}

/// The first numbers of the first two groups, where not each group is one number.
#[inline(never)]
fn led_by_groups(params: &Params, default1: u16, default2: u16) -> (u16, u16)
    ensures first { result.0 ≡ number_or default1 params.now }
    ensures second { result.1 ≡ number_or default2 (later params.now) }
{
    let mut groups = params.iter();
    (
        next_or(&mut groups, default1),
        next_or(&mut groups, default2),
    )
}

//! The character sets, and which of them draws.

ghost use Rattle.std.specs.Prelude.{◌≡◌, ◌==◌, ◌&&◌, IsTrue};
ghost use Rattle.charset_filter.specs.Steady.{IsSteady};
ghost use Rattle.charset_filter.specs.Sets as sets;
ghost use Rattle.charset_filter.specs.Sets.{after_control, after_csi, after_escape, after_mode, after_modes};
ghost use Rattle.charset_filter.specs.Sets.{after_unmarked_escape, ascii, designated, drawing_set, first_sets};
ghost use Rattle.charset_filter.specs.Sets.{locked_set, reset_softly, restored, saved, set_at};

use crate::behind::is_bare;
use vte_core::{Event, Params, Perform};
use vte_types::charset::{CharsetIndex, StandardCharset};

/// The sets of G0 to G3, and which of these is locked into the codes 0x20 to 0x7F.
#[derive(Clone, Copy)]
pub struct Designations {
    g0: StandardCharset,
    g1: StandardCharset,
    g2: StandardCharset,
    g3: StandardCharset,
    locked: CharsetIndex,
}

impl Designations {
    /// ASCII in all four, and G0 locked.
    fn ascii() -> Self
        ensures { result ≡ ascii }
    {
        Designations {
            g0: StandardCharset::Ascii,
            g1: StandardCharset::Ascii,
            g2: StandardCharset::Ascii,
            g3: StandardCharset::Ascii,
            locked: CharsetIndex::G0,
        }
    }

    /// The set of one of the four.
    fn set_at(&self, index: CharsetIndex) -> StandardCharset
        ensures { result ≡ set_at self.now index }
    {
        match index {
            CharsetIndex::G0 => self.g0,
            CharsetIndex::G1 => self.g1,
            CharsetIndex::G2 => self.g2,
            CharsetIndex::G3 => self.g3,
        }
    }

    /// The set that is locked.
    fn locked_set(&self) -> StandardCharset
        ensures { result ≡ locked_set self.now }
    {
        self.set_at(self.locked)
    }

    /// Designates a set to one of the four.
    fn designate(&mut self, index: CharsetIndex, set: StandardCharset)
        ensures { self.new ≡ designated self.old index set }
    {
        match index {
            CharsetIndex::G0 => self.g0 = set,
            CharsetIndex::G1 => self.g1 = set,
            CharsetIndex::G2 => self.g2 = set,
            CharsetIndex::G3 => self.g3 = set,
        }
    }
}

/// The character sets after the events so far.
#[derive(Clone, Copy)]
pub struct CharacterSets {
    current: Designations,
    /// The one of the four that only the next character is drawn from: a pending single shift.
    single: Option<CharsetIndex>,
    /// Whether the alternate screen is shown.
    alternate: bool,
    /// What was saved while the main screen was shown.
    main_saved: Designations,
    /// What was saved while the alternate screen was shown.
    alternate_saved: Designations,
}

impl CharacterSets {
    /// ASCII alone.
    pub fn new() -> Self
        ensures { result ≡ first_sets }
    {
        CharacterSets {
            current: Designations::ascii(),
            single: None,
            alternate: false,
            main_saved: Designations::ascii(),
            alternate_saved: Designations::ascii(),
        }
    }

    /// The set that draws the next character.
    pub fn drawing_set(&self) -> StandardCharset
        ensures { result ≡ drawing_set self.now }
    {
        match self.single {
            None => self.current.locked_set(),
            Some(index) => self.current.set_at(index),
        }
    }

    /// Whether no single shift is pending, and the sets in use and all saved ones draw ASCII.
    pub fn is_steady(&self) -> bool
        ensures { IsTrue result → IsSteady self.now }
    {
        self.single.is_none()
            && self.current.locked_set() == StandardCharset::Ascii
            && self.main_saved.locked_set() == StandardCharset::Ascii
            && self.alternate_saved.locked_set() == StandardCharset::Ascii
    }

    /// Whether the alternate screen is shown.
    pub fn is_alternate(&self) -> bool
        ensures { result ≡ self.now.alternate }
    {
        self.alternate
    }

    /// Saves the sets for the screen that is shown.
    fn save(&mut self)
        ensures { self.new ≡ saved self.old }
    {
        if self.alternate {
            self.alternate_saved = self.current;
        } else {
            self.main_saved = self.current;
        }
    }

    /// Restores what was saved while this screen was shown.
    fn restore(&mut self)
        ensures { self.new ≡ restored self.old }
    {
        self.current = if self.alternate {
            self.alternate_saved
        } else {
            self.main_saved
        };
    }

    /// DECSTR.
    fn reset_softly(&mut self)
        ensures { self.new ≡ reset_softly self.old }
    {
        self.current = Designations::ascii();
        self.single = None;
        self.save();
    }

    /// Sets or resets private modes, one after the other.
    fn change_modes(&mut self, params: &Params, set: bool)
        ensures { self.new ≡ after_modes set self.old params.now }
    {
        let mut groups = params.iter();
        while let Some(group) = groups.next() {
            self.change_mode(group, set);
        }
    }

    /// Sets or resets the private mode that a group names.
    pub fn change_mode(&mut self, group: &[u16], set: bool)
        ensures { self.new ≡ after_mode set self.old group.now }
    {
        match group {
            [47 | 1047] => self.alternate = set,
            [1048] if set => self.save(),
            [1048] => self.restore(),
            [1049] if set => {
                self.save();
                self.alternate = true;
            }
            [1049] => {
                self.alternate = false;
                self.restore();
            }
            _ => {}
        }
    }

    /// A control sequence.
    fn control_sequence(&mut self, params: &Params, intermediates: &[u8], last: char)
        ensures { self.new ≡ after_csi self.old params.now intermediates.now last }
    {
        match (intermediates, last) {
            ([], 's') if is_bare(params) => self.save(),
            ([], 'u') if is_bare(params) => self.restore(),
            ([b'!'], 'p') => self.reset_softly(),
            ([b'?'], 'h') => self.change_modes(params, true),
            ([b'?'], 'l') => self.change_modes(params, false),
            _ => {}
        }
    }

    /// SO and SI.
    fn control(&mut self, byte: u8)
        ensures { self.new ≡ after_control self.old byte }
    {
        match byte {
            0x0E => self.current.locked = CharsetIndex::G1,
            0x0F => self.current.locked = CharsetIndex::G0,
            _ => {}
        }
    }

    /// An escape sequence without intermediates.
    fn unmarked_escape(&mut self, last: u8)
        ensures { self.new ≡ after_unmarked_escape self.old last }
    {
        match last {
            b'7' => self.save(),
            b'8' => self.restore(),
            b'c' => *self = CharacterSets::new(),
            b'N' => self.single = Some(CharsetIndex::G2),
            b'O' => self.single = Some(CharsetIndex::G3),
            b'n' => self.current.locked = CharsetIndex::G2,
            b'o' => self.current.locked = CharsetIndex::G3,
            _ => {}
        }
    }

    /// An escape sequence.
    fn escape(&mut self, intermediates: &[u8], last: u8)
        ensures { self.new ≡ after_escape self.old intermediates.now last }
    {
        let Some((first, others)) = intermediates.split_first() else {
            return self.unmarked_escape(last);
        };
        let set = if others.is_empty() && last == b'0' {
            StandardCharset::SpecialCharacterAndLineDrawing
        } else {
            StandardCharset::Ascii
        };
        match *first {
            b'(' => self.current.designate(CharsetIndex::G0, set),
            b')' => self.current.designate(CharsetIndex::G1, set),
            b'*' => self.current.designate(CharsetIndex::G2, set),
            b'+' => self.current.designate(CharsetIndex::G3, set),
            _ => {}
        }
    }
}

impl Perform for CharacterSets {
    ghost use Rattle.std.specs.Prelude.{◌≡◌, false};
    ghost use Rattle.charset_filter.specs.Sets.{after_event};

    ghost step = { λ p e q. q ≡ after_event p e };

    ghost is_terminated = { λ p. false };

    fn event(&mut self, event: Event<'_>) {
        match event {
            Event::Print(_) => self.single = None,
            Event::Execute(byte) => self.control(byte),
            Event::CsiDispatch {
                params,
                intermediates,
                action,
                ..
            } => self.control_sequence(params, intermediates, action),
            Event::EscDispatch {
                intermediates,
                byte,
                ..
            } => self.escape(intermediates, byte),
            Event::OscDispatch { .. } | Event::Hook { .. } | Event::Put(_) | Event::Unhook => {}
        }
    }

    fn terminated(&self) -> bool {
        false
    }
}

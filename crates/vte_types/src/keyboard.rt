//! Keyboard modes (the kitty keyboard protocol, and xterm's `modifyOtherKeys`).
ghost use Rattle.std.specs.Prelude.{⊤, ◌≡◌, ◌%◌, [], ◌∷◌, codes};

use bitflags::{Flag, Flags, bitflag_items};

/// The flags of the kitty keyboard protocol. 1 distinguishes keys from escape sequences. 2 distinguishes presses,
/// repeats and releases. 4 adds the keys of other layouts. 8 sends all keys as sequences. 16 adds their text.
#[derive(Clone, Copy, PartialEq, Eq, Debug)]
pub struct KeyboardModes(u8);

bitflag_items! {
    impl KeyboardModes: u8 {
        const NO_MODE = 0;
        const DISAMBIGUATE_ESC_CODES = 1;
        const REPORT_EVENT_TYPES = 2;
        const REPORT_ALTERNATE_KEYS = 4;
        const REPORT_ALL_KEYS_AS_ESC = 8;
        const REPORT_ASSOCIATED_TEXT = 16;
    }
}

impl Flags for KeyboardModes {
    type Bits = u8;

    ghost exact = { ⊤ };

    ghost table = { (codes "NO_MODE", 0) ∷ (codes "DISAMBIGUATE_ESC_CODES", 1) ∷ (codes "REPORT_EVENT_TYPES", 2)
        ∷ (codes "REPORT_ALTERNATE_KEYS", 4) ∷ (codes "REPORT_ALL_KEYS_AS_ESC", 8)
        ∷ (codes "REPORT_ASSOCIATED_TEXT", 16) ∷ [] };

    ghost set_of = { λ modes. modes.0 };

    fn flags<'a>() -> &'a [Flag<KeyboardModes>] {
        KeyboardModes::FLAGS
    }

    fn bits(&self) -> u8 {
        self.0
    }

    fn from_bits_retain(bits: u8) -> KeyboardModes {
        KeyboardModes(bits)
    }
}

/// How new keyboard modes change those that are set.
#[derive(Clone, Copy, PartialEq, Eq, Debug)]
pub enum KeyboardModesApplyBehavior {
    /// 1: they replace those that are set.
    Replace,
    /// 2: they are added to those that are set.
    Union,
    /// 3: they are removed from those that are set.
    Difference,
}

/// For which keys xterm's `modifyOtherKeys` sends its own sequences.
#[derive(Clone, Copy, PartialEq, Eq, Debug)]
pub enum ModifyOtherKeys {
    /// 0: for none.
    Reset,
    /// 1: for the keys that have no sequence of their own.
    EnableExceptWellDefined,
    /// 2: for all keys.
    EnableAll,
}

//! The numbers of a header, digit by digit: 32 are kept, in their groups.

ghost use Rattle.std.specs.Prelude.{◌≡◌, ◌+◌, ◌-◌, ◌*◌, ◌<◌, ◌≤◌, ◌^◌, ℕ, List, [], ◌∷◌, ◌++◌, length, take, true};
ghost use Rattle.std.specs.Prelude.{IsTrue, IfSome, false, slice_index};
ghost use Rattle.vte_core.specs.Bytes.{each, is_numeric};
ghost use Rattle.vte_core.specs.LoneNumbers.{AreLoneNumbers};
ghost use Rattle.vte_core.specs.Store.{total};

use crate::Params;

/// Whether the byte is a digit, `:` or `;`.
#[inline(always)]
pub fn is_numeric(byte: u8) -> bool
    ensures { result ≡ is_numeric byte }
{
    (0x30..=0x3B).contains(&byte)
}

/// The first 32 numbers.
#[derive(Drop)]
pub struct Numbers {
    /// The whole numbers, in their groups.
    pub params: Params,
    /// The last number, at most 65,535.
    // Before the flags, so that one store clears all three.
    pub number: u16,
    /// The last group isn't whole.
    pub is_open: bool,
    /// A number was begun or ended past the 32 that are kept.
    pub many: bool,
    ghost some: { IsTrue is_open → 0 < length params },
}

impl Numbers {
    ghost use Rattle.vte_core.specs.Reading.{Holds, ReadsNumbers, ReadsUpTo};
    ghost use Rattle.vte_core.specs.Header.{groups_of, first_numbers};
    ghost use Rattle.std.specs.Prelude.{nat_lt};

    /// The numbers of an empty header.
    pub fn new() -> Self
        ensures { ReadsNumbers result [] }
    {
        Numbers {
            params: Params::new(),
            number: 0,
            is_open: false,
            many: false,
        }
    }

    /// Begins a header.
    pub fn clear(&mut self)
        ensures { ReadsNumbers self.new [] }
    {
        self.params.clear();
        self.number = 0;
        self.is_open = false;
        self.many = false;
    }

    /// A number is whole.
    #[inline]
    fn end_number(&mut self, number: u16)
        ensures { (gs : List (List ℕ)) (g : List ℕ) → Holds self.old gs g → Holds self.new gs (g ++ number ∷ []) }
    {
        let goes_on = self.is_open;
        self.is_open = true;
        if self.params.is_full() {
            self.many = true;
        } else if goes_on {
            self.params.extend(number);
        } else {
            self.params.push(number);
        }
    }

    /// The last group is whole.
    #[inline]
    fn end_group(&mut self)
        ensures { (gs : List (List ℕ)) (g : List ℕ) → Holds self.old gs g → 0 < length g
            → Holds self.new (gs ++ g ∷ []) [] }
    {
        self.is_open = false;
    }

    /// A digit, `:` or `;` after the last number, which is returned as it is then.
    #[inline(always)]
    fn after_byte(&mut self, number: u16, byte: u8) -> u16
        requires { IsTrue (is_numeric byte) }
        ensures { (m : List ℕ) → ReadsUpTo self.old number m → ReadsUpTo self.new result (m ++ byte ∷ []) }
    {
        match byte {
            b'0'..=b'9' => (number as u32 * 10 + (byte - b'0') as u32).min(0xFFFF) as u16,
            b';' => {
                self.end_number(number);
                self.end_group();
                0
            }
            _ => {
                self.end_number(number);
                0
            }
        }
    }

    /// A digit, `:` or `;`.
    pub fn push(&mut self, byte: u8)
        requires { IsTrue (is_numeric byte) }
        ensures { (m : List ℕ) → ReadsNumbers self.old m → ReadsNumbers self.new (m ++ byte ∷ []) }
    {
        let number = self.number;
        self.number = self.after_byte(number, byte);
    }

    /// Reads the digits, `:` and `;` at the start of the bytes, and returns how many they are.
    #[inline(always)]
    pub fn read(&mut self, bytes: &[u8]) -> usize
        ensures within { result ≤ length bytes.now }
        ensures numeric { each is_numeric (take result bytes.now) ≡ true }
        ensures ended { result < length bytes.now → is_numeric (slice_index bytes.now result) ≡ false }
        ensures reads { (m : List ℕ) → ReadsNumbers self.old m → ReadsNumbers self.new (m ++ take result bytes.now) }
    {
        let mut number = self.number;
        let mut read = 0;
        while read < bytes.len() && is_numeric(bytes[read]) {
            number = self.after_byte(number, bytes[read]);
            read += 1;
        }
        self.number = number;
        read
    }

    /// Reads lone numbers, those that `;` alone separates, up to the first other byte. Returns how many bytes they are.
    /// Returns `None` if they are more than are kept, one has more than four digits, or few bytes are left.
    #[inline(always)]
    pub fn read_lone_numbers(&mut self, bytes: &[u8]) -> Option<usize>
        ensures { IfSome result (λ k. AreLoneNumbers bytes.now k self.new.params) }
    {
        self.is_open = false;
        self.params.read_lone_numbers(bytes)
    }

    /// The header ends, and with it the last number and the last group.
    #[inline(always)]
    pub fn finish(&mut self)
        ensures params { (m : List ℕ) → ReadsNumbers self.old m → self.new.params ≡ first_numbers 32 (groups_of m) }
        ensures many { (m : List ℕ) → ReadsNumbers self.old m → self.new.many ≡ nat_lt 32 (total (groups_of m)) }
    {
        self.end_number(self.number);
        self.end_group();
    }
}

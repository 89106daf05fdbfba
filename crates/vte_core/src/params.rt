//! The parameters of a control sequence or a device control string.

ghost use Rattle.std.specs.Prelude.{◌≡◌, ◌+◌, ◌-◌, ◌<◌, ◌≤◌, ◌==◌, ℕ, List, [], ◌∷◌, ◌++◌, length, take, map, true};
ghost use Rattle.std.specs.Prelude.{false, IfSome, IfNone};
ghost use Rattle.std.specs.Int.{is_in_range};
ghost use Rattle.vte_core.specs.Store.{total};
ghost use Rattle.vte_core.specs.LoneNumbers.{AreLoneNumbers, IsBoundedNumber};
ghost use Rattle.vte_core.specs.ParamsText.{group_text, groups_text};
ghost use Rattle.std.specs.Iterator.{YieldsFirstBy, item_count};
ghost use Rattle.std.specs.Fmt.{WritesOnOk};

use std::fmt;
use std::marker::Model;

/// How many numbers are kept.
pub(crate) const MAX_PARAMS: usize = 32;

/// How many bytes are looked at for a number: four digits and another byte.
const NUMBER_LEN: usize = 5;

/// Groups of numbers, up to 32 numbers in all, each at most 65,535. A group is what lies between two `;`; the
/// subparameters that `:` separates are its numbers (ITU-T T.416, section 13.1.8). A number without digits is 0.
#[derive(Drop)]
pub struct Params {
    numbers: [u16; MAX_PARAMS],
    /// How many of the numbers are kept.
    len: usize,
    /// Where each group ends.
    ends: [usize; MAX_PARAMS],
    /// How many of the numbers are subparameters: not the first of their group. Without subparameters each number is a
    /// group, and the ends are those of such groups.
    subparameters: usize,
}

/// Where groups end of which each is one number.
const LONE_ENDS: [usize; MAX_PARAMS] = [
    1, 2, 3, 4, 5, 6, 7, 8, 9, 10, 11, 12, 13, 14, 15, 16, 17, 18, 19, 20, 21, 22, 23, 24, 25, 26,
    27, 28, 29, 30, 31, 32,
];

impl Model for Params {
    ghost use Rattle.std.specs.Prelude.{◌≡◌, ◌≤◌, ◌-◌, List, ℕ, take};
    ghost use Rattle.vte_core.specs.Store.{cut_at, IsStore, rising};

    ghost Value = { List (List ℕ) };

    ghost view = { λ p. cut_at 0 (take (p.len - p.subparameters) p.ends) (take p.len p.numbers) };

    ghost invariant = { λ p. IsStore p.numbers p.ends p.len (p.len - p.subparameters) × (p.subparameters ≤ p.len)
        × (p.subparameters ≡ 0 → p.ends ≡ rising 1 32) };
}

impl Default for Params {
    ghost is_default = { λ params. params ≡ [] };

    fn default() -> Self {
        Params::new()
    }
}

impl Params {
    /// No group.
    pub(crate) fn new() -> Self
        ensures { result ≡ [] }
    {
        Params {
            numbers: [0; MAX_PARAMS],
            len: 0,
            ends: LONE_ENDS,
            subparameters: 0,
        }
    }

    /// How many numbers there are, subparameters counted: at most 32.
    pub fn len(&self) -> usize
        ensures value { result ≡ total self.now }
        ensures few { total self.now ≤ 32 }
    {
        self.len
    }

    /// Whether there is no number.
    pub fn is_empty(&self) -> bool
        ensures { result ≡ (total self.now == 0) }
    {
        self.len == 0
    }

    /// The number of each group, if every group is one number; `None` if a group has subparameters.
    #[inline]
    pub fn numbers(&self) -> Option<&[u16]>
        ensures alone { IfSome result (λ numbers. self.now ≡ map (λ n. n ∷ []) numbers.now) }
        ensures few { IfSome result (λ numbers. length numbers.now ≤ 32) }
        ensures others { IfNone result (length self.now < total self.now) }
    {
        if self.subparameters == 0 {
            Some(&self.numbers[..self.len])
        } else {
            None
        }
    }

    /// Whether no further numbers are kept.
    pub(crate) fn is_full(&self) -> bool
        ensures value { result ≡ (total self.now == 32) }
        ensures fits { total self.now ≤ 32 }
    {
        self.len == MAX_PARAMS
    }

    /// Drops all groups.
    pub(crate) fn clear(&mut self)
        ensures { self.new ≡ [] }
    {
        if self.subparameters != 0 {
            self.ends = LONE_ENDS;
            self.subparameters = 0;
        }
        self.len = 0;
    }

    /// One more group, of one number.
    pub(crate) fn push(&mut self, number: u16)
        requires { total self.old < 32 }
        ensures { self.new ≡ self.old ++ (number ∷ []) ∷ [] }
    {
        self.numbers[self.len] = number;
        self.ends[self.len - self.subparameters] = self.len + 1;
        self.len += 1;
    }

    /// One more number of the last group.
    pub(crate) fn extend(&mut self, number: u16)
        requires some { 0 < length self.old }
        requires room { total self.old < 32 }
        ensures last { (gs : List (List ℕ)) (g : List ℕ) → self.old ≡ gs ++ g ∷ []
            → self.new ≡ gs ++ (g ++ number ∷ []) ∷ [] }
        ensures groups { length self.new ≡ length self.old }
    {
        self.numbers[self.len] = number;
        self.ends[self.len - self.subparameters - 1] = self.len + 1;
        self.len += 1;
        self.subparameters += 1;
    }

    /// Reads lone numbers, those that `;` alone separates, up to the first other byte. Returns how many bytes they are.
    /// Returns `None` if they are more than are kept, one has more than four digits, few bytes are left, or many are
    /// read.
    #[inline(always)]
    pub(crate) fn read_lone_numbers(&mut self, bytes: &[u8]) -> Option<usize>
        ensures { IfSome result (λ k. AreLoneNumbers bytes.now k self.new) }
    {
        if bytes.len() < NUMBER_LEN {
            return None;
        }
        if self.subparameters != 0 {
            self.ends = LONE_ENDS;
            self.subparameters = 0;
        }
        let last = (bytes.len() - NUMBER_LEN).min(MAX_PARAMS - 1);
        let mut count = 0;
        let mut read = 0;
        while read <= last {
            let (number, digits) = bounded_number(&bytes[read..])?;
            self.numbers[count] = number;
            count += 1;
            read += digits;
            if bytes[read] != b';' {
                self.len = count;
                return Some(read);
            }
            read += 1;
        }
        None
    }
}

/// The digit that the byte is, or a larger number if it isn't a digit.
#[inline(always)]
fn digit(byte: u8) -> u32
    ensures digit { is_in_range 0x30 0x39 byte ≡ true → result ≡ byte - 0x30 }
    ensures other { is_in_range 0x30 0x39 byte ≡ false → 9 < result }
    ensures less { is_in_range 0x30 0x39 byte ≡ true → result ≤ 9 }
{
    (byte as u32).wrapping_sub(0x30)
}

/// The number of at most four digits at the start, and how many they are; `None` if a fifth follows.
#[inline(always)]
fn bounded_number(bytes: &[u8]) -> Option<(u16, usize)>
    requires { 5 ≤ length bytes.now }
    ensures { IfSome result (λ x. IsBoundedNumber bytes.now x.0 x.1) }
{
    let [first, second, third, fourth, fifth, ..] = bytes else {
        unreachable!();
    };
    let number = digit(*first);
    if number > 9 {
        return Some((0, 0));
    }
    let next = digit(*second);
    if next > 9 {
        return Some((number as u16, 1));
    }
    let number = number * 10 + next;
    let next = digit(*third);
    if next > 9 {
        return Some((number as u16, 2));
    }
    let number = number * 10 + next;
    let next = digit(*fourth);
    if next > 9 {
        return Some((number as u16, 3));
    }
    if digit(*fifth) <= 9 {
        return None;
    }
    Some(((number * 10 + next) as u16, 4))
}

/// The groups of a [`Params`] that are left.
#[derive(Drop)]
pub struct ParamsIter<'a> {
    numbers: &'a [u16],
    ends: &'a [usize],
    start: usize,
}

impl<'a> Model for ParamsIter<'a> {
    ghost use Rattle.std.specs.Prelude.{List, ℕ, ◌≤◌, length};
    ghost use Rattle.vte_core.specs.Store.{cut_at, EndsFit};

    ghost Value = { List (List ℕ) };

    ghost view = { λ i. cut_at i.start i.ends.now i.numbers.now };

    ghost invariant = { λ i. EndsFit i.start i.ends.now i.numbers.now × (length i.numbers.now ≤ 32) };
}

impl<'a> Iterator for ParamsIter<'a> {
    type Item = &'a [u16];

    ghost next_gives = { YieldsFirstBy (λ group. group.now) (λ groups. groups) };

    ghost remaining = { item_count (λ groups. groups) };

    fn next(&mut self) -> Option<&'a [u16]> {
        let (end, ends) = self.ends.split_first()?;
        let group = &self.numbers[self.start..*end];
        self.start = *end;
        self.ends = ends;
        Some(group)
    }
}

impl Params {
    /// The groups, in order: at most 32.
    pub fn iter(&self) -> ParamsIter<'_>
        ensures groups { result ≡ self.now }
        ensures few { length self.now ≤ 32 }
    {
        ParamsIter {
            numbers: &self.numbers[..self.len],
            ends: &self.ends[..self.len - self.subparameters],
            start: 0,
        }
    }
}

impl<'a> IntoIterator for &'a Params {
    type Item = &'a [u16];

    type IntoIter = ParamsIter<'a>;

    ghost into_iter_gives = { λ params groups. groups ≡ params.now };

    fn into_iter(self) -> Self::IntoIter {
        self.iter()
    }
}

/// The numbers as a control sequence has them, in brackets: groups joined by `;`, the numbers of a group by `:`.
impl fmt::Debug for Params {
    ghost use Rattle.std.specs.Prelude.{Some};
    ghost use Rattle.vte_core.specs.ParamsText.{params_text};

    ghost debug_output = { λ params. Some (params_text params) };

    fn fmt<W: fmt::Write>(&self, f: &mut fmt::Formatter<W>) -> fmt::Result {
        f.write_str("[")?;
        write_groups(f, self.iter())?;
        f.write_str("]")
    }
}

/// Writes groups, joined by `;`.
fn write_groups<W: fmt::Write>(f: &mut fmt::Formatter<W>, mut groups: ParamsIter<'_>) -> fmt::Result
    ensures { WritesOnOk W.write_str_gives f.old result (groups_text groups.entry) f.new }
{
    if let Some(first) = groups.next() {
        write_group(f, first)?;
        for group in groups {
            f.write_str(";")?;
            write_group(f, group)?;
        }
    }
    Ok(())
}

/// Writes the numbers of a group, joined by `:`.
fn write_group<W: fmt::Write>(f: &mut fmt::Formatter<W>, group: &[u16]) -> fmt::Result
    ensures { WritesOnOk W.write_str_gives f.old result (group_text group.now) f.new }
{
    if let [first, rest @ ..] = group {
        write!(f, "{first}")?;
        for number in rest {
            write!(f, ":{number}")?;
        }
    }
    Ok(())
}

//! A small buffer of bytes that are appended to a string in one call.
ghost use Rattle.std.specs.Prelude.{◌≡◌, ℕ, ◌+◌, ◌<◌, ◌≤◌, ◌↔◌, List, [], ◌∷◌, ◌++◌, length, take, IsTrue, IsUtf8};
ghost use Rattle.std.specs.Prelude.{◌⊎◌, OnOk, OnErr, string_bytes, string_len, string_capacity, is_ok, if◌then◌else◌};

use std::alloc::AllocError;
use std::marker::Model;
use std::str;

/// How many bytes a run has at most.
const RUN_BYTES: usize = 192;

/// How many bytes a character of UTF-8 has at most.
#[doc(hidden)]
pub const CHAR_BYTES: usize = 4;

/// A buffer on the stack of at most 192 bytes of UTF-8, which are appended to a string in one call.
#[derive(Debug, Drop)]
pub struct TextRun {
    // A byte, and before the others: so LLVM sees that a write of one of these never changes it, and keeps it in a
    // register.
    len: u8,
    // The bytes past `len` are whatever was left there.
    bytes: [u8; RUN_BYTES],
}

impl Model for TextRun {
    ghost use Rattle.std.specs.Prelude.{List, ℕ};

    ghost Value = { List ℕ };

    ghost use Rattle.vt100_forms.specs.TextRunFields.{bytes_of, IsRun};

    ghost view = { bytes_of };

    ghost invariant = { IsRun };
}

impl TextRun {
    /// An empty buffer.
    pub const fn new() -> Self
        ensures { result ≡ [] }
    {
        TextRun {
            len: 0,
            bytes: [0; RUN_BYTES],
        }
    }

    /// Whether there is room for `count` more bytes.
    #[inline(always)]
    pub fn has_room(&self, count: usize) -> bool
        requires { count ≤ 192 }
        ensures { IsTrue result ↔ (length self.now + count ≤ 192) }
    {
        self.len as usize <= RUN_BYTES - count
    }

    /// Appends an ASCII character.
    #[inline(always)]
    pub fn push_ascii(&mut self, c: u8)
        requires room { length self.old < 192 }
        requires ascii { c < 128 }
        ensures bytes { self.new ≡ self.old ++ c ∷ [] }
        ensures len { length self.new ≡ length self.old + 1 }
    {
        self.bytes[self.len as usize] = c;
        self.len += 1;
    }

    /// Appends a text of at most four bytes: the first `len` of these.
    // All four are copied, which is one move and no branch.
    #[inline(always)]
    pub fn push_four(&mut self, bytes: &[u8], len: usize)
        requires room { length self.old + 4 ≤ 192 }
        requires four { length bytes.now ≡ 4 }
        requires few { len ≤ 4 }
        requires utf8 { IsUtf8 (take len bytes.now) }
        ensures { self.new ≡ self.old ++ take len bytes.now }
    {
        let start = self.len as usize;
        self.bytes[start..start + CHAR_BYTES].copy_from_slice(bytes);
        self.len = (start + len) as u8;
    }

    /// Appends a text.
    #[inline]
    pub fn push_str(&mut self, text: &str)
        requires { length self.old + length text.now ≤ 192 }
        ensures { self.new ≡ self.old ++ text.now }
    {
        let start = self.len as usize;
        let end = start + text.len();
        self.bytes[start..end].copy_from_slice(text.as_bytes());
        self.len = end as u8;
    }

    /// The bytes.
    #[inline]
    pub fn as_str(&self) -> &str
        ensures { result.now ≡ self.now }
    {
        unsafe { str::from_utf8_unchecked(&self.bytes[..self.len as usize]) }
    }

    /// Moves the bytes to the end of `contents`, and empties the run. Fails only if an allocation fails: `contents` is
    /// then unchanged, and the run is empty too.
    #[inline]
    pub fn move_to(&mut self, contents: &mut String) -> Result<(), AllocError>
        ensures bytes { string_bytes contents.new ≡
            (if is_ok result then string_bytes contents.old ++ self.old else string_bytes contents.old) }
        ensures empty { self.new ≡ [] }
        ensures full { OnErr result (string_capacity contents.old < string_len contents.old + length self.old) }
        ensures capacity { string_capacity contents.old ≤ string_capacity contents.new }
    {
        if self.len == 0 {
            return Ok(());
        }
        let moved = contents.push_str(self.as_str());
        self.len = 0;
        moved
    }

    /// Moves the bytes to the end of `contents` if there is no room for `count` more. Fails only if an allocation
    /// fails.
    #[inline]
    pub fn make_room(&mut self, count: usize, contents: &mut String) -> Result<(), AllocError>
        requires { count ≤ 192 }
        ensures room { OnOk result (length self.new + count ≤ 192) }
        ensures kept { OnOk result (string_bytes contents.new ++ self.new ≡ string_bytes contents.old ++ self.old) }
        ensures moved { (string_bytes contents.new ≡ string_bytes contents.old)
            ⊎ (string_bytes contents.new ≡ string_bytes contents.old ++ self.old) }
        ensures full { OnErr result (string_capacity contents.old < string_len contents.old + length self.old) }
        ensures capacity { string_capacity contents.old ≤ string_capacity contents.new }
    {
        if self.has_room(count) {
            return Ok(());
        }
        self.move_to(contents)
    }
}

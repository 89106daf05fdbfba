//! A filter for a program's bytes on their way to a terminal. It resolves character sets, and sequences that a screen
//! of `vt100` doesn't know.
//!
//! Programs draw boxes with DEC's special graphics: `ESC ( 0` designates that set, and then `lqqk` is the upper edge of
//! a box. A terminal that knows UTF-8 alone shows letters there. [`CharsetFilter`] is for such a terminal: it reads the
//! bytes in pieces of any lengths and passes them on. Each character that is printed from the special graphics becomes
//! its Unicode character, as `┌──┐`.
//!
//! Designations and shifts are passed on with all other bytes. They don't mislead a terminal after the filter: what is
//! given in place of a drawn character has no other meaning in the special graphics. So if a sequence breaks something
//! off, such as a string that wasn't ended, it does the same after the filter.
//!
//! The filter is for a screen of `vt100`. A terminal that knows what `vt100` doesn't know would do these sequences
//! twice.
//!
//! A [`PieceFilter`] is for a screen that draws lines by choice. It gives each piece of an output as it is, or
//! filtered.
//!
//! # Sets
//!
//! The rules are those of ECMA-35 and of DEC's VT220, as xterm's control sequences have them without national sets:
//!
//! - `ESC ( F`, `ESC ) F`, `ESC * F` and `ESC + F` designate a set to G0, G1, G2 and G3: the special graphics where F
//!   is `0`, and ASCII for every other final byte and wherever there is a second intermediate.
//! - SI locks G0 into the codes 0x20 to 0x7F, SO G1, `ESC n` G2 and `ESC o` G3. `ESC N` and `ESC O` draw the next
//!   character alone from G2 and from G3. That character may be of any kind, U+FFFD too.
//! - `ESC 7` saves the four sets and which is locked, and `ESC 8` restores them, or ASCII if none were saved. So do
//!   `CSI s` and `CSI u` without a parameter. As in xterm a pending single shift is neither saved nor dropped, and each
//!   of the two screens has saved sets of its own.
//! - The private modes 47, 1047 and 1049 show the alternate screen when they are set, and the main one when they are
//!   reset. 1048 saves as `ESC 7` does, and restores when it is reset. 1049 saves before it shows the alternate
//!   screen, and restores once the main one is shown.
//! - `ESC c` resets everything: ASCII in all four, G0 locked, no single shift, that saved, and the main screen
//!   shown. `ESC [ ! p` does so for the screen that is shown.
//!
//! The filter doesn't read the 8-bit forms of the single shifts, sets of 96 characters (`ESC -`, `ESC .`, `ESC /`) or
//! the codes from 0xA0 on (GR). Nor does it read `CSI ? 1048 s` and `r`, which in xterm save and restore the sets too.
//! After `ESC c` xterm keeps what was saved while the alternate screen was shown; here nothing is kept.
//!
//! # Sequences
//!
//! Every byte is passed on at once. Directly after the byte that completes a sequence that `vt100` doesn't know, the
//! filter gives bytes of sequences that `vt100` knows, and that do the same (ECMA-48, ITU-T T.416, DEC's VT510, xterm's
//! control sequences). These are the bytes behind the sequence:
//!
//! | Sequence | The bytes behind it |
//! |---|---|
//! | SGR with a group with colons that `vt100` doesn't know | SGR with all its groups: `38:2:SPACE:R:G:B` as `38:2:R:G:B`, `48` likewise, `4:0` as `24`, `4:1` to `4:5` as `4`. Other unknown groups with colons are left out, such as `58:2::R:G:B`, an underline's colour. If no group is left, there are no bytes |
//! | `CSI s`, `CSI u` without a parameter | `ESC 7`, `ESC 8` |
//! | IND (`ESC D`), NEL (`ESC E`) | LF, and CR LF |
//! | DECSTBM (`CSI T ; B r`) | `CSI H`: the cursor goes home |
//! | `CSI ? 1047 h` | `CSI ? 47 h` |
//! | `CSI ? 1047 l`, where the alternate screen is shown | `CSI ? 47 h`, `CSI 2 J`, `CSI ? 47 l`: it is cleared as it is left |
//! | `CSI ? 1048 h`, `CSI ? 1048 l` | `ESC 7`, `ESC 8` |
//! | DECSTR (`CSI ! p`) | `CSI m`, `CSI ? 25 h`, `CSI ? 1 l`, `ESC >`, and `ESC 7`, `CSI r`, `ESC 8`: the region is whole again, and the cursor stays |
//!
//! If one sequence has several private modes, each has its bytes, in their order, once the whole sequence is done.
//! Origin mode stays on at DECSTR if it is on, and the saved cursor is the one that DECSTR found. A part of a colour
//! over 255 makes its group unknown. If numbers of an SGR were dropped, as it had more than 32, no bytes are behind it.
//!
//! The filter doesn't resolve what needs the bytes of a character to be held back: hidden text (SGR 8) and insert mode
//! (`CSI 4 h`). Nor does it resolve U+FFFD, which `vt100` doesn't show, nor what needs to know the cursor: back tabs
//! (`CSI Z`), tab stops (`ESC H`, `CSI g`), no wrap (`CSI ? 7 l`), `ESC # 8`, and the cursor that xterm leaves in place
//! when modes 47 and 1047 change.
#![tactic(auto)]

mod behind;
mod error;
mod filter;
pub mod laws;
mod lines;
mod listener;
mod sets;
mod steady;

pub use error::AdvanceError;
pub use filter::CharsetFilter;
pub use lines::{LineDrawing, PieceFilter};

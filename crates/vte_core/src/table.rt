//! The class of each byte in a sequence, and what a byte of each class does in each state.

ghost use Rattle.std.specs.Prelude.{◌≡◌, ◌≢◌};
ghost use Rattle.std.specs.Bool.{IsTrue};
ghost use Rattle.vte_core.specs.Classes.{is_in};
ghost use Rattle.vte_core.specs.Steps.{does, next_state};

use crate::parser::State;
use crate::parser::State::{
    Csi, DcsHeader, DcsPassthrough, Escape as Esc, Ground, OscString, SosPmApcString,
};
use Action::{Abort, Collect, Dispatch, End, Execute, Ignore, Param, Put};
use Class::{
    Bell, Cancel, Colon, Control, Delete, Digit, Escape, Final, High, Intermediate as Between,
    Private, Semicolon, StringEnd,
};

/// What a byte is in a sequence. The states differ in what they do with a class, never in what belongs to it.
#[derive(Clone, Copy)]
pub enum Class {
    /// 0x00 to 0x1F, other than BEL, CAN, SUB and ESC.
    Control,
    /// 0x07, which ends an operating system command.
    Bell,
    /// CAN and SUB, 0x18 and 0x1A.
    Cancel,
    /// ESC, 0x1B.
    Escape,
    /// 0x20 to 0x2F.
    Intermediate,
    /// `0` to `9`.
    Digit,
    /// `:`
    Colon,
    /// `;`
    Semicolon,
    /// `<`, `=`, `>` and `?`.
    Private,
    /// 0x40 to 0x7E.
    Final,
    /// 0x7F.
    Delete,
    /// 0x9C, ST as one byte.
    StringEnd,
    /// 0x80 to 0xFF, other than 0x9C.
    High,
}

/// The class of each byte.
static CLASSES: [Class; 256] = [
    Control, Control, Control, Control, Control, Control, Control, Bell, Control, Control, Control,
    Control, Control, Control, Control, Control, Control, Control, Control, Control, Control,
    Control, Control, Control, Cancel, Control, Cancel, Escape, Control, Control, Control, Control,
    Between, Between, Between, Between, Between, Between, Between, Between, Between, Between,
    Between, Between, Between, Between, Between, Between, Digit, Digit, Digit, Digit, Digit, Digit,
    Digit, Digit, Digit, Digit, Colon, Semicolon, Private, Private, Private, Private, Final, Final,
    Final, Final, Final, Final, Final, Final, Final, Final, Final, Final, Final, Final, Final,
    Final, Final, Final, Final, Final, Final, Final, Final, Final, Final, Final, Final, Final,
    Final, Final, Final, Final, Final, Final, Final, Final, Final, Final, Final, Final, Final,
    Final, Final, Final, Final, Final, Final, Final, Final, Final, Final, Final, Final, Final,
    Final, Final, Final, Final, Final, Final, Final, Final, Final, Delete, High, High, High, High,
    High, High, High, High, High, High, High, High, High, High, High, High, High, High, High, High,
    High, High, High, High, High, High, High, High, StringEnd, High, High, High, High, High, High,
    High, High, High, High, High, High, High, High, High, High, High, High, High, High, High, High,
    High, High, High, High, High, High, High, High, High, High, High, High, High, High, High, High,
    High, High, High, High, High, High, High, High, High, High, High, High, High, High, High, High,
    High, High, High, High, High, High, High, High, High, High, High, High, High, High, High, High,
    High, High, High, High, High, High, High, High, High, High, High, High, High, High, High, High,
    High, High, High, High, High, High, High, High, High, High, High, High, High,
];

/// The class of a byte.
#[inline(always)]
fn class_of(byte: u8) -> Class
    ensures { IsTrue (is_in result byte) }
{
    CLASSES[byte as usize]
}

/// What a parser does with a byte inside a sequence.
#[derive(Clone, Copy)]
pub enum Action {
    /// The byte is dropped.
    Ignore,
    /// What was begun is over, and the byte is executed.
    Abort,
    /// The byte is executed, and what was begun goes on.
    Execute,
    /// The byte is kept as an intermediate.
    Collect,
    /// The byte is of a header's numbers.
    Param,
    /// The byte ends an escape sequence, or a header.
    Dispatch,
    /// The byte is of a string's data.
    Put,
    /// The byte ends a string.
    End,
}

/// What a byte of each class does in each state, and the state after it: a row for each state and an entry for each
/// class, in their order. The byte that ends an escape or a device control string's header may begin something else
/// instead. Ground text isn't read by classes, and ESC does the same in each state but for what it ends.
static STEPS: [[(Action, State); 13]; 7] = [
    // Ground
    [(Ignore, Ground); 13],
    // Escape
    [
        (Execute, Esc), // Control
        (Execute, Esc), // Bell
        (Abort, Ground), // Cancel
        (Ignore, Esc), // Escape
        (Collect, Esc), // Intermediate
        (Dispatch, Ground), // Digit
        (Dispatch, Ground), // Colon
        (Dispatch, Ground), // Semicolon
        (Dispatch, Ground), // Private
        (Dispatch, Ground), // Final
        (Ignore, Esc), // Delete
        (Ignore, Esc), // StringEnd
        (Ignore, Esc), // High
    ],
    // Csi
    [
        (Execute, Csi),
        (Execute, Csi),
        (Abort, Ground),
        (Ignore, Csi),
        (Collect, Csi),
        (Param, Csi),
        (Param, Csi),
        (Param, Csi),
        (Collect, Csi),
        (Dispatch, Ground),
        (Ignore, Csi),
        (Ignore, Csi),
        (Ignore, Csi),
    ],
    // OscString
    [
        (Ignore, OscString),
        (End, Ground),
        (Abort, Ground),
        (Ignore, OscString),
        (Put, OscString),
        (Put, OscString),
        (Put, OscString),
        (Put, OscString),
        (Put, OscString),
        (Put, OscString),
        (Put, OscString),
        (Put, OscString),
        (Put, OscString),
    ],
    // DcsHeader
    [
        (Ignore, DcsHeader),
        (Ignore, DcsHeader),
        (Abort, Ground),
        (Ignore, DcsHeader),
        (Collect, DcsHeader),
        (Param, DcsHeader),
        (Param, DcsHeader),
        (Param, DcsHeader),
        (Collect, DcsHeader),
        (Dispatch, DcsPassthrough),
        (Ignore, DcsHeader),
        (Ignore, DcsHeader),
        (Ignore, DcsHeader),
    ],
    // DcsPassthrough
    [
        (Put, DcsPassthrough),
        (Put, DcsPassthrough),
        (Abort, Ground),
        (Ignore, DcsPassthrough),
        (Put, DcsPassthrough),
        (Put, DcsPassthrough),
        (Put, DcsPassthrough),
        (Put, DcsPassthrough),
        (Put, DcsPassthrough),
        (Put, DcsPassthrough),
        (Ignore, DcsPassthrough),
        (End, Ground),
        (Ignore, DcsPassthrough),
    ],
    // SosPmApcString
    [
        (Ignore, SosPmApcString),
        (Ignore, SosPmApcString),
        (Abort, Ground),
        (Ignore, SosPmApcString),
        (Ignore, SosPmApcString),
        (Ignore, SosPmApcString),
        (Ignore, SosPmApcString),
        (Ignore, SosPmApcString),
        (Ignore, SosPmApcString),
        (Ignore, SosPmApcString),
        (Ignore, SosPmApcString),
        (Ignore, SosPmApcString),
        (Ignore, SosPmApcString),
    ],
];

/// What a byte other than ESC does in a state, and the state after it.
#[inline(always)]
pub fn step_of(state: State, byte: u8) -> (Action, State)
    requires { byte ≢ 0x1B }
    ensures action { IsTrue (does state result.0 byte) }
    ensures next { result.1 ≡ next_state state result.0 }
{
    STEPS[state as usize][class_of(byte) as usize]
}

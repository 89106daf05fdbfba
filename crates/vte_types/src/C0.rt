//! The control characters of the set C0 (ECMA-48 5.2), and DEL.

/// Null.
pub const NUL: u8 = 0x00;

/// Start of heading.
pub const SOH: u8 = 0x01;

/// Start of text.
pub const STX: u8 = 0x02;

/// End of text.
pub const ETX: u8 = 0x03;

/// End of transmission.
pub const EOT: u8 = 0x04;

/// Enquiry.
pub const ENQ: u8 = 0x05;

/// Acknowledge.
pub const ACK: u8 = 0x06;

/// Bell.
pub const BEL: u8 = 0x07;

/// Backspace.
pub const BS: u8 = 0x08;

/// Horizontal tabulation.
pub const HT: u8 = 0x09;

/// Line feed.
pub const LF: u8 = 0x0A;

/// Vertical tabulation.
pub const VT: u8 = 0x0B;

/// Form feed.
pub const FF: u8 = 0x0C;

/// Carriage return.
pub const CR: u8 = 0x0D;

/// Shift out: character set G1.
pub const SO: u8 = 0x0E;

/// Shift in: character set G0.
pub const SI: u8 = 0x0F;

/// Data link escape.
pub const DLE: u8 = 0x10;

/// Device control 1: go on sending.
pub const XON: u8 = 0x11;

/// Device control 2.
pub const DC2: u8 = 0x12;

/// Device control 3: stop sending.
pub const XOFF: u8 = 0x13;

/// Device control 4.
pub const DC4: u8 = 0x14;

/// Negative acknowledge.
pub const NAK: u8 = 0x15;

/// Synchronous idle.
pub const SYN: u8 = 0x16;

/// End of transmission block.
pub const ETB: u8 = 0x17;

/// Cancel: ends a sequence.
pub const CAN: u8 = 0x18;

/// End of medium.
pub const EM: u8 = 0x19;

/// Substitute: ends a sequence.
pub const SUB: u8 = 0x1A;

/// Escape: begins a sequence.
pub const ESC: u8 = 0x1B;

/// File separator.
pub const FS: u8 = 0x1C;

/// Group separator.
pub const GS: u8 = 0x1D;

/// Record separator.
pub const RS: u8 = 0x1E;

/// Unit separator.
pub const US: u8 = 0x1F;

/// Delete.
pub const DEL: u8 = 0x7F;

/// The numbers of ECMA-48 5.2.
const _: () = prove!(
    NUL == 0
        && SOH == 1
        && STX == 2
        && ETX == 3
        && EOT == 4
        && ENQ == 5
        && ACK == 6
        && BEL == 7
        && BS == 8
        && HT == 9
        && LF == 10
        && VT == 11
        && FF == 12
        && CR == 13
        && SO == 14
        && SI == 15
        && DLE == 16
        && XON == 17
        && DC2 == 18
        && XOFF == 19
        && DC4 == 20
        && NAK == 21
        && SYN == 22
        && ETB == 23
        && CAN == 24
        && EM == 25
        && SUB == 26
        && ESC == 27
        && FS == 28
        && GS == 29
        && RS == 30
        && US == 31
        && DEL == 127
);

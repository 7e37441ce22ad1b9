// The zero page (docs/MACHINE.md, "Zero page").

/// The high half of EAX.
pub const SREG: u8 = 2;

pub const TMP1: u8 = 16;

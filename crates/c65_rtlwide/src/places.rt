// The zero page (docs/MACHINE.md, "Zero page").

/// The high half of EAX.
pub const SREG: u8 = 2;

pub const REGSAVE: u8 = 4;

pub const PTR1: u8 = 8;

pub const PTR2: u8 = 10;

pub const PTR3: u8 = 12;

pub const PTR4: u8 = 14;

pub const TMP1: u8 = 16;

pub const TMP2: u8 = 17;

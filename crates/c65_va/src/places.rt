// The zero page (docs/MACHINE.md, "Zero page").

/// The software stack's pointer.
pub const SP: u8 = 0;

pub const SREG: u8 = 2;

pub const REGSAVE: u8 = 4;

pub const PTR1: u8 = 8;

pub const PTR2: u8 = 10;

pub const PTR3: u8 = 12;

pub const PTR4: u8 = 14;

pub const TMP1: u8 = 16;

pub const TMP2: u8 = 17;

pub const TMP3: u8 = 18;

pub const TMP4: u8 = 19;

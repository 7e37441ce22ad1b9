// Bytes of the zero page (MACHINE.md, "Zero page").

pub const SP: u8 = 0;

pub const SREG: u8 = 2;

pub const PTR1: u8 = 8;

pub const PTR2: u8 = 10;

pub const TMP1: u8 = 16;

pub const TMP2: u8 = 17;

pub const TMP3: u8 = 18;

pub const TMP4: u8 = 19;

pub const REGBANK: u8 = 20;

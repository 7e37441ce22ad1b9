// The zero page (docs/MACHINE.md, "Zero page").

pub const SP: u8 = 0;
/// The high half of EAX.
pub const SREG: u8 = 2;

pub const PTR1: u8 = 8;

pub const PTR3: u8 = 12;

pub const TMP1: u8 = 16;

pub const TMP2: u8 = 17;
/// The register variables.
pub const REGBANK: u8 = 20;

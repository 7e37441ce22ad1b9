// The registers as one value.

/// The registers and flags. In `p` the flags stand at these bits: N 7, V 6, D 3, I 2, Z 1, C 0.
#[derive(Clone, Copy, Debug, PartialEq, Eq)]
pub struct Regs {
    /// The accumulator.
    pub a: u8,
    /// The index register X.
    pub x: u8,
    /// The index register Y.
    pub y: u8,
    /// The stack pointer, in page 1.
    pub s: u8,
    /// The flags.
    pub p: u8,
    /// The program counter.
    pub pc: u16,
}

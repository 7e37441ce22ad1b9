// A line of code: a label, an instruction, or a call.
use crate::parts::RegSet;
use crate::routine::Routine;
use c65_mach::{Mode, Op};

/// The number of a symbol.
#[derive(Clone, Copy, Debug, PartialEq, Eq, Hash)]
pub struct Sym(pub u32);

/// What an instruction works on.
#[derive(Clone, Copy, Debug, PartialEq, Eq)]
pub enum Operand {
    /// Nothing, or the accumulator.
    Nothing,
    /// The byte itself.
    Byte(u8),
    /// The low byte of the address so far behind a symbol.
    Low(Sym, u16),
    /// The high byte of that address.
    High(Sym, u16),
    /// A byte of the zero page.
    Zero(u8),
    /// The address so far behind a symbol.
    At(Sym, u16),
    /// A label of the same function.
    To(u32),
}

/// What is called.
#[derive(Clone, Copy, Debug, PartialEq, Eq)]
pub enum Callee {
    /// A routine of the runtime.
    Routine(Routine),
    /// A function, with what it reads and what it gives.
    Function(Sym, RegSet, RegSet),
    /// The function whose address is in ptr4, with what it reads and what it gives.
    Pointer(RegSet, RegSet),
}

/// A line of a function.
#[derive(Clone, Copy, Debug, PartialEq, Eq)]
pub enum Line {
    /// The place of a label.
    Label(u32),
    /// An instruction.
    Do(Op, Mode, Operand),
    /// A call.
    Call(Callee),
}

/// The label 0, which fills the places of a list that no line has yet.
impl Default for Line {
    fn default() -> Line {
        Line::Label(0)
    }
}

// Loads, stores and transfers of A, X and Y.
ghost use Rattle.std.specs.Prelude.{◌≡◌};
ghost use Rattle.c65_pass.specs.Registers.{part_of, value_of, loaded_by, stored_by, load_op, transfer_by, is_same_register};

use c65_code::Part;
use c65_know::Note;
use c65_mach::Op;

/// A register of a byte.
#[derive(Clone, Copy, Debug, PartialEq, Eq)]
pub enum Register {
    A,
    X,
    Y,
}

/// A copy of a register to another.
#[derive(Clone, Copy, Debug, PartialEq, Eq)]
pub struct Transfer {
    pub from: Register,
    pub to: Register,
}

impl Register {
    /// Whether it is this register.
    pub fn is(self, other: Register) -> bool
        ensures { result ≡ is_same_register self other }
    {
        match (self, other) {
            (Register::A, Register::A) | (Register::X, Register::X) | (Register::Y, Register::Y) =>
                { true }
            _ => false,
        }
    }

    pub fn part(self) -> Part
        ensures { result ≡ part_of self }
    {
        match self {
            Register::A => Part::A,
            Register::X => Part::X,
            Register::Y => Part::Y,
        }
    }

    /// What a note says of the register.
    pub fn value(self, note: &Note) -> Option<u8>
        ensures { result ≡ value_of note.now self }
    {
        match self {
            Register::A => note.a,
            Register::X => note.x,
            Register::Y => note.y,
        }
    }

    /// The operation that loads the register.
    pub fn load(self) -> Op
        ensures { result ≡ load_op self }
    {
        match self {
            Register::A => Op::Lda,
            Register::X => Op::Ldx,
            Register::Y => Op::Ldy,
        }
    }
}

/// The register that an operation loads.
pub fn loaded_by(op: Op) -> Option<Register>
    ensures { result ≡ loaded_by op }
{
    match op {
        Op::Lda => Some(Register::A),
        Op::Ldx => Some(Register::X),
        Op::Ldy => Some(Register::Y),
        _ => None,
    }
}

/// The register that an operation stores.
pub fn stored_by(op: Op) -> Option<Register>
    ensures { result ≡ stored_by op }
{
    match op {
        Op::Sta => Some(Register::A),
        Op::Stx => Some(Register::X),
        Op::Sty => Some(Register::Y),
        _ => None,
    }
}

/// Which register an operation copies, and to which.
pub fn transfer_by(op: Op) -> Option<Transfer>
    ensures { result ≡ transfer_by op }
{
    let (from, to) = match op {
        Op::Tax => (Register::A, Register::X),
        Op::Tay => (Register::A, Register::Y),
        Op::Txa => (Register::X, Register::A),
        Op::Tya => (Register::Y, Register::A),
        _ => return None,
    };
    Some(Transfer { from, to })
}

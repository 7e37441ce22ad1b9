// The registers and flags on which operations work (MCS6500 Programming Manual, chapters 2, 3 and 10).
ghost use Rattle.std.specs.Prelude.{◌≡◌, ◌≤◌, false};
ghost use Rattle.c65_mach.specs.Step.{kind_of, Changes, bit, signed, with_a, with_x, with_y, compared, summed, bits_tested, apply, stored, changed};
ghost use Rattle.c65_know.specs.Rows.{regs_of, seen, worked};

use crate::note::Note;
use c65_mach::{Mode, Op};

/// The registers and flags, each with a value.
#[derive(Clone, Copy)]
pub(crate) struct RegisterFile {
    pub a: u8,
    pub x: u8,
    pub y: u8,
    pub n: bool,
    pub v: bool,
    pub z: bool,
    pub c: bool,
}

fn bit(flag: bool) -> u8
    ensures value { result ≡ bit flag }
    ensures small { result ≤ 1 }
{
    if flag { 1 } else { 0 }
}

impl RegisterFile {
    /// What a note knows, and zero for the rest.
    pub fn of(note: &Note) -> RegisterFile
        ensures { seen result ≡ regs_of note.now }
    {
        RegisterFile {
            a: note.a.unwrap_or(0),
            x: note.x.unwrap_or(0),
            y: note.y.unwrap_or(0),
            n: note.n.unwrap_or(false),
            v: note.v.unwrap_or(false),
            z: note.z.unwrap_or(false),
            c: note.c.unwrap_or(false),
        }
    }

    // A result sets N and Z.
    fn signed(self, value: u8) -> RegisterFile
        ensures { seen result ≡ signed value (seen self) }
    {
        RegisterFile {
            n: value > 127,
            z: value == 0,
            ..self
        }
    }

    fn with_a(self, value: u8) -> RegisterFile
        ensures { seen result ≡ with_a value (seen self) }
    {
        RegisterFile {
            a: value,
            ..self.signed(value)
        }
    }

    fn with_x(self, value: u8) -> RegisterFile
        ensures { seen result ≡ with_x value (seen self) }
    {
        RegisterFile {
            x: value,
            ..self.signed(value)
        }
    }

    fn with_y(self, value: u8) -> RegisterFile
        ensures { seen result ≡ with_y value (seen self) }
    {
        RegisterFile {
            y: value,
            ..self.signed(value)
        }
    }

    // C says that the register is not below the operand.
    fn compared(self, register: u8, value: u8) -> RegisterFile
        ensures { seen result ≡ compared register value (seen self) }
    {
        let difference = register.wrapping_sub(value);
        RegisterFile {
            c: register >= value,
            ..self.signed(difference)
        }
    }

    // The sum with the carry. V says that the addends have one sign and the sum the other.
    fn summed(self, value: u8) -> RegisterFile
        ensures { seen result ≡ summed value (seen self) }
    {
        let sum = u16::from(self.a) + u16::from(value) + u16::from(bit(self.c));
        let low = (sum % 256) as u8;
        RegisterFile {
            a: low,
            n: low > 127,
            v: (self.a ^ low) & (value ^ low) > 127,
            z: low == 0,
            c: sum > 255,
            ..self
        }
    }

    fn bits_tested(self, value: u8) -> RegisterFile
        ensures { seen result ≡ bits_tested value (seen self) }
    {
        RegisterFile {
            n: value > 127,
            v: value / 64 % 2 == 1,
            z: self.a & value == 0,
            ..self
        }
    }

    // An operation on the registers, with D clear.
    fn applied(self, op: Op, value: u8) -> RegisterFile
        ensures { seen result ≡ apply false op value (seen self) }
    {
        match op {
            Op::Adc => self.summed(value),
            Op::And => self.with_a(self.a & value),
            Op::Bit => self.bits_tested(value),
            Op::Cmp => self.compared(self.a, value),
            Op::Cpx => self.compared(self.x, value),
            Op::Cpy => self.compared(self.y, value),
            Op::Eor => self.with_a(self.a ^ value),
            Op::Lda => self.with_a(value),
            Op::Ldx => self.with_x(value),
            Op::Ldy => self.with_y(value),
            Op::Ora => self.with_a(self.a | value),
            Op::Sbc => self.summed(255 - value),
            Op::Clc => RegisterFile { c: false, ..self },
            Op::Clv => RegisterFile { v: false, ..self },
            Op::Dex => self.with_x(self.x.wrapping_sub(1)),
            Op::Dey => self.with_y(self.y.wrapping_sub(1)),
            Op::Inx => self.with_x(self.x.wrapping_add(1)),
            Op::Iny => self.with_y(self.y.wrapping_add(1)),
            Op::Sec => RegisterFile { c: true, ..self },
            Op::Tax => self.with_x(self.a),
            Op::Tay => self.with_y(self.a),
            Op::Txa => self.with_a(self.x),
            Op::Tya => self.with_a(self.y),
            _ => self,
        }
    }

    fn stored(self, op: Op) -> u8
        ensures { result ≡ stored op (seen self) }
    {
        match op {
            Op::Stx => self.x,
            Op::Sty => self.y,
            Op::Stz => 0,
            _ => self.a,
        }
    }

    // What the shifts, INC and DEC make of an operand, and the carry after it.
    fn changed(self, op: Op, value: u8) -> (u8, bool)
        ensures { result ≡ changed op value (seen self) }
    {
        match op {
            Op::Asl => (value.wrapping_mul(2), value > 127),
            Op::Rol => (value.wrapping_mul(2) + bit(self.c), value > 127),
            Op::Lsr => (value / 2, value % 2 == 1),
            Op::Ror => (value / 2 + 128 * bit(self.c), value % 2 == 1),
            Op::Inc => (value.wrapping_add(1), self.c),
            _ => (value.wrapping_sub(1), self.c),
        }
    }

    fn shifted(self, op: Op, mode: Mode, value: u8) -> (RegisterFile, u8)
        ensures registers { seen result.0 ≡ (worked Changes op mode value (seen self)).0 }
        ensures byte { result.1 ≡ (worked Changes op mode value (seen self)).1 }
    {
        let (byte, c) = self.changed(op, value);
        match mode {
            Mode::Accumulator => (
                RegisterFile {
                    c,
                    ..self.with_a(byte)
                },
                0,
            ),
            _ => (
                RegisterFile {
                    c,
                    ..self.signed(byte)
                },
                byte,
            ),
        }
    }

    /// The registers and flags after an operation, and the byte that it writes.
    pub fn worked(self, op: Op, mode: Mode, value: u8) -> (RegisterFile, u8)
        ensures registers { seen result.0 ≡ (worked (kind_of op) op mode value (seen self)).0 }
        ensures byte { result.1 ≡ (worked (kind_of op) op mode value (seen self)).1 }
    {
        match op {
            Op::Sta | Op::Stx | Op::Sty | Op::Stz => (self, self.stored(op)),
            Op::Asl | Op::Dec | Op::Inc | Op::Lsr | Op::Rol | Op::Ror => {
                self.shifted(op, mode, value)
            }
            _ => (self.applied(op, value), 0),
        }
    }
}

// One row of a run: where the operand is, and what the operation does (MCS6500 Programming Manual, chapters 4 to 9), with what
// the 65C02 adds.
ghost use Rattle.std.specs.Prelude.{◌≡◌, ◌+◌, ◌*◌, ◌/◌, ◌==◌, ◌-◌, ◌%◌, ◌≤◌, true, false, if◌then◌else◌};
ghost use Rattle.c65_mach.specs.State.{read};
ghost use Rattle.c65_mach.specs.Step.{after, zero_word, size_of, indexed, jump_next, branched, place_of, is_taken, more_cycles, change, branch, push, pulled, dropped, push_word, packed, flags_pulled, called, broken, marked, read_by, act, row_at, Steps};

use super::{Machine, bit};
use crate::rows::{Mode, Op};
use c65_base::{Cpu, Refusal};

impl Machine {
    // A word of the zero page, which stays in that page.
    #[inline(always)]
    fn zero_word(&self, at: u8) -> u16
        ensures { result ≡ zero_word self.now.mem at }
    {
        u16::from_le_bytes([
            self.read(u16::from(at)),
            self.read(u16::from(at.wrapping_add(1))),
        ])
    }

    // A shift, INC or DEC of A or of a byte of memory.
    #[inline(always)]
    fn change(&mut self, op: Op, mode: Mode, at: u16)
        ensures { self.new ≡ change op mode at self.old }
    {
        if let Mode::Accumulator = mode {
            let (value, carry) = self.changed(op, self.a);
            self.set_a(value);
            self.c = carry;
        } else {
            let (value, carry) = self.changed(op, self.read(at));
            self.write(at, value);
            self.n = value > 127;
            self.z = value == 0;
            self.c = carry;
        }
    }

    // Whether a branch is taken.
    #[inline(always)]
    fn is_taken(&self, op: Op) -> bool
        ensures { result ≡ is_taken op self.now.regs }
    {
        match op {
            Op::Bcc => !self.c,
            Op::Bcs => self.c,
            Op::Beq => self.z,
            Op::Bmi => self.n,
            Op::Bne => !self.z,
            Op::Bpl => !self.n,
            Op::Bra => true,
            Op::Bvc => !self.v,
            _ => self.v,
        }
    }

    // The cycles of a row beyond those of the table.
    #[inline(always)]
    pub(super) fn more_cycles(&self, mode: Mode, op: Op, page: bool, crosses: bool) -> u8
        ensures value { result ≡ more_cycles mode op page crosses self.now.regs }
        ensures small { result ≤ 2 }
    {
        match mode {
            Mode::Relative => match op {
                Op::Bra => bit(crosses),
                _ if self.is_taken(op) => 1 + bit(crosses),
                _ => 0,
            },
            _ => bit(page && crosses),
        }
    }

    // A branch goes to its target if it is taken.
    #[inline(always)]
    fn branch(&mut self, taken: bool, at: u16)
        ensures { self.new ≡ branch taken at self.old }
    {
        if taken {
            self.pc = at;
        }
    }

    // A push writes and then lowers S, modulo 256.
    #[inline(always)]
    fn push(&mut self, value: u8)
        ensures { self.new ≡ push value self.old }
    {
        self.write(256 + u16::from(self.s), value);
        self.s = self.s.wrapping_sub(1);
    }

    // A word goes to the stack high byte first.
    #[inline(always)]
    fn push_word(&mut self, value: u16)
        ensures { self.new ≡ push_word value self.old }
    {
        let [low, high] = value.to_le_bytes();
        self.push(high);
        self.push(low);
    }

    // A pull raises S, modulo 256, and then reads.
    #[inline(always)]
    fn pull(&mut self) -> u8
        ensures value { result ≡ pulled self.old }
        ensures new { self.new ≡ dropped self.old }
    {
        self.s = self.s.wrapping_add(1);
        self.read(256 + u16::from(self.s))
    }

    // The flags as PHP and BRK push them, with bits 4 and 5 set.
    #[inline(always)]
    fn pack(&self) -> u8
        ensures { result ≡ packed self.now }
    {
        self.flags() + 48
    }

    // BRK pushes the address of the byte behind its second one, and the flags.
    #[inline(always)]
    fn break_off(&mut self)
        ensures { self.new ≡ broken self.old }
    {
        let to = self.word(65534);
        let flags = self.pack();
        self.push_word(self.pc.wrapping_add(1));
        self.push(flags);
        self.i = true;
        self.pc = to;
    }

    // The operand's address, and whether it lies in another page than the base, or than the next instruction.
    #[inline(always)]
    pub(super) fn place(&self, mode: Mode) -> (u16, bool)
        ensures { result ≡ place_of mode self.now }
    {
        let at = self.pc.wrapping_add(1);
        match mode {
            Mode::Implied | Mode::Accumulator => (0, false),
            Mode::Immediate => (at, false),
            Mode::ZeroPage => (u16::from(self.read(at)), false),
            Mode::ZeroPageX => (u16::from(self.read(at).wrapping_add(self.x)), false),
            Mode::ZeroPageY => (u16::from(self.read(at).wrapping_add(self.y)), false),
            Mode::Absolute => (self.word(at), false),
            Mode::AbsoluteX => index(self.word(at), self.x),
            Mode::AbsoluteY => index(self.word(at), self.y),
            Mode::IndirectX => (self.zero_word(self.read(at).wrapping_add(self.x)), false),
            Mode::IndirectY => index(self.zero_word(self.read(at)), self.y),
            Mode::Indirect => (self.jump_word(self.word(at)), false),
            Mode::Relative => self.target(self.read(at)),
            Mode::ZeroPageIndirect => (self.zero_word(self.read(at)), false),
            Mode::AbsoluteIndirectX => {
                let pointer = self.word(at).wrapping_add(u16::from(self.x));
                (self.word(pointer), false)
            }
        }
    }

    // The word of an indirect jump: on the 6502 its high byte comes from the same page.
    #[inline(always)]
    fn jump_word(&self, at: u16) -> u16
        ensures { result ≡ read self.now.mem at + 256 * read self.now.mem (jump_next self.now.cpu at) }
    {
        let next = match self.cpu {
            Cpu::Nmos if at % 256 == 255 => at - 255,
            Cpu::Nmos | Cpu::Cmos => at.wrapping_add(1),
        };
        u16::from_le_bytes([self.read(at), self.read(next)])
    }

    // Where a branch leads.
    #[inline(always)]
    fn target(&self, offset: u8) -> (u16, bool)
        ensures { result ≡ (let next = after self.now.pc 2 in let to = branched next offset in (to, if next / 256 == to / 256 then false else true)) }
    {
        let next = self.pc.wrapping_add(2);
        let distance = if offset < 128 {
            u16::from(offset)
        } else {
            65280 + u16::from(offset)
        };
        let to = next.wrapping_add(distance);
        (to, next / 256 != to / 256)
    }

    // JSR pushes the address of its own last byte.
    #[inline(always)]
    fn call(&mut self, at: u16)
        ensures { self.new ≡ called at self.old }
    {
        self.push_word(self.pc.wrapping_sub(1));
        self.pc = at;
    }

    // PLP, and the first half of RTI.
    #[inline(always)]
    fn pull_flags(&mut self)
        ensures { self.new ≡ flags_pulled self.old }
    {
        let flags = self.pull();
        self.unpack(flags);
    }

    // BIT: a number as operand sets Z alone.
    #[inline(always)]
    fn test(&mut self, mode: Mode, value: u8)
        ensures { self.new ≡ record self.old { regs = read_by Op.Bit mode self.old.d value self.old.regs } }
    {
        if let Mode::Immediate = mode {
            self.z = self.a & value == 0;
        } else {
            self.test_bits(value);
        }
    }

    // TSB and TRB: Z tells whether A and the byte share no bit, and the byte is changed.
    #[inline(always)]
    fn mark(&mut self, at: u16, to: u8)
        ensures { self.new ≡ marked at to self.old }
    {
        self.z = self.a & self.read(at) == 0;
        self.write(at, to);
    }

    // What an operation does, once pc is at the next instruction.
    #[inline(always)]
    pub(super) fn operate(&mut self, op: Op, mode: Mode, at: u16)
        ensures { self.new ≡ act op mode at self.old }
    {
        match op {
            Op::Adc => self.add(self.read(at)),
            Op::And => self.set_a(self.a & self.read(at)),
            Op::Asl => self.change(Op::Asl, mode, at),
            Op::Bcc => self.branch(!self.c, at),
            Op::Bcs => self.branch(self.c, at),
            Op::Beq => self.branch(self.z, at),
            Op::Bit => self.test(mode, self.read(at)),
            Op::Bmi => self.branch(self.n, at),
            Op::Bne => self.branch(!self.z, at),
            Op::Bpl => self.branch(!self.n, at),
            Op::Bra => self.branch(true, at),
            Op::Brk => self.break_off(),
            Op::Bvc => self.branch(!self.v, at),
            Op::Bvs => self.branch(self.v, at),
            Op::Clc => self.c = false,
            Op::Cld => self.d = false,
            Op::Cli => self.i = false,
            Op::Clv => self.v = false,
            Op::Cmp => self.compare(self.a, self.read(at)),
            Op::Cpx => self.compare(self.x, self.read(at)),
            Op::Cpy => self.compare(self.y, self.read(at)),
            Op::Dec => self.change(Op::Dec, mode, at),
            Op::Dex => self.set_x(self.x.wrapping_sub(1)),
            Op::Dey => self.set_y(self.y.wrapping_sub(1)),
            Op::Eor => self.set_a(self.a ^ self.read(at)),
            Op::Inc => self.change(Op::Inc, mode, at),
            Op::Inx => self.set_x(self.x.wrapping_add(1)),
            Op::Iny => self.set_y(self.y.wrapping_add(1)),
            Op::Jmp => self.pc = at,
            Op::Jsr => self.call(at),
            Op::Lda => self.set_a(self.read(at)),
            Op::Ldx => self.set_x(self.read(at)),
            Op::Ldy => self.set_y(self.read(at)),
            Op::Lsr => self.change(Op::Lsr, mode, at),
            Op::Nop => {},
            Op::Ora => self.set_a(self.a | self.read(at)),
            Op::Pha => self.push(self.a),
            Op::Php => self.push(self.pack()),
            Op::Phx => self.push(self.x),
            Op::Phy => self.push(self.y),
            Op::Pla => {
                let value = self.pull();
                self.set_a(value);
            }
            Op::Plp => self.pull_flags(),
            Op::Plx => {
                let value = self.pull();
                self.set_x(value);
            }
            Op::Ply => {
                let value = self.pull();
                self.set_y(value);
            }
            Op::Rol => self.change(Op::Rol, mode, at),
            Op::Ror => self.change(Op::Ror, mode, at),
            Op::Rti => {
                self.pull_flags();
                self.return_to(0);
            }
            Op::Rts => self.return_to(1),
            Op::Sbc => self.subtract(self.read(at)),
            Op::Sec => self.c = true,
            Op::Sed => self.d = true,
            Op::Sei => self.i = true,
            Op::Sta => self.write(at, self.a),
            Op::Stx => self.write(at, self.x),
            Op::Sty => self.write(at, self.y),
            Op::Stz => self.write(at, 0),
            Op::Tax => self.set_x(self.a),
            Op::Tay => self.set_y(self.a),
            Op::Trb => self.mark(at, self.read(at) & (255 - self.a)),
            Op::Tsb => self.mark(at, self.read(at) | self.a),
            Op::Tsx => self.set_x(self.s),
            Op::Txa => self.set_a(self.x),
            Op::Txs => self.s = self.x,
            Op::Tya => self.set_a(self.y),
        }
    }
}

// An indexed address, and whether it lies in another page than its base.
#[inline(always)]
fn index(base: u16, index: u8) -> (u16, bool)
    ensures { result ≡ indexed base index }
{
    (
        base.wrapping_add(u16::from(index)),
        base % 256 + u16::from(index) > 255,
    )
}

/// Does the row at pc, and answers its cycles. It refuses a byte that has no row, and then the machine is unchanged.
#[inline(always)]
pub fn step(machine: &mut Machine) -> Result<u8, Refusal>
    ensures { Steps (row_at machine.old) machine.old machine.new result }
{
    let pc = machine.pc;
    match machine.advance() {
        Some(cycles) => Ok(cycles),
        None => Err(Refusal::Illegal { pc }),
    }
}

// The bytes of an instruction.
#[inline(always)]
pub(super) fn size(mode: Mode) -> u16
    ensures { result ≡ size_of mode }
{
    match mode {
        Mode::Implied | Mode::Accumulator => 1,
        Mode::Absolute
        | Mode::AbsoluteX
        | Mode::AbsoluteY
        | Mode::Indirect
        | Mode::AbsoluteIndirectX => 3,
        _ => 2,
    }
}

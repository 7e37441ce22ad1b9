// The row at pc, by its opcode. Each opcode calls what does its row, with operation and mode as constants, and those calls are inlined:
// so the compiled code goes from an opcode right to what it does. The tables of `decode` and `decode_for` stand here once more, as code.
// All are proved from the tables of specs/.
ghost use Rattle.std.specs.Prelude.{◌≡◌, ◌+◌, ◌<◌, true, false, Some};
ghost use Rattle.c65_mach.specs.Advance.{Advances, added};
ghost use Rattle.c65_mach.specs.Step.{row_at};
ghost use Rattle.c65_mach.specs.Table.{row_for};

use super::Machine;
use super::row::size;
use crate::rows::{Mode, Op};
use c65_base::Cpu;

impl Machine {
    // Does a row of the table, and answers its cycles.
    #[inline(always)]
    fn perform(&mut self, op: Op, mode: Mode, cycles: u8, page: bool) -> Option<u8>
        requires { cycles < 8 }
        ensures { Advances (Some (record { op = op; mode = mode; cycles = cycles; page = page })) self.old self.new result }
    {
        let pc = self.pc;
        let (at, crosses) = self.place(mode);
        let more = self.more_cycles(mode, op, page, crosses);
        self.pc = pc.wrapping_add(size(mode));
        self.operate(op, mode, at);
        Some(cycles + more)
    }

    // A row that takes no more cycles in another page.
    #[inline(always)]
    fn plain(&mut self, op: Op, mode: Mode, cycles: u8) -> Option<u8>
        requires { cycles < 8 }
        ensures { Advances (Some (record { op = op; mode = mode; cycles = cycles; page = false })) self.old self.new result }
    {
        self.perform(op, mode, cycles, false)
    }

    // A row that takes one more cycle in another page.
    #[inline(always)]
    fn paged(&mut self, op: Op, mode: Mode, cycles: u8) -> Option<u8>
        requires { cycles < 8 }
        ensures { Advances (Some (record { op = op; mode = mode; cycles = cycles; page = true })) self.old self.new result }
    {
        self.perform(op, mode, cycles, true)
    }

    // A row that the 65C02 adds.
    #[inline(always)]
    fn added(&mut self, op: Op, mode: Mode, cycles: u8) -> Option<u8>
        requires { cycles < 8 }
        ensures { Advances (added self.old.cpu (record { op = op; mode = mode; cycles = cycles; page = false })) self.old self.new result }
    {
        match self.cpu {
            Cpu::Nmos => None,
            Cpu::Cmos => self.plain(op, mode, cycles),
        }
    }

    // A row that the 65C02 adds, and that takes one more cycle in another page.
    #[inline(always)]
    fn added_paged(&mut self, op: Op, mode: Mode, cycles: u8) -> Option<u8>
        requires { cycles < 8 }
        ensures { Advances (added self.old.cpu (record { op = op; mode = mode; cycles = cycles; page = true })) self.old self.new result }
    {
        match self.cpu {
            Cpu::Nmos => None,
            Cpu::Cmos => self.paged(op, mode, cycles),
        }
    }

    // `JMP (abs)`, which takes one more cycle on the 65C02.
    #[inline(always)]
    fn jump_through(&mut self) -> Option<u8>
        ensures { Advances (row_for self.old.cpu 0x6C) self.old self.new result }
    {
        match self.cpu {
            Cpu::Nmos => self.plain(Op::Jmp, Mode::Indirect, 5),
            Cpu::Cmos => self.plain(Op::Jmp, Mode::Indirect, 6),
        }
    }

    // The opcodes by their high digit. A row of the 6502 is found before the processor is asked for.
    #[inline(always)]
    fn advance_0(&mut self, low: u8) -> Option<u8>
        requires { low < 16 }
        ensures { Advances (row_for self.old.cpu (0x00 + low)) self.old self.new result }
    {
        match low {
            0 => self.plain(Op::Brk, Mode::Implied, 7),
            1 => self.plain(Op::Ora, Mode::IndirectX, 6),
            2 => None,
            3 => None,
            4 => self.added(Op::Tsb, Mode::ZeroPage, 5),
            5 => self.plain(Op::Ora, Mode::ZeroPage, 3),
            6 => self.plain(Op::Asl, Mode::ZeroPage, 5),
            7 => None,
            8 => self.plain(Op::Php, Mode::Implied, 3),
            9 => self.plain(Op::Ora, Mode::Immediate, 2),
            10 => self.plain(Op::Asl, Mode::Accumulator, 2),
            11 => None,
            12 => self.added(Op::Tsb, Mode::Absolute, 6),
            13 => self.plain(Op::Ora, Mode::Absolute, 4),
            14 => self.plain(Op::Asl, Mode::Absolute, 6),
            _ => None,
        }
    }

    #[inline(always)]
    fn advance_1(&mut self, low: u8) -> Option<u8>
        requires { low < 16 }
        ensures { Advances (row_for self.old.cpu (0x10 + low)) self.old self.new result }
    {
        match low {
            0 => self.paged(Op::Bpl, Mode::Relative, 2),
            1 => self.paged(Op::Ora, Mode::IndirectY, 5),
            2 => self.added(Op::Ora, Mode::ZeroPageIndirect, 5),
            3 => None,
            4 => self.added(Op::Trb, Mode::ZeroPage, 5),
            5 => self.plain(Op::Ora, Mode::ZeroPageX, 4),
            6 => self.plain(Op::Asl, Mode::ZeroPageX, 6),
            7 => None,
            8 => self.plain(Op::Clc, Mode::Implied, 2),
            9 => self.paged(Op::Ora, Mode::AbsoluteY, 4),
            10 => self.added(Op::Inc, Mode::Accumulator, 2),
            11 => None,
            12 => self.added(Op::Trb, Mode::Absolute, 6),
            13 => self.paged(Op::Ora, Mode::AbsoluteX, 4),
            14 => self.plain(Op::Asl, Mode::AbsoluteX, 7),
            _ => None,
        }
    }

    #[inline(always)]
    fn advance_2(&mut self, low: u8) -> Option<u8>
        requires { low < 16 }
        ensures { Advances (row_for self.old.cpu (0x20 + low)) self.old self.new result }
    {
        match low {
            0 => self.plain(Op::Jsr, Mode::Absolute, 6),
            1 => self.plain(Op::And, Mode::IndirectX, 6),
            2 => None,
            3 => None,
            4 => self.plain(Op::Bit, Mode::ZeroPage, 3),
            5 => self.plain(Op::And, Mode::ZeroPage, 3),
            6 => self.plain(Op::Rol, Mode::ZeroPage, 5),
            7 => None,
            8 => self.plain(Op::Plp, Mode::Implied, 4),
            9 => self.plain(Op::And, Mode::Immediate, 2),
            10 => self.plain(Op::Rol, Mode::Accumulator, 2),
            11 => None,
            12 => self.plain(Op::Bit, Mode::Absolute, 4),
            13 => self.plain(Op::And, Mode::Absolute, 4),
            14 => self.plain(Op::Rol, Mode::Absolute, 6),
            _ => None,
        }
    }

    #[inline(always)]
    fn advance_3(&mut self, low: u8) -> Option<u8>
        requires { low < 16 }
        ensures { Advances (row_for self.old.cpu (0x30 + low)) self.old self.new result }
    {
        match low {
            0 => self.paged(Op::Bmi, Mode::Relative, 2),
            1 => self.paged(Op::And, Mode::IndirectY, 5),
            2 => self.added(Op::And, Mode::ZeroPageIndirect, 5),
            3 => None,
            4 => self.added(Op::Bit, Mode::ZeroPageX, 4),
            5 => self.plain(Op::And, Mode::ZeroPageX, 4),
            6 => self.plain(Op::Rol, Mode::ZeroPageX, 6),
            7 => None,
            8 => self.plain(Op::Sec, Mode::Implied, 2),
            9 => self.paged(Op::And, Mode::AbsoluteY, 4),
            10 => self.added(Op::Dec, Mode::Accumulator, 2),
            11 => None,
            12 => self.added_paged(Op::Bit, Mode::AbsoluteX, 4),
            13 => self.paged(Op::And, Mode::AbsoluteX, 4),
            14 => self.plain(Op::Rol, Mode::AbsoluteX, 7),
            _ => None,
        }
    }

    #[inline(always)]
    fn advance_4(&mut self, low: u8) -> Option<u8>
        requires { low < 16 }
        ensures { Advances (row_for self.old.cpu (0x40 + low)) self.old self.new result }
    {
        match low {
            0 => self.plain(Op::Rti, Mode::Implied, 6),
            1 => self.plain(Op::Eor, Mode::IndirectX, 6),
            2 => None,
            3 => None,
            4 => None,
            5 => self.plain(Op::Eor, Mode::ZeroPage, 3),
            6 => self.plain(Op::Lsr, Mode::ZeroPage, 5),
            7 => None,
            8 => self.plain(Op::Pha, Mode::Implied, 3),
            9 => self.plain(Op::Eor, Mode::Immediate, 2),
            10 => self.plain(Op::Lsr, Mode::Accumulator, 2),
            11 => None,
            12 => self.plain(Op::Jmp, Mode::Absolute, 3),
            13 => self.plain(Op::Eor, Mode::Absolute, 4),
            14 => self.plain(Op::Lsr, Mode::Absolute, 6),
            _ => None,
        }
    }

    #[inline(always)]
    fn advance_5(&mut self, low: u8) -> Option<u8>
        requires { low < 16 }
        ensures { Advances (row_for self.old.cpu (0x50 + low)) self.old self.new result }
    {
        match low {
            0 => self.paged(Op::Bvc, Mode::Relative, 2),
            1 => self.paged(Op::Eor, Mode::IndirectY, 5),
            2 => self.added(Op::Eor, Mode::ZeroPageIndirect, 5),
            3 => None,
            4 => None,
            5 => self.plain(Op::Eor, Mode::ZeroPageX, 4),
            6 => self.plain(Op::Lsr, Mode::ZeroPageX, 6),
            7 => None,
            8 => self.plain(Op::Cli, Mode::Implied, 2),
            9 => self.paged(Op::Eor, Mode::AbsoluteY, 4),
            10 => self.added(Op::Phy, Mode::Implied, 3),
            11 => None,
            12 => None,
            13 => self.paged(Op::Eor, Mode::AbsoluteX, 4),
            14 => self.plain(Op::Lsr, Mode::AbsoluteX, 7),
            _ => None,
        }
    }

    #[inline(always)]
    fn advance_6(&mut self, low: u8) -> Option<u8>
        requires { low < 16 }
        ensures { Advances (row_for self.old.cpu (0x60 + low)) self.old self.new result }
    {
        match low {
            0 => self.plain(Op::Rts, Mode::Implied, 6),
            1 => self.plain(Op::Adc, Mode::IndirectX, 6),
            2 => None,
            3 => None,
            4 => self.added(Op::Stz, Mode::ZeroPage, 3),
            5 => self.plain(Op::Adc, Mode::ZeroPage, 3),
            6 => self.plain(Op::Ror, Mode::ZeroPage, 5),
            7 => None,
            8 => self.plain(Op::Pla, Mode::Implied, 4),
            9 => self.plain(Op::Adc, Mode::Immediate, 2),
            10 => self.plain(Op::Ror, Mode::Accumulator, 2),
            11 => None,
            12 => self.jump_through(),
            13 => self.plain(Op::Adc, Mode::Absolute, 4),
            14 => self.plain(Op::Ror, Mode::Absolute, 6),
            _ => None,
        }
    }

    #[inline(always)]
    fn advance_7(&mut self, low: u8) -> Option<u8>
        requires { low < 16 }
        ensures { Advances (row_for self.old.cpu (0x70 + low)) self.old self.new result }
    {
        match low {
            0 => self.paged(Op::Bvs, Mode::Relative, 2),
            1 => self.paged(Op::Adc, Mode::IndirectY, 5),
            2 => self.added(Op::Adc, Mode::ZeroPageIndirect, 5),
            3 => None,
            4 => self.added(Op::Stz, Mode::ZeroPageX, 4),
            5 => self.plain(Op::Adc, Mode::ZeroPageX, 4),
            6 => self.plain(Op::Ror, Mode::ZeroPageX, 6),
            7 => None,
            8 => self.plain(Op::Sei, Mode::Implied, 2),
            9 => self.paged(Op::Adc, Mode::AbsoluteY, 4),
            10 => self.added(Op::Ply, Mode::Implied, 4),
            11 => None,
            12 => self.added(Op::Jmp, Mode::AbsoluteIndirectX, 6),
            13 => self.paged(Op::Adc, Mode::AbsoluteX, 4),
            14 => self.plain(Op::Ror, Mode::AbsoluteX, 7),
            _ => None,
        }
    }

    #[inline(always)]
    fn advance_8(&mut self, low: u8) -> Option<u8>
        requires { low < 16 }
        ensures { Advances (row_for self.old.cpu (0x80 + low)) self.old self.new result }
    {
        match low {
            0 => self.added_paged(Op::Bra, Mode::Relative, 3),
            1 => self.plain(Op::Sta, Mode::IndirectX, 6),
            2 => None,
            3 => None,
            4 => self.plain(Op::Sty, Mode::ZeroPage, 3),
            5 => self.plain(Op::Sta, Mode::ZeroPage, 3),
            6 => self.plain(Op::Stx, Mode::ZeroPage, 3),
            7 => None,
            8 => self.plain(Op::Dey, Mode::Implied, 2),
            9 => self.added(Op::Bit, Mode::Immediate, 2),
            10 => self.plain(Op::Txa, Mode::Implied, 2),
            11 => None,
            12 => self.plain(Op::Sty, Mode::Absolute, 4),
            13 => self.plain(Op::Sta, Mode::Absolute, 4),
            14 => self.plain(Op::Stx, Mode::Absolute, 4),
            _ => None,
        }
    }

    #[inline(always)]
    fn advance_9(&mut self, low: u8) -> Option<u8>
        requires { low < 16 }
        ensures { Advances (row_for self.old.cpu (0x90 + low)) self.old self.new result }
    {
        match low {
            0 => self.paged(Op::Bcc, Mode::Relative, 2),
            1 => self.plain(Op::Sta, Mode::IndirectY, 6),
            2 => self.added(Op::Sta, Mode::ZeroPageIndirect, 5),
            3 => None,
            4 => self.plain(Op::Sty, Mode::ZeroPageX, 4),
            5 => self.plain(Op::Sta, Mode::ZeroPageX, 4),
            6 => self.plain(Op::Stx, Mode::ZeroPageY, 4),
            7 => None,
            8 => self.plain(Op::Tya, Mode::Implied, 2),
            9 => self.plain(Op::Sta, Mode::AbsoluteY, 5),
            10 => self.plain(Op::Txs, Mode::Implied, 2),
            11 => None,
            12 => self.added(Op::Stz, Mode::Absolute, 4),
            13 => self.plain(Op::Sta, Mode::AbsoluteX, 5),
            14 => self.added(Op::Stz, Mode::AbsoluteX, 5),
            _ => None,
        }
    }

    #[inline(always)]
    fn advance_a(&mut self, low: u8) -> Option<u8>
        requires { low < 16 }
        ensures { Advances (row_for self.old.cpu (0xA0 + low)) self.old self.new result }
    {
        match low {
            0 => self.plain(Op::Ldy, Mode::Immediate, 2),
            1 => self.plain(Op::Lda, Mode::IndirectX, 6),
            2 => self.plain(Op::Ldx, Mode::Immediate, 2),
            3 => None,
            4 => self.plain(Op::Ldy, Mode::ZeroPage, 3),
            5 => self.plain(Op::Lda, Mode::ZeroPage, 3),
            6 => self.plain(Op::Ldx, Mode::ZeroPage, 3),
            7 => None,
            8 => self.plain(Op::Tay, Mode::Implied, 2),
            9 => self.plain(Op::Lda, Mode::Immediate, 2),
            10 => self.plain(Op::Tax, Mode::Implied, 2),
            11 => None,
            12 => self.plain(Op::Ldy, Mode::Absolute, 4),
            13 => self.plain(Op::Lda, Mode::Absolute, 4),
            14 => self.plain(Op::Ldx, Mode::Absolute, 4),
            _ => None,
        }
    }

    #[inline(always)]
    fn advance_b(&mut self, low: u8) -> Option<u8>
        requires { low < 16 }
        ensures { Advances (row_for self.old.cpu (0xB0 + low)) self.old self.new result }
    {
        match low {
            0 => self.paged(Op::Bcs, Mode::Relative, 2),
            1 => self.paged(Op::Lda, Mode::IndirectY, 5),
            2 => self.added(Op::Lda, Mode::ZeroPageIndirect, 5),
            3 => None,
            4 => self.plain(Op::Ldy, Mode::ZeroPageX, 4),
            5 => self.plain(Op::Lda, Mode::ZeroPageX, 4),
            6 => self.plain(Op::Ldx, Mode::ZeroPageY, 4),
            7 => None,
            8 => self.plain(Op::Clv, Mode::Implied, 2),
            9 => self.paged(Op::Lda, Mode::AbsoluteY, 4),
            10 => self.plain(Op::Tsx, Mode::Implied, 2),
            11 => None,
            12 => self.paged(Op::Ldy, Mode::AbsoluteX, 4),
            13 => self.paged(Op::Lda, Mode::AbsoluteX, 4),
            14 => self.paged(Op::Ldx, Mode::AbsoluteY, 4),
            _ => None,
        }
    }

    #[inline(always)]
    fn advance_c(&mut self, low: u8) -> Option<u8>
        requires { low < 16 }
        ensures { Advances (row_for self.old.cpu (0xC0 + low)) self.old self.new result }
    {
        match low {
            0 => self.plain(Op::Cpy, Mode::Immediate, 2),
            1 => self.plain(Op::Cmp, Mode::IndirectX, 6),
            2 => None,
            3 => None,
            4 => self.plain(Op::Cpy, Mode::ZeroPage, 3),
            5 => self.plain(Op::Cmp, Mode::ZeroPage, 3),
            6 => self.plain(Op::Dec, Mode::ZeroPage, 5),
            7 => None,
            8 => self.plain(Op::Iny, Mode::Implied, 2),
            9 => self.plain(Op::Cmp, Mode::Immediate, 2),
            10 => self.plain(Op::Dex, Mode::Implied, 2),
            11 => None,
            12 => self.plain(Op::Cpy, Mode::Absolute, 4),
            13 => self.plain(Op::Cmp, Mode::Absolute, 4),
            14 => self.plain(Op::Dec, Mode::Absolute, 6),
            _ => None,
        }
    }

    #[inline(always)]
    fn advance_d(&mut self, low: u8) -> Option<u8>
        requires { low < 16 }
        ensures { Advances (row_for self.old.cpu (0xD0 + low)) self.old self.new result }
    {
        match low {
            0 => self.paged(Op::Bne, Mode::Relative, 2),
            1 => self.paged(Op::Cmp, Mode::IndirectY, 5),
            2 => self.added(Op::Cmp, Mode::ZeroPageIndirect, 5),
            3 => None,
            4 => None,
            5 => self.plain(Op::Cmp, Mode::ZeroPageX, 4),
            6 => self.plain(Op::Dec, Mode::ZeroPageX, 6),
            7 => None,
            8 => self.plain(Op::Cld, Mode::Implied, 2),
            9 => self.paged(Op::Cmp, Mode::AbsoluteY, 4),
            10 => self.added(Op::Phx, Mode::Implied, 3),
            11 => None,
            12 => None,
            13 => self.paged(Op::Cmp, Mode::AbsoluteX, 4),
            14 => self.plain(Op::Dec, Mode::AbsoluteX, 7),
            _ => None,
        }
    }

    #[inline(always)]
    fn advance_e(&mut self, low: u8) -> Option<u8>
        requires { low < 16 }
        ensures { Advances (row_for self.old.cpu (0xE0 + low)) self.old self.new result }
    {
        match low {
            0 => self.plain(Op::Cpx, Mode::Immediate, 2),
            1 => self.plain(Op::Sbc, Mode::IndirectX, 6),
            2 => None,
            3 => None,
            4 => self.plain(Op::Cpx, Mode::ZeroPage, 3),
            5 => self.plain(Op::Sbc, Mode::ZeroPage, 3),
            6 => self.plain(Op::Inc, Mode::ZeroPage, 5),
            7 => None,
            8 => self.plain(Op::Inx, Mode::Implied, 2),
            9 => self.plain(Op::Sbc, Mode::Immediate, 2),
            10 => self.plain(Op::Nop, Mode::Implied, 2),
            11 => None,
            12 => self.plain(Op::Cpx, Mode::Absolute, 4),
            13 => self.plain(Op::Sbc, Mode::Absolute, 4),
            14 => self.plain(Op::Inc, Mode::Absolute, 6),
            _ => None,
        }
    }

    #[inline(always)]
    fn advance_f(&mut self, low: u8) -> Option<u8>
        requires { low < 16 }
        ensures { Advances (row_for self.old.cpu (0xF0 + low)) self.old self.new result }
    {
        match low {
            0 => self.paged(Op::Beq, Mode::Relative, 2),
            1 => self.paged(Op::Sbc, Mode::IndirectY, 5),
            2 => self.added(Op::Sbc, Mode::ZeroPageIndirect, 5),
            3 => None,
            4 => None,
            5 => self.plain(Op::Sbc, Mode::ZeroPageX, 4),
            6 => self.plain(Op::Inc, Mode::ZeroPageX, 6),
            7 => None,
            8 => self.plain(Op::Sed, Mode::Implied, 2),
            9 => self.paged(Op::Sbc, Mode::AbsoluteY, 4),
            10 => self.added(Op::Plx, Mode::Implied, 4),
            11 => None,
            12 => None,
            13 => self.paged(Op::Sbc, Mode::AbsoluteX, 4),
            14 => self.plain(Op::Inc, Mode::AbsoluteX, 7),
            _ => None,
        }
    }

    // The row of an opcode.
    #[inline(always)]
    fn advance_by(&mut self, byte: u8) -> Option<u8>
        ensures { Advances (row_for self.old.cpu byte) self.old self.new result }
    {
        let low = byte % 16;
        match byte / 16 {
            0 => self.advance_0(low),
            1 => self.advance_1(low),
            2 => self.advance_2(low),
            3 => self.advance_3(low),
            4 => self.advance_4(low),
            5 => self.advance_5(low),
            6 => self.advance_6(low),
            7 => self.advance_7(low),
            8 => self.advance_8(low),
            9 => self.advance_9(low),
            10 => self.advance_a(low),
            11 => self.advance_b(low),
            12 => self.advance_c(low),
            13 => self.advance_d(low),
            14 => self.advance_e(low),
            _ => self.advance_f(low),
        }
    }

    // Does the row at pc, and answers its cycles. Where the byte has no row it answers None, and the machine is unchanged.
    #[inline(always)]
    pub(super) fn advance(&mut self) -> Option<u8>
        ensures { Advances (row_at self.old) self.old self.new result }
    {
        let byte = self.read(self.pc);
        self.advance_by(byte)
    }
}

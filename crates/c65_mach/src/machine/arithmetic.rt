// The operations on the registers (MCS6500 Programming Manual, chapters 2, 3 and 10), with decimal mode by this project's formulas.
ghost use Rattle.std.specs.Prelude.{◌≡◌, ◌<◌};
ghost use Rattle.c65_mach.specs.Decimal.{IsDifference};
ghost use Rattle.c65_mach.specs.Step.{with_a, with_x, with_y, compared, summed, decimal_low, decimal_sum, added, decimal_difference, subtracted, bits_tested, changed};

use super::{Machine, bit};
use crate::rows::Op;

// The low digits of a decimal sum: a sum above 9 is made a digit, and lends 16.
fn low_sum(low: u8) -> u16
    requires { low < 32 }
    ensures { result ≡ decimal_low low }
{
    u16::from(if low > 9 { (low + 6) % 16 + 16 } else { low })
}

// A decimal sum, of which 256 and more is the carry.
fn decimal_sum(a: u8, v: u8, c: bool) -> u16
    ensures { result ≡ decimal_sum a v c }
{
    let low = low_sum(a % 16 + v % 16 + bit(c));
    let sum = u16::from(a / 16) * 16 + u16::from(v / 16) * 16 + low;
    if sum > 159 { sum + 96 } else { sum }
}

// A decimal difference. 16 is added to the low digits and 512 to the whole, so that no number is below 0:
// 16 and 512 are what 0 would be, and 496 is 512 - 16.
fn decimal_difference(a: u8, v: u8, c: bool) -> u8
    ensures value { result ≡ decimal_difference a v c }
    ensures written { IsDifference a v c result }
{
    let low = 15 + a % 16 + bit(c) - v % 16;
    let low = if low < 16 { (low + 10) % 16 } else { low };
    let difference = 496 + 16 * u16::from(a / 16) + u16::from(low) - 16 * u16::from(v / 16);
    let difference = if difference < 512 {
        difference - 96
    } else {
        difference
    };
    (difference % 256) as u8
}

impl Machine {
    // A result in A sets N and Z.
    #[inline(always)]
    pub(super) fn set_a(&mut self, value: u8)
        ensures { self.new ≡ record self.old { regs = with_a value self.old.regs } }
    {
        self.a = value;
        self.n = value > 127;
        self.z = value == 0;
    }

    // A result in X sets N and Z.
    #[inline(always)]
    pub(super) fn set_x(&mut self, value: u8)
        ensures { self.new ≡ record self.old { regs = with_x value self.old.regs } }
    {
        self.x = value;
        self.n = value > 127;
        self.z = value == 0;
    }

    // A result in Y sets N and Z.
    #[inline(always)]
    pub(super) fn set_y(&mut self, value: u8)
        ensures { self.new ≡ record self.old { regs = with_y value self.old.regs } }
    {
        self.y = value;
        self.n = value > 127;
        self.z = value == 0;
    }

    // CMP, CPX and CPY: C says that the register is not below the operand.
    #[inline(always)]
    pub(super) fn compare(&mut self, register: u8, value: u8)
        ensures { self.new ≡ record self.old { regs = compared register value self.old.regs } }
    {
        let difference = register.wrapping_sub(value);
        self.n = difference > 127;
        self.z = difference == 0;
        self.c = register >= value;
    }

    // The sum in binary, with the carry. V says that the addends have one sign and the sum the other.
    fn sum(&mut self, value: u8)
        ensures { self.new ≡ record self.old { regs = summed value self.old.regs } }
    {
        let sum = u16::from(self.a) + u16::from(value) + u16::from(bit(self.c));
        let low = (sum % 256) as u8;
        self.v = (self.a ^ low) & (value ^ low) > 127;
        self.a = low;
        self.n = low > 127;
        self.z = low == 0;
        self.c = sum > 255;
    }

    // ADC. In decimal mode A and C are those of the decimal sum, and N, V and Z those of the binary one.
    #[inline(always)]
    pub(super) fn add(&mut self, value: u8)
        ensures { self.new ≡ record self.old { regs = added self.old.d value self.old.regs } }
    {
        if self.d {
            let decimal = decimal_sum(self.a, value, self.c);
            self.sum(value);
            self.a = (decimal % 256) as u8;
            self.c = decimal > 255;
        } else {
            self.sum(value);
        }
    }

    // SBC adds the complement. In decimal mode A alone is that of the decimal difference.
    #[inline(always)]
    pub(super) fn subtract(&mut self, value: u8)
        ensures { self.new ≡ record self.old { regs = subtracted self.old.d value self.old.regs } }
    {
        if self.d {
            let difference = decimal_difference(self.a, value, self.c);
            self.sum(255 - value);
            self.a = difference;
        } else {
            self.sum(255 - value);
        }
    }

    // BIT.
    #[inline(always)]
    pub(super) fn test_bits(&mut self, value: u8)
        ensures { self.new ≡ record self.old { regs = bits_tested value self.old.regs } }
    {
        self.n = value > 127;
        self.v = value / 64 % 2 == 1;
        self.z = self.a & value == 0;
    }

    // What the shifts, INC and DEC make of an operand, and the carry after it.
    #[inline(always)]
    pub(super) fn changed(&self, op: Op, value: u8) -> (u8, bool)
        ensures { result ≡ changed op value self.now.regs }
    {
        match op {
            Op::Asl => (value.wrapping_mul(2), value > 127),
            Op::Rol => (value.wrapping_mul(2) + bit(self.c), value > 127),
            Op::Lsr => (value / 2, value % 2 == 1),
            Op::Ror => (value / 2 + 128 * bit(self.c), value % 2 == 1),
            Op::Inc => (value.wrapping_add(1), self.c),
            _ => (value.wrapping_sub(1), self.c),
        }
    }
}

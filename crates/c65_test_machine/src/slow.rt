// A second interpreter of images, plain and slow. It is written from the manual's pattern of opcodes and from the page of the
// machine, and shares nothing with the simulator that it is compared with.
mod hooks;
mod memory;
mod operand;

use c65_base::Text;
use c65_mach::Regs;
use c65_sim::Budget;
use memory::Memory;
use operand::{Access, Operand, has_row};
use std::alloc::{AllocError, Global};

// The flags at their bits of P.
const CARRY: u8 = 1;

const ZERO: u8 = 2;

const NO_INTERRUPTS: u8 = 4;

const DECIMAL: u8 = 8;

const OVERFLOW: u8 = 64;

const NEGATIVE: u8 = 128;

// Bits 4 and 5 of P, which name no flag.
const PUSHED: u8 = 0x30;

const FLAGS: u8 = 0xCF;

/// Why a run stands still.
#[derive(Clone, Copy, Debug, PartialEq, Eq)]
pub enum End {
    Exit(u8),
    Limit(u64),
    HardStack(u16),
    Illegal(u16),
}

/// The bytes that a row pushes.
fn pushes(code: u8) -> u8 {
    match code {
        0x00 => 3,
        0x20 => 2,
        0x08 | 0x48 => 1,
        _ => 0,
    }
}

fn low_byte(number: i32) -> u8 {
    let [low, _, _, _] = number.to_le_bytes();
    low
}

/// A machine with its arguments, input and output.
#[derive(Drop)]
pub struct Slow {
    a: u8,
    x: u8,
    y: u8,
    s: u8,
    p: u8,
    pc: u16,
    memory: Memory,
    sp: u16,
    args: Vec<Text>,
    input: Vec<u8>,
    taken: usize,
    output: Vec<u8>,
    rows: u64,
    status: Option<u8>,
}

impl Slow {
    /// A machine before the first row of an image, which is given as a file of legal form.
    pub fn new(
        alloc: Global,
        file: &[u8],
        args: Vec<Text>,
        input: Vec<u8>,
    ) -> Result<Slow, AllocError> {
        let bytes = vec![in alloc; 0; 65536]?;
        let header = Memory {
            bytes: Vec::from_slice(alloc, file)?,
        };
        let mut memory = Memory { bytes };
        memory.lay(header.word(8), file.get(12..).unwrap_or(&[]));
        Ok(Slow {
            a: 0,
            x: 0,
            y: 0,
            s: 255,
            p: 0,
            pc: header.word(10),
            memory,
            sp: u16::from(header.byte(7)),
            args,
            input,
            taken: 0,
            output: Vec::new(alloc),
            rows: 0,
            status: None,
        })
    }

    pub fn rows(&self) -> u64 {
        self.rows
    }

    pub fn output(&self) -> &[u8] {
        &self.output
    }

    pub fn left(&self) -> &[u8] {
        self.input.get(self.taken..).unwrap_or(&[])
    }

    pub fn regs(&self) -> Regs {
        Regs {
            a: self.a,
            x: self.x,
            y: self.y,
            s: self.s,
            p: self.p,
            pc: self.pc,
        }
    }

    pub fn set_regs(&mut self, regs: Regs) {
        self.a = regs.a;
        self.x = regs.x;
        self.y = regs.y;
        self.s = regs.s;
        self.p = regs.p & FLAGS;
        self.pc = regs.pc;
    }

    pub fn byte(&self, at: u16) -> u8 {
        self.memory.byte(at)
    }

    pub fn put(&mut self, at: u16, value: u8) {
        self.memory.put(at, value);
    }

    fn has(&self, flag: u8) -> bool {
        self.p & flag != 0
    }

    fn set(&mut self, flag: u8, on: bool) {
        if on {
            self.p |= flag;
        } else {
            self.p &= !flag;
        }
    }

    /// Sets N and Z by a value, which is given back.
    fn told(&mut self, value: u8) -> u8 {
        self.set(NEGATIVE, value > 127);
        self.set(ZERO, value == 0);
        value
    }

    fn push(&mut self, value: u8) {
        let at = u16::from_le_bytes([self.s, 1]);
        self.memory.put(at, value);
        self.s = self.s.wrapping_sub(1);
    }

    fn push_word(&mut self, value: u16) {
        let [low, high] = value.to_le_bytes();
        self.push(high);
        self.push(low);
    }

    fn pull(&mut self) -> u8 {
        self.s = self.s.wrapping_add(1);
        self.memory.byte(u16::from_le_bytes([self.s, 1]))
    }

    fn pull_word(&mut self) -> u16 {
        let low = self.pull();
        let high = self.pull();
        u16::from_le_bytes([low, high])
    }

    /// The operand by the bits bbb and cc. `LDX` and `STX` take Y for an index.
    fn operand(&self, code: u8) -> Option<Operand> {
        let here = self.pc.wrapping_add(1);
        let byte = self.memory.byte(here);
        let index = if matches!(code, 0x96 | 0xB6 | 0xBE) {
            self.y
        } else {
            self.x
        };
        let indexed = u16::from(byte.wrapping_add(index));
        let word = self.memory.word(here);
        let operand = match (code / 4 % 8, code % 4) {
            (0, 1) => Operand::near(self.memory.word_in_page(indexed), 2, 6),
            (0, _) | (2, 1) => Operand::near(here, 2, 2),
            (1, _) => Operand::near(u16::from(byte), 2, 3),
            (3, _) => Operand::near(word, 3, 4),
            (4, 1) => { Operand::far(self.memory.word_in_page(u16::from(byte)), self.y, 2, 5) }
            (5, _) => Operand::near(indexed, 2, 4),
            (6, 1) => Operand::far(word, self.y, 3, 4),
            (7, _) => Operand::far(word, index, 3, 4),
            _ => return None,
        };
        Some(operand)
    }

    /// The sum in binary with its flags.
    fn sum(&mut self, value: u8) -> u8 {
        let carry = u16::from(self.p & CARRY);
        let sum = u16::from(self.a)
            .wrapping_add(u16::from(value))
            .wrapping_add(carry);
        let [low, high] = sum.to_le_bytes();
        let sign = self.a / 128;
        self.set(OVERFLOW, sign == value / 128 && sign != low / 128);
        self.set(CARRY, high != 0);
        self.told(low)
    }

    fn add(&mut self, value: u8) {
        let a = i32::from(self.a);
        let m = i32::from(value);
        let carry = i32::from(self.p & CARRY);
        let sum = self.sum(value);
        self.a = sum;
        if !self.has(DECIMAL) {
            return;
        }
        let mut low = (a & 15).wrapping_add(m & 15).wrapping_add(carry);
        if low > 9 {
            low = (low.wrapping_add(6) & 15).wrapping_add(16);
        }
        let mut total = (a & 0xF0).wrapping_add(m & 0xF0).wrapping_add(low);
        if total >= 0xA0 {
            total = total.wrapping_add(0x60);
        }
        self.set(CARRY, total >= 0x100);
        self.a = low_byte(total);
    }

    fn subtract(&mut self, value: u8) {
        let a = i32::from(self.a);
        let m = i32::from(value);
        let carry = i32::from(self.p & CARRY);
        let difference = self.sum(!value);
        self.a = difference;
        if !self.has(DECIMAL) {
            return;
        }
        let mut low = (a & 15)
            .wrapping_sub(m & 15)
            .wrapping_add(carry)
            .wrapping_sub(1);
        if low < 0 {
            low = (low.wrapping_sub(6) & 15).wrapping_sub(16);
        }
        let mut total = (a & 0xF0).wrapping_sub(m & 0xF0).wrapping_add(low);
        if total < 0 {
            total = total.wrapping_sub(0x60);
        }
        self.a = low_byte(total);
    }

    fn compare(&mut self, register: u8, value: u8) {
        self.set(CARRY, register >= value);
        self.told(register.wrapping_sub(value));
    }

    /// ASL, ROL, LSR and ROR, in the order of the bits aaa.
    fn shifted(&mut self, code: u8, value: u8) -> u8 {
        let carry = self.p & CARRY;
        let (moved, out) = match code / 32 {
            0 => (value.wrapping_mul(2), value / 128),
            1 => (value.wrapping_mul(2) | carry, value / 128),
            2 => (value / 2, value % 2),
            _ => (value / 2 | carry.wrapping_mul(128), value % 2),
        };
        self.set(CARRY, out == 1);
        self.told(moved)
    }

    /// ORA, AND, EOR, ADC, STA, LDA, CMP and SBC.
    fn column_one(&mut self, code: u8, at: u16) -> Access {
        let value = self.memory.byte(at);
        match code / 32 {
            0 => self.a = self.told(self.a | value),
            1 => self.a = self.told(self.a & value),
            2 => self.a = self.told(self.a ^ value),
            3 => self.add(value),
            4 => {
                self.memory.put(at, self.a);
                return Access::Store;
            }
            5 => self.a = self.told(value),
            6 => self.compare(self.a, value),
            _ => self.subtract(value),
        }
        Access::Load
    }

    /// The shifts, STX, LDX, DEC and INC.
    fn column_two(&mut self, code: u8, at: u16) -> Access {
        let value = self.memory.byte(at);
        let changed = match code / 32 {
            4 => {
                self.memory.put(at, self.x);
                return Access::Store;
            }
            5 => {
                self.x = self.told(value);
                return Access::Load;
            }
            6 => self.told(value.wrapping_sub(1)),
            7 => self.told(value.wrapping_add(1)),
            _ => self.shifted(code, value),
        };
        self.memory.put(at, changed);
        Access::Modify
    }

    /// BIT, STY, LDY, CPY and CPX.
    fn column_zero(&mut self, code: u8, at: u16) -> Access {
        let value = self.memory.byte(at);
        match code / 32 {
            1 => {
                self.set(NEGATIVE, value & NEGATIVE != 0);
                self.set(OVERFLOW, value & OVERFLOW != 0);
                self.set(ZERO, self.a & value == 0);
            }
            4 => {
                self.memory.put(at, self.y);
                return Access::Store;
            }
            5 => self.y = self.told(value),
            6 => self.compare(self.y, value),
            _ => self.compare(self.x, value),
        }
        Access::Load
    }

    /// The rows of one byte and two cycles, if this is one.
    fn single(&mut self, code: u8) -> Option<u8> {
        match code {
            0x0A | 0x2A | 0x4A | 0x6A => self.a = self.shifted(code, self.a),
            0x18 => self.set(CARRY, false),
            0x38 => self.set(CARRY, true),
            0x58 => self.set(NO_INTERRUPTS, false),
            0x78 => self.set(NO_INTERRUPTS, true),
            0xB8 => self.set(OVERFLOW, false),
            0xD8 => self.set(DECIMAL, false),
            0xF8 => self.set(DECIMAL, true),
            0x88 => self.y = self.told(self.y.wrapping_sub(1)),
            0xC8 => self.y = self.told(self.y.wrapping_add(1)),
            0xCA => self.x = self.told(self.x.wrapping_sub(1)),
            0xE8 => self.x = self.told(self.x.wrapping_add(1)),
            0x8A => self.a = self.told(self.x),
            0x98 => self.a = self.told(self.y),
            0xA8 => self.y = self.told(self.a),
            0xAA => self.x = self.told(self.a),
            0x9A => self.s = self.x,
            0xBA => self.x = self.told(self.s),
            0xEA => {}
            _ => return None,
        }
        self.pc = self.pc.wrapping_add(1);
        Some(2)
    }

    /// The rows that push or pull one byte, if this is one.
    fn stacked(&mut self, code: u8) -> Option<u8> {
        let cycles = match code {
            0x08 => {
                self.push(self.p | PUSHED);
                3
            }
            0x48 => {
                self.push(self.a);
                3
            }
            0x28 => {
                self.p = self.pull() & FLAGS;
                4
            }
            0x68 => {
                let value = self.pull();
                self.a = self.told(value);
                4
            }
            _ => return None,
        };
        self.pc = self.pc.wrapping_add(1);
        Some(cycles)
    }

    /// BRK, JSR, RTI, JMP and RTS, if this is one.
    fn jump(&mut self, code: u8) -> Option<u8> {
        let target = self.memory.word(self.pc.wrapping_add(1));
        match code {
            0x00 => {
                self.push_word(self.pc.wrapping_add(2));
                self.push(self.p | PUSHED);
                self.set(NO_INTERRUPTS, true);
                self.pc = self.memory.word(0xFFFE);
                Some(7)
            }
            0x20 => {
                self.push_word(self.pc.wrapping_add(2));
                self.pc = target;
                Some(6)
            }
            0x40 => {
                self.p = self.pull() & FLAGS;
                self.pc = self.pull_word();
                Some(6)
            }
            0x4C => {
                self.pc = target;
                Some(3)
            }
            0x60 => {
                self.pc = self.pull_word().wrapping_add(1);
                Some(6)
            }
            0x6C => {
                self.pc = self.memory.word_in_page(target);
                Some(5)
            }
            _ => None,
        }
    }

    /// The eight branches: two bits name the flag, and one the value that it is to have.
    fn branch(&mut self, code: u8) -> u8 {
        let flag = match code / 64 {
            0 => NEGATIVE,
            1 => OVERFLOW,
            2 => CARRY,
            _ => ZERO,
        };
        let distance = self.memory.byte(self.pc.wrapping_add(1));
        self.pc = self.pc.wrapping_add(2);
        if self.has(flag) != (code & 32 != 0) {
            return 2;
        }
        let forward = self.pc.wrapping_add(u16::from(distance));
        let target = if distance < 128 {
            forward
        } else {
            forward.wrapping_sub(256)
        };
        let cycles = if target / 256 == self.pc / 256 { 3 } else { 4 };
        self.pc = target;
        cycles
    }

    /// Does the row at pc and gives its cycles. It gives nothing, and does nothing, where the table has no row.
    pub fn row(&mut self) -> Option<u8> {
        let code = self.memory.byte(self.pc);
        if code % 32 == 16 {
            return Some(self.branch(code));
        }
        if let Some(cycles) = self.single(code) {
            return Some(cycles);
        }
        if let Some(cycles) = self.stacked(code) {
            return Some(cycles);
        }
        if let Some(cycles) = self.jump(code) {
            return Some(cycles);
        }
        self.row_with_operand(code)
    }

    fn row_with_operand(&mut self, code: u8) -> Option<u8> {
        if !has_row(code) {
            return None;
        }
        let operand = self.operand(code)?;
        let access = match code % 4 {
            0 => self.column_zero(code, operand.at),
            1 => self.column_one(code, operand.at),
            _ => self.column_two(code, operand.at),
        };
        self.pc = self.pc.wrapping_add(operand.size);
        Some(operand.price(access))
    }

    /// The row at pc pushes a byte while S is 0.
    fn is_too_deep(&self) -> bool {
        let mut s = self.s;
        for _ in 0..pushes(self.memory.byte(self.pc)) {
            if s == 0 {
                return true;
            }
            s = s.wrapping_sub(1);
        }
        false
    }

    /// Does one row or hook and gives its cycles, or tells why there is none.
    fn turn(&mut self, guard: bool) -> Result<Result<u8, End>, AllocError> {
        if self.hook()? {
            return Ok(Ok(6));
        }
        if guard && self.is_too_deep() {
            return Ok(Err(End::HardStack(self.pc)));
        }
        Ok(self.row().ok_or(End::Illegal(self.pc)))
    }

    /// Does rows until the program ends or stops, within the budget.
    pub fn run(&mut self, budget: Budget, guard: bool) -> Result<End, AllocError> {
        let mut rows: u64 = 0;
        let mut cycles: u64 = 0;
        for _ in 0..u64::MAX {
            if let Some(status) = self.status {
                return Ok(End::Exit(status));
            }
            let (spent, most) = match budget {
                Budget::Instructions(most) => (rows, most),
                Budget::Cycles(most) => (cycles, most),
            };
            if spent >= most {
                break;
            }
            match self.turn(guard)? {
                Ok(price) => cycles = cycles.wrapping_add(u64::from(price)),
                Err(end) => return Ok(end),
            }
            rows = rows.wrapping_add(1);
            self.rows = self.rows.wrapping_add(1);
        }
        let (Budget::Instructions(most) | Budget::Cycles(most)) = budget;
        Ok(End::Limit(most))
    }
}

// Single rows of the machine against the slow interpreter.
use crate::images::Dice;
use crate::slow::Slow;
use c65_base::Refusal;
use c65_mach::{Machine, Regs, step};
use std::alloc::Global;

/// How many states each byte is tried in.
const STATES: u32 = 32;

/// The machine and the slow interpreter with the same memory.
#[derive(Drop)]
struct Pair {
    machine: Machine,
    slow: Slow,
}

impl Pair {
    fn new(alloc: Global, dice: &mut Dice) -> Result<Pair, Refusal> {
        let machine = Machine::new(alloc)?;
        let slow = Slow::new(alloc, &[0; 12], Vec::new(alloc), Vec::new(alloc))?;
        let mut pair = Pair { machine, slow };
        for at in 0..=u16::MAX {
            pair.put(at, dice.byte());
        }
        Ok(pair)
    }

    fn put(&mut self, at: u16, value: u8) {
        self.machine.write(at, value);
        self.slow.put(at, value);
    }

    /// Does a row both ways, from these registers, and says whether cycles and registers agree.
    fn agrees(&mut self, regs: Regs) -> bool {
        self.machine.set_regs(regs);
        self.slow.set_regs(regs);
        let cycles = step(&mut self.machine).ok();
        cycles == self.slow.row() && self.machine.regs() == self.slow.regs()
    }

    fn is_same_memory(&self) -> bool {
        for at in 0..=u16::MAX {
            if self.machine.read(at) != self.slow.byte(at) {
                return false;
            }
        }
        true
    }
}

fn random_regs(dice: &mut Dice) -> Regs {
    let pc = match dice.below(4) {
        0 => dice.word() | 0x00FC,
        1 => 0xFFFC_u16.wrapping_add(dice.below(4)),
        _ => dice.word(),
    };
    Regs {
        a: dice.edge(),
        x: dice.edge(),
        y: dice.edge(),
        s: dice.edge(),
        p: dice.byte(),
        pc,
    }
}

/// Tries a byte in made states, and counts those in which registers and cycles agree: none where memory differs behind them.
fn agreeing(pair: &mut Pair, dice: &mut Dice, code: u8) -> u32 {
    let mut count: u32 = 0;
    for _ in 0..STATES {
        let regs = random_regs(dice);
        pair.put(regs.pc, code);
        pair.put(regs.pc.wrapping_add(1), dice.edge());
        if pair.agrees(regs) {
            count = count.wrapping_add(1);
        }
    }
    if pair.is_same_memory() { count } else { 0 }
}

/// Of each byte as an instruction, in how many made states both do the same.
pub fn count_rows(alloc: Global) -> Result<u32, Refusal> {
    let mut dice = Dice::new(6502);
    let mut pair = Pair::new(alloc, &mut dice)?;
    let mut count: u32 = 0;
    for code in 0..=255_u8 {
        count = count.wrapping_add(agreeing(&mut pair, &mut dice, code));
    }
    Ok(count)
}

/// Of all sums or differences in decimal mode, with and without carry, how many agree.
fn agreeing_decimals(pair: &mut Pair, code: u8) -> u32 {
    pair.put(0x0200, code);
    let mut count: u32 = 0;
    for number in 0..=0x1FFFF_u32 {
        let [a, value, carry, _] = number.to_le_bytes();
        pair.put(0x0201, value);
        let regs = Regs {
            a,
            x: 0,
            y: 0,
            s: 255,
            p: 0x08 | carry,
            pc: 0x0200,
        };
        if pair.agrees(regs) {
            count = count.wrapping_add(1);
        }
    }
    count
}

/// Of all sums and differences in decimal mode, how many agree.
pub fn count_decimals(alloc: Global) -> Result<u32, Refusal> {
    let mut pair = Pair::new(alloc, &mut Dice::new(1975))?;
    let sums = agreeing_decimals(&mut pair, 0x69);
    Ok(sums.wrapping_add(agreeing_decimals(&mut pair, 0xE9)))
}

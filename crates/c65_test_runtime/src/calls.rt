// Calls of routines on the machine, and what they leave.
use crate::placing::{Runtime, start_of};
use c65_base::Refusal;
use c65_code::Routine;
use c65_mach::{Machine, Regs, step};

// Where a routine comes back to.
const BACK: u16 = 0xFE00;

/// What a call finds: EAX, Y, sp and the four bytes there.
#[derive(Clone, Copy, Debug)]
pub struct Given {
    pub eax: u32,
    pub y: u8,
    pub sp: u16,
    pub tos: u32,
}

/// What it leaves: EAX, sp, the rows, the lowest S, and whether all that the call keeps is as before.
#[derive(Clone, Copy, Debug)]
pub struct Left {
    pub eax: u32,
    pub sp: u16,
    pub rows: u32,
    pub lowest: u8,
    pub keeps: bool,
}

/// The next of the made values.
pub fn made(seed: u64) -> u64 {
    seed.wrapping_mul(6_364_136_223_846_793_005)
        .wrapping_add(1_442_695_040_888_963_407)
}

/// The upper half of a made value.
pub fn upper(seed: u64) -> u32 {
    let [_, _, _, _, a, b, c, d] = seed.to_le_bytes();
    u32::from_le_bytes([a, b, c, d])
}

/// A place for the stack, with any low byte.
pub fn stack_place(seed: u64) -> u16 {
    let [_, _, _, low, _, _, _, _] = seed.to_le_bytes();
    u16::from_le_bytes([low, 0xFA])
}

/// Puts a number at an address, low byte first.
pub fn put_long(machine: &mut Machine, at: u16, value: u32) {
    let [a, b, c, d] = value.to_le_bytes();
    machine.put_word(at, u16::from_le_bytes([a, b]));
    machine.put_word(at.wrapping_add(2), u16::from_le_bytes([c, d]));
}

/// The number of four bytes at an address.
pub fn long_at(machine: &Machine, at: u16) -> u32 {
    let [a, b] = machine.word(at).to_le_bytes();
    let [c, d] = machine.word(at.wrapping_add(2)).to_le_bytes();
    u32::from_le_bytes([a, b, c, d])
}

// The bytes that no routine here may change: regbank, those above TOS, and those below the reach.
fn guarded(index: u16, sp: u16) -> u16 {
    if index < 6 {
        0x14_u16.wrapping_add(index)
    } else if index < 22 {
        sp.wrapping_sub(2).wrapping_add(index)
    } else {
        sp.wrapping_sub(102).wrapping_add(index)
    }
}

fn mark(index: u16) -> u8 {
    let [low, _] = index.wrapping_mul(37).wrapping_add(91).to_le_bytes();
    low
}

fn put_marks(machine: &mut Machine, sp: u16) {
    for index in 0..38_u16 {
        machine.write(guarded(index, sp), mark(index));
    }
}

fn has_marks(machine: &Machine, sp: u16) -> bool {
    for index in 0..38_u16 {
        if machine.read(guarded(index, sp)) != mark(index) {
            return false;
        }
    }
    true
}

fn prepare(machine: &mut Machine, start: u16, given: &Given) {
    let [a, x, low, high] = given.eax.to_le_bytes();
    put_marks(machine, given.sp);
    put_long(machine, given.sp, given.tos);
    machine.put_word(0x00, given.sp);
    machine.put_word(0x02, u16::from_le_bytes([low, high]));
    machine.put_word(0x01FE, BACK.wrapping_sub(1));
    machine.set_regs(Regs {
        a,
        x,
        y: given.y,
        s: 0xFD,
        p: 0,
        pc: start,
    });
}

/// Calls a routine, with at most 200,000 rows.
pub fn call(runtime: &mut Runtime, which: Routine, given: Given) -> Result<Left, Refusal> {
    let start = start_of(&runtime.starts, which);
    let machine = &mut runtime.machine;
    prepare(machine, start, &given);
    let mut rows = 0_u32;
    let mut lowest = 0xFD_u8;
    for done in 0..200_000_u32 {
        rows = done;
        if machine.pc() == BACK {
            break;
        }
        step(machine)?;
        lowest = lowest.min(machine.s());
    }
    Ok(Left {
        eax: u32::from_le_bytes([
            machine.a(),
            machine.x(),
            machine.read(0x02),
            machine.read(0x03),
        ]),
        sp: machine.word(0x00),
        rows,
        lowest,
        keeps: has_marks(machine, given.sp)
            && long_at(machine, given.sp) == given.tos
            && machine.s() == 0xFF,
    })
}

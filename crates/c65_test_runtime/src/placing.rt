// The runtime in memory: the lines of each segment as bytes, one segment behind another.
use c65_base::Refusal;
use c65_code::{Callee, Line, Operand, Routine, Seg};
use c65_mach::{Machine, Mode, Op, decode};
use c65_rtl::{is_narrow, routine};
use c65_rtlwide::{is_wide, wide_routine};
use c65_va::{is_printf, printf_routine};
use std::alloc::Global;

/// The address of the first routine.
pub const FIRST: u16 = 0x0200;

/// The address of main, for `start` and `startargs`.
pub const MAIN: u16 = 0x3000;

/// A machine with the whole runtime in memory, and where each routine begins.
#[derive(Drop)]
pub struct Runtime {
    pub machine: Machine,
    pub starts: Vec<(Routine, u16)>,
    /// The address behind the last routine.
    pub end: u16,
}

fn segment(alloc: Global, which: Routine) -> Result<Option<Seg>, Refusal> {
    if is_narrow(which) {
        return Ok(Some(routine(alloc, which)?));
    }
    if is_wide(which) {
        return Ok(Some(wide_routine(alloc, which)?));
    }
    if is_printf(which) {
        return Ok(Some(printf_routine(alloc)?));
    }
    Ok(None)
}

// The bytes of a line; of a branch, those of the opposite branch round a jump.
fn most_of(line: &Line) -> u16 {
    match line {
        Line::Label(_) => 0,
        Line::Call(_) => 3,
        Line::Do(_, Mode::Implied | Mode::Accumulator, _) => 1,
        Line::Do(_, Mode::Absolute | Mode::AbsoluteX | Mode::AbsoluteY | Mode::Indirect, _) => 3,
        Line::Do(_, Mode::Relative, _) => 5,
        Line::Do(_, _, _) => 2,
    }
}

// The place of a label; behind all lines where there is none.
fn place_in(lines: &[Line], label: u32) -> usize {
    for (place, line) in lines.iter().enumerate() {
        if *line == Line::Label(label) {
            return place;
        }
    }
    lines.len()
}

fn bytes_between(lines: &[Line], first: usize, last: usize) -> u16 {
    let mut bytes = 0_u16;
    for (place, line) in lines.iter().enumerate() {
        if first <= place && place <= last {
            bytes = bytes.wrapping_add(most_of(line));
        }
    }
    bytes
}

// Whether the line at a place is a branch that might not reach its label.
fn is_far(lines: &[Line], place: usize) -> bool {
    match lines.get(place) {
        Some(Line::Do(_, Mode::Relative, Operand::To(label))) => {
            let there = place_in(lines, *label);
            bytes_between(lines, place.min(there), place.max(there)) > 120
        }
        _ => false,
    }
}

fn size_of(lines: &[Line], place: usize, line: &Line) -> u16 {
    match line {
        Line::Do(_, Mode::Relative, _) if !is_far(lines, place) => 2,
        _ => most_of(line),
    }
}

fn place_of(lines: &[Line], base: u16, label: u32) -> u16 {
    let mut at = base;
    for (place, line) in lines.iter().enumerate() {
        if *line == Line::Label(label) {
            return at;
        }
        at = at.wrapping_add(size_of(lines, place, line));
    }
    at
}

fn opposite(op: Op) -> Op {
    match op {
        Op::Beq => Op::Bne,
        Op::Bne => Op::Beq,
        Op::Bcc => Op::Bcs,
        Op::Bcs => Op::Bcc,
        Op::Bpl => Op::Bmi,
        Op::Bmi => Op::Bpl,
        Op::Bvc => Op::Bvs,
        _ => Op::Bvc,
    }
}

// A byte without a row where the table has none.
fn opcode(op: Op, mode: Mode) -> u8 {
    for byte in 0..=255_u8 {
        if let Some(row) = decode(byte) {
            if row.op == op && row.mode == mode {
                return byte;
            }
        }
    }
    0x02
}

/// Where a routine begins; a hook, at its address.
pub fn start_of(starts: &[(Routine, u16)], which: Routine) -> u16 {
    match which {
        Routine::HookOpen => 0xFFF4,
        Routine::HookClose => 0xFFF5,
        Routine::HookRead => 0xFFF6,
        Routine::HookWrite => 0xFFF7,
        Routine::HookArgs => 0xFFF8,
        Routine::HookExit => 0xFFF9,
        _ => listed(starts, which),
    }
}

fn listed(starts: &[(Routine, u16)], which: Routine) -> u16 {
    for (routine, start) in starts {
        if *routine == which {
            return *start;
        }
    }
    0
}

fn called(starts: &[(Routine, u16)], callee: &Callee) -> u16 {
    match callee {
        Callee::Routine(which) => start_of(starts, *which),
        _ => MAIN,
    }
}

// The operand of the line at an address: a byte, a branch's distance, or the address of a label.
fn operand(lines: &[Line], base: u16, at: u16, mode: Mode, operand: Operand) -> u16 {
    match operand {
        Operand::Byte(value) | Operand::Zero(value) => u16::from(value),
        Operand::To(label) if mode == Mode::Relative => place_of(lines, base, label)
            .wrapping_sub(at)
            .wrapping_sub(2),
        Operand::To(label) => place_of(lines, base, label),
        _ => 0,
    }
}

fn put_word(machine: &mut Machine, at: u16, size: u16, word: u16) {
    let [low, high] = word.to_le_bytes();
    if size > 1 {
        machine.write(at.wrapping_add(1), low);
    }
    if size > 2 {
        machine.write(at.wrapping_add(2), high);
    }
}

// Puts the lines at an address, and answers the address behind them.
fn put_lines(machine: &mut Machine, starts: &[(Routine, u16)], lines: &[Line], base: u16) -> u16 {
    let mut at = base;
    for (place, line) in lines.iter().enumerate() {
        let size = size_of(lines, place, line);
        match *line {
            Line::Label(_) => {}
            Line::Do(op, Mode::Relative, what) if size > 2 => {
                let jump = at.wrapping_add(2);
                machine.write(at, opcode(opposite(op), Mode::Relative));
                machine.write(at.wrapping_add(1), 3);
                machine.write(jump, opcode(Op::Jmp, Mode::Absolute));
                put_word(
                    machine,
                    jump,
                    3,
                    operand(lines, base, jump, Mode::Absolute, what),
                );
            }
            Line::Call(callee) => {
                machine.write(at, opcode(Op::Jsr, Mode::Absolute));
                put_word(machine, at, size, called(starts, &callee));
            }
            Line::Do(op, mode, what) => {
                machine.write(at, opcode(op, mode));
                put_word(machine, at, size, operand(lines, base, at, mode, what));
            }
        }
        at = at.wrapping_add(size);
    }
    at
}

// Puts each routine behind the one before, and answers where each begins and the last one ends.
fn put_all(
    alloc: Global,
    machine: &mut Machine,
    starts: &[(Routine, u16)],
) -> Result<(Vec<(Routine, u16)>, u16), Refusal> {
    let mut at = FIRST;
    let mut places = Vec::new(alloc);
    for which in &Routine::ALL {
        places.push((*which, at))?;
        if let Some(seg) = segment(alloc, *which)? {
            at = put_lines(machine, starts, seg.lines(), at);
        }
    }
    Ok((places, at))
}

/// The whole runtime. It is put down twice, since calls lead forward.
pub fn placed_runtime(alloc: Global) -> Result<Runtime, Refusal> {
    let mut machine = Machine::new(alloc)?;
    let (starts, _) = put_all(alloc, &mut machine, &[])?;
    let (starts, end) = put_all(alloc, &mut machine, &starts)?;
    Ok(Runtime {
        machine,
        starts,
        end,
    })
}

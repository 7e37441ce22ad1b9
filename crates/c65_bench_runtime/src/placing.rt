// The lines of a routine in memory.
use c65_code::{Line, Operand};
use c65_mach::{Machine, Mode, Op, decode};

fn size_of(line: &Line) -> u16 {
    match line {
        Line::Label(_) => 0,
        Line::Call(_) => 3,
        Line::Do(_, Mode::Implied | Mode::Accumulator, _) => 1,
        Line::Do(_, Mode::Absolute | Mode::AbsoluteX | Mode::AbsoluteY | Mode::Indirect, _) => 3,
        Line::Do(_, _, _) => 2,
    }
}

fn place_of(lines: &[Line], base: u16, label: u32) -> u16 {
    let mut at = base;
    for line in lines {
        if *line == Line::Label(label) {
            return at;
        }
        at = at.wrapping_add(size_of(line));
    }
    at
}

// A byte without a row where the table has none.
fn opcode(op: Op, mode: Mode) -> u8 {
    for byte in 0..=255_u8 {
        if let Some(row) = decode(byte) {
            if row.op == op && row.mode == mode {
                return byte;
            }
        }
    }
    0x02
}

// The operand of the line at an address: a byte, a branch's distance, or the address of a label.
fn operand(lines: &[Line], base: u16, at: u16, mode: Mode, what: Operand) -> u16 {
    match what {
        Operand::Byte(value) | Operand::Zero(value) => u16::from(value),
        Operand::To(label) if mode == Mode::Relative => place_of(lines, base, label)
            .wrapping_sub(at)
            .wrapping_sub(2),
        Operand::To(label) => place_of(lines, base, label),
        _ => 0,
    }
}

/// Puts lines without calls at an address, and answers the address behind them.
pub fn put_lines(machine: &mut Machine, lines: &[Line], base: u16) -> u16 {
    let mut at = base;
    for line in lines {
        let size = size_of(line);
        if let Line::Do(op, mode, what) = *line {
            let [low, high] = operand(lines, base, at, mode, what).to_le_bytes();
            machine.write(at, opcode(op, mode));
            if size > 1 {
                machine.write(at.wrapping_add(1), low);
            }
            if size > 2 {
                machine.write(at.wrapping_add(2), high);
            }
        }
        at = at.wrapping_add(size);
    }
    at
}

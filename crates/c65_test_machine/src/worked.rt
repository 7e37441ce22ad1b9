// Rows that were worked by hand: a line of the table each.
use c65_base::{Cpu, Refusal};
use c65_mach::{Machine, Regs, step};
use c65_test_words::{first_word, number};
use std::alloc::{AllocError, Global};

/// A machine before its rows, and after them.
#[derive(Drop)]
struct Worked {
    cpu: Cpu,
    code: Vec<u8>,
    /// Addresses with their bytes, three bytes each.
    bytes: Vec<u8>,
    start: Regs,
    rows: u32,
    cycles: u32,
    end: Regs,
    left: Vec<u8>,
}

fn digit(byte: u8) -> Option<u8> {
    match byte {
        b'0'..=b'9' => Some(byte - b'0'),
        b'A'..=b'F' => Some(byte - b'A' + 10),
        _ => None,
    }
}

/// The bytes that pairs of hexadecimal digits spell; other characters stand between them.
fn spelled(alloc: Global, text: &str) -> Result<Vec<u8>, AllocError> {
    let mut bytes = Vec::new(alloc);
    let mut high = None;
    for byte in text.as_bytes() {
        if let Some(low) = digit(*byte) {
            match high {
                None => high = Some(low),
                Some(first) => {
                    bytes.push(low.wrapping_add(16_u8.wrapping_mul(first)))?;
                    high = None;
                }
            }
        }
    }
    Ok(bytes)
}

fn registers(alloc: Global, text: &str) -> Result<Regs, AllocError> {
    let bytes = spelled(alloc, text)?;
    let byte = |at: usize| match bytes.get(at) {
        Some(byte) => *byte,
        None => 0,
    };
    Ok(Regs {
        a: byte(0),
        x: byte(1),
        y: byte(2),
        s: byte(3),
        p: byte(4),
        pc: u16::from_be_bytes([byte(5), byte(6)]),
    })
}

fn read_row(alloc: Global, text: &str) -> Result<Worked, AllocError> {
    let (cpu, rest) = first_word(text);
    let (code, rest) = first_word(rest);
    let (bytes, rest) = first_word(rest);
    let (start, rest) = first_word(rest);
    let (rows, rest) = first_word(rest);
    let (cycles, rest) = first_word(rest);
    let (end, left) = first_word(rest);
    Ok(Worked {
        cpu: if cpu == "65C02" { Cpu::Cmos } else { Cpu::Nmos },
        code: spelled(alloc, code)?,
        bytes: spelled(alloc, bytes)?,
        start: registers(alloc, start)?,
        rows: number(rows),
        cycles: number(cycles),
        end: registers(alloc, end)?,
        left: spelled(alloc, left)?,
    })
}

/// A machine with the code at its pc.
fn machine_of(alloc: Global, row: &Worked) -> Result<Machine, Refusal> {
    let mut machine = Machine::new(alloc)?;
    machine.set_cpu(row.cpu);
    machine.set_regs(row.start);
    let mut at = row.start.pc;
    for byte in row.code.as_slice() {
        machine.write(at, *byte);
        at = at.wrapping_add(1);
    }
    for cell in row.bytes.chunks(3) {
        if let [high, low, value] = cell {
            machine.write(u16::from_be_bytes([*high, *low]), *value);
        }
    }
    Ok(machine)
}

fn has_bytes(machine: &Machine, bytes: &[u8]) -> bool {
    for cell in bytes.chunks(3) {
        if let [high, low, value] = cell
            && machine.read(u16::from_be_bytes([*high, *low])) != *value
        {
            return false;
        }
    }
    true
}

fn holds(alloc: Global, row: &Worked) -> Result<bool, Refusal> {
    let mut machine = machine_of(alloc, row)?;
    let mut cycles = 0_u32;
    for _ in 0..row.rows {
        cycles = cycles.wrapping_add(u32::from(step(&mut machine)?));
    }
    Ok(cycles == row.cycles && machine.regs() == row.end && has_bytes(&machine, &row.left))
}

/// How many lines of the table hold, and how many there are.
pub fn count_worked(alloc: Global, table: &str) -> Result<(u32, u32), Refusal> {
    let mut right = 0_u32;
    let mut lines = 0_u32;
    for text in table.lines() {
        if !text.starts_with('#') {
            let row = match read_row(alloc, text) {
                Ok(row) => row,
                Err(_) => return Err(Refusal::OutOfMemory),
            };
            lines = lines.saturating_add(1);
            if holds(alloc, &row)? {
                right = right.saturating_add(1);
            }
        }
    }
    Ok((right, lines))
}

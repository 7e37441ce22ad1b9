// Calls of printf: what they write, give and leave.
use crate::calls::{made, put_long};
use crate::placing::{Runtime, start_of};
use crate::words::number;
use c65_base::{Library, Refusal};
use c65_code::Routine;
use c65_mach::{Machine, Regs, step};
use std::alloc::Global;

// Where a call comes back to, where its texts lie, and where its arguments end.
const BACK: u16 = 0xFE00;

const TEXTS: u16 = 0x9000;

const TOP: u16 = 0xFC37;

// JSR.
const CALL: u8 = 0x20;

// Texts and arguments in memory: the next place for a text, the last argument, and the bytes that the call reads.
#[derive(Drop)]
struct Given {
    text: u16,
    sp: u16,
    read: u32,
}

// A text of the table, where `\n` stands for a line feed.
fn plain(alloc: Global, field: &str) -> Result<Vec<u8>, Refusal> {
    let mut text = Vec::new(alloc);
    let mut escaped = false;
    for byte in field.as_bytes() {
        if *byte == b'\\' {
            escaped = true;
        } else {
            text.push(if escaped { b'\n' } else { *byte })?;
            escaped = false;
        }
    }
    Ok(text)
}

// A text with its zero, and its address below the arguments before it.
fn push_text(machine: &mut Machine, given: &mut Given, text: &[u8]) {
    given.sp = given.sp.wrapping_sub(2);
    machine.put_word(given.sp, given.text);
    given.read = given.read.wrapping_add(1);
    for byte in text {
        machine.write(given.text, *byte);
        given.text = given.text.wrapping_add(1);
        given.read = given.read.wrapping_add(1);
    }
    machine.write(given.text, 0);
    given.text = given.text.wrapping_add(1);
}

// An argument: `2` or `4` bytes, in hexadecimal, or `s` and a text.
fn push_argument(
    alloc: Global,
    machine: &mut Machine,
    given: &mut Given,
    field: &str,
) -> Result<(), Refusal> {
    let Some((kind, value)) = field.split_at_checked(1) else {
        return Ok(());
    };
    match kind {
        "s" => {
            given.read = given.read.wrapping_add(2);
            push_text(machine, given, &plain(alloc, value)?);
        }
        "4" => {
            given.sp = given.sp.wrapping_sub(4);
            given.read = given.read.wrapping_add(4);
            put_long(machine, given.sp, number(value));
        }
        _ => {
            let [low, high, _, _] = number(value).to_le_bytes();
            given.sp = given.sp.wrapping_sub(2);
            given.read = given.read.wrapping_add(2);
            machine.put_word(given.sp, u16::from_le_bytes([low, high]));
        }
    }
    Ok(())
}

fn prepare(machine: &mut Machine, start: u16, sp: u16) {
    let [y, _] = TOP.wrapping_sub(sp).to_le_bytes();
    machine.put_word(0x00, sp);
    machine.put_word(0x14, 0x2143);
    machine.put_word(TOP, 0x6587);
    machine.put_word(0x01FE, BACK.wrapping_sub(1));
    machine.set_regs(Regs {
        a: 0x5A,
        x: 0xC3,
        y,
        s: 0xFD,
        p: 0,
        pc: start,
    });
}

// Writes the bytes at the address at sp, if it is to the standard output, and takes the hook's arguments off.
fn write_hook(machine: &mut Machine, out: &mut Vec<u8>) -> Result<(), Refusal> {
    let sp = machine.word(0x00);
    let count = u16::from_le_bytes([machine.a(), machine.x()]);
    let from = machine.word(sp);
    if machine.word(sp.wrapping_add(2)) == 1 {
        for index in 0..count {
            out.push(machine.read(from.wrapping_add(index)))?;
        }
    }
    machine.put_word(0x00, sp.wrapping_add(4));
    machine.answer_hook(count);
    Ok(())
}

// Y and the flags may be anything when a routine came back.
fn scramble(machine: &mut Machine, seed: u64) {
    let [_, _, _, _, _, y, p, _] = seed.to_le_bytes();
    let regs = machine.regs();
    machine.set_regs(Regs {
        y,
        p: p & 0xC3,
        ..regs
    });
}

// The instructions up to the return, at most a million.
fn run(machine: &mut Machine, inside: (u16, u16), out: &mut Vec<u8>) -> Result<u32, Refusal> {
    let (first, end) = inside;
    let mut waits = BACK;
    let mut seed = u64::from(first);
    for count in 0..1_000_000_u32 {
        let at = machine.pc();
        if at == BACK {
            return Ok(count);
        }
        if at == waits {
            seed = made(seed);
            scramble(machine, seed);
            waits = BACK;
        }
        if at == start_of(&[], Routine::HookWrite) {
            write_hook(machine, out)?;
            continue;
        }
        if first <= at && at < end && machine.read(at) == CALL {
            waits = at.wrapping_add(3);
        }
        step(machine)?;
    }
    Ok(1_000_000)
}

fn length(text: &[u8]) -> u32 {
    let mut bytes = 0_u32;
    for _ in text {
        bytes = bytes.wrapping_add(1);
    }
    bytes
}

/// Whether a call writes the text of the table's line, gives its length, takes the arguments off, keeps what it is to keep, and
/// takes no more instructions than it may. The line has the format, the text and the arguments.
pub fn prints(alloc: Global, runtime: &mut Runtime, line: &str) -> Result<bool, Refusal> {
    let first = start_of(&runtime.starts, Routine::Library(Library::Printf));
    let end = start_of(&runtime.starts, Routine::PushA);
    let machine = &mut runtime.machine;
    let mut fields = line.split('\t');
    let format = plain(alloc, fields.next().unwrap_or(""))?;
    let wanted = plain(alloc, fields.next().unwrap_or(""))?;
    let mut given = Given {
        text: TEXTS,
        sp: TOP,
        read: 0,
    };
    push_text(machine, &mut given, &format);
    for field in fields {
        push_argument(alloc, machine, &mut given, field)?;
    }
    prepare(machine, first, given.sp);
    let mut out = Vec::new(alloc);
    let count = run(machine, (first, end), &mut out)?;
    let bytes = given.read.wrapping_add(length(&out));
    let most = bytes.wrapping_mul(3072).wrapping_add(1024);
    let gives = u32::from_le_bytes([machine.a(), machine.x(), 0, 0]) == length(&out);
    let stacks = machine.word(0x00) == TOP && machine.s() == 0xFF;
    let keeps = machine.word(0x14) == 0x2143 && machine.word(TOP) == 0x6587;
    Ok(out == wanted && gives && stacks && keeps && count <= most)
}

// Copies, strings, and whole programs that call the functions of C's library.
use crate::calls::{Given, Left, call};
use crate::placing::{FIRST, MAIN, Runtime, placed_runtime, start_of};
use c65_base::{Cpu, Library, Refusal, Text};
use c65_code::Routine;
use c65_io::{mem_sink, mem_source};
use c65_mach::Image;
use c65_sim::{Budget, Run};
use std::alloc::Global;

const SOURCE: u16 = 0x9000;

const TARGET: u16 = 0xA000;

fn mark(index: u16) -> u8 {
    let [low, high] = index.wrapping_mul(167).wrapping_add(13).to_le_bytes();
    low ^ high
}

// 700 marks at the source, and other bytes at the target.
fn put_source(runtime: &mut Runtime) {
    for index in 0..700 {
        runtime
            .machine
            .write(SOURCE.wrapping_add(index), mark(index));
        runtime.machine.write(TARGET.wrapping_add(index), 0xEE);
    }
}

fn words(low: u16, high: u16) -> u32 {
    let [a, b] = low.to_le_bytes();
    let [c, d] = high.to_le_bytes();
    u32::from_le_bytes([a, b, c, d])
}

fn given(eax: u16, low: u16, high: u16) -> Given {
    Given {
        eax: u32::from(eax),
        y: 0,
        sp: 0xFA10,
        tos: words(low, high),
    }
}

// It left this sp and AX, kept the rest, and took few rows for so many bytes.
fn is_left(after: &Left, sp: u16, ax: u16, count: u16) -> bool {
    let most = u32::from(count).wrapping_mul(128).wrapping_add(256);
    let gives = after.sp == sp && after.eax % 65_536 == u32::from(ax);
    gives && after.keeps && after.rows <= most
}

// So many bytes are marks, or the byte that was filled in, and the next is as before.
fn has_bytes(runtime: &Runtime, count: u16, filled: bool) -> bool {
    for index in 0..count {
        let byte = runtime.machine.read(TARGET.wrapping_add(index));
        if byte != (if filled { 0x77 } else { mark(index) }) {
            return false;
        }
    }
    runtime.machine.read(TARGET.wrapping_add(count)) == 0xEE
}

/// Whether memcpy copies so many bytes.
pub fn copies(runtime: &mut Runtime, count: u16) -> Result<bool, Refusal> {
    put_source(runtime);
    let copy = Routine::Library(Library::Memcpy);
    let after = call(runtime, copy, given(count, SOURCE, TARGET))?;
    Ok(is_left(&after, 0xFA14, TARGET, count) && has_bytes(runtime, count, false))
}

/// Whether copytos does.
pub fn copies_structure(runtime: &mut Runtime, count: u16) -> Result<bool, Refusal> {
    put_source(runtime);
    runtime.machine.put_word(0x0C, count);
    let after = call(runtime, Routine::CopyTos, given(SOURCE, TARGET, 0))?;
    Ok(is_left(&after, 0xFA12, TARGET, count) && has_bytes(runtime, count, false))
}

/// Whether memset fills so many bytes with the low byte of its word.
pub fn fills(runtime: &mut Runtime, count: u16) -> Result<bool, Refusal> {
    put_source(runtime);
    let fill = Routine::Library(Library::Memset);
    let after = call(runtime, fill, given(count, 0xBB77, TARGET))?;
    Ok(is_left(&after, 0xFA14, TARGET, count) && has_bytes(runtime, count, true))
}

/// Whether memcpy to the byte behind the source carries the first byte all along, as an ascending copy does.
pub fn ascends(runtime: &mut Runtime, count: u16) -> Result<bool, Refusal> {
    put_source(runtime);
    let copy = Routine::Library(Library::Memcpy);
    let to = SOURCE.wrapping_add(1);
    let after = call(runtime, copy, given(count, SOURCE, to))?;
    for index in 0..=count {
        if runtime.machine.read(SOURCE.wrapping_add(index)) != mark(0) {
            return Ok(false);
        }
    }
    Ok(is_left(&after, 0xFA14, to, count))
}

fn put_string(runtime: &mut Runtime, at: u16, length: u16, last: u8) {
    for index in 0..length {
        runtime.machine.write(at.wrapping_add(index), 0x61);
    }
    runtime.machine.write(at.wrapping_add(length), last);
    runtime
        .machine
        .write(at.wrapping_add(length).wrapping_add(1), 0);
}

/// Whether strcmp of two strings, alike in so many bytes before these, gives this difference.
pub fn compares(
    runtime: &mut Runtime,
    length: u16,
    (left, right): (u8, u8),
    want: u16,
) -> Result<bool, Refusal> {
    put_string(runtime, SOURCE, length, left);
    put_string(runtime, TARGET, length, right);
    let compare = Routine::Library(Library::Strcmp);
    let after = call(runtime, compare, given(TARGET, SOURCE, 0))?;
    Ok(is_left(&after, 0xFA12, want, length))
}

/// Whether strcpy copies a string of this length with its zero byte and no more, and strlen measures it.
pub fn measures(runtime: &mut Runtime, length: u16) -> Result<bool, Refusal> {
    put_source(runtime);
    put_string(runtime, SOURCE, length, 0);
    let copy = Routine::Library(Library::Strcpy);
    let after = call(runtime, copy, given(SOURCE, TARGET, 0))?;
    let copied = is_left(&after, 0xFA12, TARGET, length);
    let ended = runtime.machine.read(TARGET.wrapping_add(length)) == 0;
    let behind = runtime
        .machine
        .read(TARGET.wrapping_add(length).wrapping_add(1))
        == 0xEE;
    let measure = Routine::Library(Library::Strlen);
    let after = call(runtime, measure, given(TARGET, 0, 0))?;
    Ok(copied && ended && behind && is_left(&after, 0xFA10, length, length))
}

// The bytes of main, with the addresses of two routines at two places.
struct Program {
    code: &'static [u8],
    first: (u16, Library),
    second: (u16, Library),
    third: (u16, Library),
}

fn image(alloc: Global, start: Routine, program: &Program) -> Result<Image, Refusal> {
    let mut runtime = placed_runtime(alloc)?;
    let mut at = MAIN;
    for byte in program.code {
        runtime.machine.write(at, *byte);
        at = at.wrapping_add(1);
    }
    for (offset, function) in [program.first, program.second, program.third] {
        let place = start_of(&runtime.starts, Routine::Library(function));
        runtime.machine.put_word(MAIN.wrapping_add(offset), place);
    }
    let mut payload = Vec::new(alloc);
    for at in FIRST..0x3100 {
        payload.push(runtime.machine.read(at))?;
    }
    Ok(Image {
        cpu: Cpu::Nmos,
        sp: 0,
        load: FIRST,
        reset: start_of(&runtime.starts, start),
        payload: Text::from_vec(payload),
    })
}

// Each byte of the input is written; then a string, and the status is 42.
const ECHO: Program = Program {
    code: &[
        0x20, 0, 0, 0xE0, 0xFF, 0xF0, 0x06, 0x20, 0, 0, 0x4C, 0x00, 0x30, 0xA9, 0x1A, 0xA2, 0x30,
        0x20, 0, 0, 0x18, 0x69, 0x2A, 0xA2, 0x00, 0x60, b'h', b'i', 0,
    ],
    first: (1, Library::Getchar),
    second: (8, Library::Putchar),
    third: (18, Library::Puts),
};

// argc and the first byte of argv[1] are added, and the sum is handed to exit.
const ADD: Program = Program {
    code: &[
        0x85, 0x08, 0x86, 0x09, 0xA0, 0x02, 0xB1, 0x08, 0x85, 0x0A, 0xC8, 0xB1, 0x08, 0x85, 0x0B,
        0xA0, 0x00, 0xB1, 0x0A, 0x18, 0x71, 0x00, 0xA2, 0x00, 0x20, 0, 0, 0x60,
    ],
    first: (25, Library::Exit),
    second: (25, Library::Exit),
    third: (25, Library::Exit),
};

fn ran(
    alloc: Global,
    start: Routine,
    program: &Program,
    output: &[u8],
) -> Result<Option<u8>, Refusal> {
    let args = vec![in alloc; Text::copy_of(alloc, b"a.c")?, Text::copy_of(alloc, b"x")?]?;
    let image = image(alloc, start, program)?;
    let mut run = Run::new(alloc, &image, &args)?;
    let mut input = mem_source(Vec::from_slice(alloc, b"a\x00\xFF")?, Vec::new(alloc));
    let mut out = mem_sink(alloc, Vec::new(alloc));
    let status = run.run(&mut input, &mut out, Budget::Instructions(20_000), true)?;
    if out.written() == output {
        Ok(Some(status))
    } else {
        Ok(None)
    }
}

/// The status of the program that echoes its input, where its output is right.
pub fn echoes(alloc: Global) -> Result<Option<u8>, Refusal> {
    ran(alloc, Routine::Start, &ECHO, b"a\x00\xFFhi\n")
}

/// The status of the program that adds its arguments.
pub fn adds(alloc: Global) -> Result<Option<u8>, Refusal> {
    ran(alloc, Routine::StartArgs, &ADD, b"")
}

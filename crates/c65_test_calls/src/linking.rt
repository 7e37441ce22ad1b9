// Codes made by hand, and the bytes of their images by the manual.
use c65_base::{Refusal, Text};
use c65_code::{
    Callee, Code, Datum, DatumKind, Draft, Items, Line, Operand, RegSet, Seg, Sym, Symbol,
    is_segment,
};
use c65_link::link;
use c65_mach::{Mode, Op};
use std::alloc::Global;

const BACK: Line = Line::Do(Op::Rts, Mode::Implied, Operand::Nothing);

// start, which calls main behind it.
const START: [u8; 15] = [
    0xA9, 0xF0, 0x85, 0, 0xA9, 0xFF, 0x85, 1, 0x20, 0x0F, 2, 0x20, 0xF9, 0xFF, 0x60,
];

// Bytes between a branch and its label, and whether the label is behind.
const BRANCHES: [(u8, bool); 8] = [
    (126, true),
    (127, true),
    (128, true),
    (129, true),
    (125, false),
    (126, false),
    (127, false),
    (129, false),
];

fn put(symbols: &mut Vec<Symbol>, alloc: Global, spelling: &[u8]) -> Result<(), Refusal> {
    symbols.push(Symbol {
        spelling: Text::copy_of(alloc, spelling)?,
        literal: false,
    })?;
    Ok(())
}

fn function(alloc: Global, lines: &[Line]) -> Result<Seg, Refusal> {
    let mut draft = Draft::new(alloc, RegSet::empty());
    for line in lines {
        draft.push(*line)?;
    }
    if is_segment(draft.lines()) {
        Ok(draft.close())
    } else {
        Err(Refusal::ReadFault)
    }
}

// `_main` with these lines, and a second symbol.
fn program(
    alloc: Global,
    lines: &[Line],
    other: &[u8],
    datums: Vec<Datum>,
) -> Result<Code, Refusal> {
    let mut symbols = Vec::new(alloc);
    put(&mut symbols, alloc, b"_main")?;
    put(&mut symbols, alloc, other)?;
    let functions = Vec::from_array(alloc, [(Sym(0), function(alloc, lines)?)])?;
    Ok(Code {
        symbols: Items::from_vec(symbols),
        functions: Items::from_vec(functions),
        datums: Items::from_vec(datums),
        main_args: false,
    })
}

fn payload(alloc: Global, code: &Code) -> Result<Vec<u8>, Refusal> {
    Ok(link(alloc, code)?.payload.into_vec())
}

// main: a branch over so many bytes, forward or backward.
fn branch_over(alloc: Global, count: u8, is_forward: bool) -> Result<Vec<u8>, Refusal> {
    let branch = Line::Do(Op::Bne, Mode::Relative, Operand::To(0));
    let mut lines = Vec::new(alloc);
    lines.push(if is_forward { branch } else { Line::Label(0) })?;
    for _ in 0..count {
        lines.push(Line::Do(Op::Nop, Mode::Implied, Operand::Nothing))?;
    }
    lines.push(if is_forward { Line::Label(0) } else { branch })?;
    lines.push(BACK)?;
    let code = program(alloc, &lines, b"s1", Vec::new(alloc))?;
    payload(alloc, &code)
}

// What stands behind the start.
fn behind_start(payload: &[u8]) -> &[u8] {
    payload.strip_prefix(&START).unwrap_or(b"")
}

fn zeros(sym: u32, zeros: u32, alloc: Global) -> Datum {
    Datum {
        sym: Sym(sym),
        kind: DatumKind::Zero,
        cells: Items::from_vec(Vec::new(alloc)),
        zeros,
    }
}

// The first bytes behind the start, and the last ones.
fn ends_of(bytes: &[u8]) -> (&[u8], &[u8]) {
    let behind = behind_start(bytes);
    let first = behind.get(..6).unwrap_or(behind);
    let last = bytes.len().saturating_sub(6);
    (first, bytes.get(last..).unwrap_or(bytes))
}

// A branch reaches from 128 bytes before its end to 127 behind it.
fn show_branches(rt: &HostRuntime) -> Result<(), anyhow::Error> {
    println!(rt; "= branches")?;
    for (count, is_forward) in BRANCHES {
        let bytes = branch_over(rt.alloc(), count, is_forward)?;
        let (first, last) = ends_of(&bytes);
        println!(rt; "over {count} forward {is_forward}: {first:?} {last:?}")?;
    }
    Ok(())
}

// What is answered for a code: the length of its payload, or the refusal.
fn show_size(rt: &HostRuntime, code: &Code) -> Result<(), anyhow::Error> {
    match payload(rt.alloc(), code) {
        Ok(bytes) => println!(rt; "{} bytes", bytes.len())?,
        Err(refusal) => println!(rt; "{refusal}")?,
    }
    Ok(())
}

// main with these lines and so many zero bytes.
fn with_zeros(alloc: Global, lines: &[Line], other: &[u8], count: u32) -> Result<Code, Refusal> {
    let datums = if count == 0 {
        Vec::new(alloc)
    } else {
        Vec::from_array(alloc, [zeros(1, count, alloc)])?
    };
    program(alloc, lines, other, datums)
}

pub fn show_links(rt: &HostRuntime) -> Result<(), anyhow::Error> {
    let alloc = rt.alloc();
    show_branches(rt)?;
    println!(rt; "= symbols and sizes")?;
    let call = Line::Call(Callee::Function(Sym(1), RegSet::empty(), RegSet::empty()));
    show_size(rt, &with_zeros(alloc, &[call, BACK], b"_f", 0)?)?;
    show_size(rt, &with_zeros(alloc, &[BACK], b"_f", 0)?)?;
    show_size(rt, &with_zeros(alloc, &[BACK], b"s1", 62_944)?)?;
    show_size(rt, &with_zeros(alloc, &[BACK], b"s1", 62_945)?)
}

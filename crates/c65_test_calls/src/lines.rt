// Names of routines there and back, and what lines read and set, by the manual and the table of routines.
use c65_code::{Callee, Count, Line, Operand, Part, RegSet, Routine, TosOp, Width};
use c65_mach::{Mode, Op};
use std::alloc::{AllocError, Global};

const NAMES: [&str; 13] = [
    "pusha",
    "pushax",
    "incsp8",
    "ldeaxysp",
    "tosaddax",
    "tosugeeax",
    "asreax1",
    "callptr4",
    "stkchk",
    "putchar",
    "hookexit",
    "pushax0",
    "PUSHAX",
];

const LINES: [Line; 11] = [
    Line::Do(Op::Adc, Mode::IndirectY, Operand::Zero(8)),
    Line::Do(Op::Sta, Mode::ZeroPage, Operand::Zero(16)),
    Line::Do(Op::Sta, Mode::ZeroPageX, Operand::Zero(16)),
    Line::Do(Op::Lda, Mode::IndirectX, Operand::Zero(16)),
    Line::Do(Op::Inc, Mode::ZeroPage, Operand::Zero(25)),
    Line::Do(Op::Rts, Mode::Implied, Operand::Nothing),
    Line::Call(Callee::Routine(Routine::PushAx)),
    Line::Call(Callee::Routine(Routine::IncSp(Count::Three))),
    Line::Call(Callee::Routine(Routine::LdAxYSp)),
    Line::Call(Callee::Routine(Routine::Tos(TosOp::Mul, Width::Eax))),
    Line::Call(Callee::Routine(Routine::LongAx)),
];

fn add(text: &mut String, is_in: bool, name: &str) -> Result<(), AllocError> {
    if is_in {
        text.push(' ')?;
        text.push_str(name)?;
    }
    Ok(())
}

/// The parts of a set: registers, flags and zero-page bytes.
fn parts_of(alloc: Global, set: RegSet) -> Result<String, AllocError> {
    let mut text = String::new(alloc);
    add(&mut text, set.has(Part::A), "A")?;
    add(&mut text, set.has(Part::X), "X")?;
    add(&mut text, set.has(Part::Y), "Y")?;
    add(&mut text, set.has(Part::N), "N")?;
    add(&mut text, set.has(Part::V), "V")?;
    add(&mut text, set.has(Part::Z), "Z")?;
    add(&mut text, set.has(Part::C), "C")?;
    for byte in 0..26 {
        if set.has(Part::Zp(byte)) {
            write!(text, " {byte}")?;
        }
    }
    Ok(text)
}

/// Prints what a line reads and sets, where the function gives A and X.
fn show_line(rt: &HostRuntime, line: Line, out: RegSet) -> Result<(), anyhow::Error> {
    let reads = parts_of(rt.alloc(), line.reads(out))?;
    let sets = parts_of(rt.alloc(), line.sets())?;
    println!(rt; "{line:?}")?;
    println!(rt; "  reads{reads}")?;
    println!(rt; "  sets{sets}")?;
    Ok(())
}

fn show_names(rt: &HostRuntime) -> Result<(), anyhow::Error> {
    println!(rt; "= names of routines")?;
    for name in NAMES {
        let found = Routine::by_name(name.as_bytes());
        println!(rt; "{name}: {found:?}")?;
    }
    Ok(())
}

pub fn show_lines(rt: &HostRuntime) -> Result<(), anyhow::Error> {
    show_names(rt)?;
    println!(rt; "= what lines read and set")?;
    let ax = RegSet::empty().with(Part::A).with(Part::X);
    for line in LINES {
        show_line(rt, line, ax)?;
    }
    show_line(rt, Line::Call(Callee::Pointer(ax, ax)), ax)
}

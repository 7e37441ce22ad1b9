//! Calls each routine of the runtime on a machine, and tells which do what they should.
//!
//! A line of the table `rows` is one of these. Numbers are hexadecimal; COUNT is a number of bytes.
//!
//! - `two NAME ROWS`, `one NAME ROWS`: an operator on two numbers or on one, at edge values and made values, against whole
//!   numbers, in at most so many rows
//! - `stack NAME Y MOVES EAX MASK AT COUNT BYTES`: with $44332211 in EAX and $88776655 at sp, at each low byte of sp
//! - `far NAME EAX TOS MOVES LEFT MASK BYTES`: a routine that goes through pointers; $0D0C0B0A lies at $9000
//! - `word AT`, `size`: a word of the zero page, and the bytes of the runtime
//! - `bank`: regbank to the stack and back
//! - `copy COUNT`, `ascend COUNT`, `compare LEFT RIGHT WANT`, `string COUNT`: copies and strings of so many bytes
//! - `alone NAME EAX TOS`: whether the routine leaves all other memory as it was
//! - `check SP ASKED S`: where the check of the stacks goes for so many bytes, with S before its call
//! - `programs`: programs that call the library over the hooks
//!
//! A line of the table `formats` is a call of printf: the format, the text that C's own printf writes for it, and the arguments,
//! with tabs between. An argument is `2` or `4`, for so many bytes, and a number, or `s` and a text.
#![tactic(auto)]

mod arithmetic;
mod calls;
mod checks;
mod library;
mod operators;
mod placing;
mod printing;
mod stack;
mod whole;
mod words;

use crate::checks::check;
use crate::library::{adds, ascends, compares, copies, copies_structure, echoes, fills, measures};
use crate::operators::{right_numbers, right_pairs};
use crate::placing::{FIRST, Runtime, placed_runtime};
use crate::printing::prints;
use crate::stack::{is_right_far, restores_bank, right_places, saves_bank};
use crate::whole::{fill, leaves_others};
use crate::words::Words;
use c65_base::Refusal;
use c65_code::Routine;
use std::fs;

/// How many calls of the named routine are right; none where there is no such routine.
fn count(runtime: &mut Runtime, kind: &str, name: &str, words: &mut Words) -> Result<u32, Refusal> {
    match (kind, Routine::by_name(name.as_bytes())) {
        ("two", Some(Routine::Tos(op, width))) => right_pairs(runtime, op, width, words.long()),
        ("one", Some(Routine::Unary(op, width))) => {
            right_numbers(runtime, op, width, words.long())
        }
        ("stack", Some(which)) => right_places(runtime, which, words),
        _ => Ok(0),
    }
}

/// Whether the named routine does what the line says.
fn holds(
    runtime: &mut Runtime,
    kind: &str,
    name: &str,
    words: &mut Words,
) -> Result<bool, Refusal> {
    match (kind, Routine::by_name(name.as_bytes())) {
        ("far", Some(which)) => is_right_far(runtime, which, words),
        ("alone", Some(which)) => leaves_others(runtime, which, words.long(), words.long()),
        _ => Ok(false),
    }
}

const LENGTHS: [u16; 5] = [0, 3, 255, 256, 300];

/// How many comparisons are right, of one at each length.
fn compare(runtime: &mut Runtime, words: &mut Words) -> Result<u32, Refusal> {
    let pair = (words.byte(), words.byte());
    let want = words.word();
    let mut right = 0_u32;
    for length in LENGTHS {
        if compares(runtime, length, pair, want)? {
            right = right.wrapping_add(1);
        }
    }
    Ok(right)
}

/// What a line that names no routine tells.
fn tell(rt: &HostRuntime, runtime: &mut Runtime, line: &str) -> Result<(), anyhow::Error> {
    let mut words = Words::new(line);
    match words.next_word() {
        "word" => println!(rt; "{line}: {:X}", runtime.machine.word(words.word()))?,
        "size" => println!(rt; "{line}: {}", runtime.end.wrapping_sub(FIRST) < 5_000)?,
        "bank" => println!(rt;
            "{line}: {} {}",
            saves_bank(runtime)?,
            restores_bank(runtime)?
        )?,
        "copy" => {
            let count = words.word();
            let (moved, structure) = (copies(runtime, count)?, copies_structure(runtime, count)?);
            println!(rt; "{line}: {moved} {structure} {}", fills(runtime, count)?)?;
        }
        "ascend" => println!(rt; "{line}: {}", ascends(runtime, words.word())?)?,
        "compare" => println!(rt; "{line}: {}", compare(runtime, &mut words)?)?,
        "string" => println!(rt; "{line}: {}", measures(runtime, words.word())?)?,
        "check" => {
            let (sp, asked, hard) = (words.word(), words.word(), words.byte());
            println!(rt; "{line}: {:?}", check(runtime, sp, asked, hard)?)?;
        }
        "fill" => fill(runtime),
        "programs" => println!(rt; "{line}: {:?} {:?}", echoes(rt.alloc())?, adds(rt.alloc())?)?,
        _ => {}
    }
    Ok(())
}

fn line(rt: &HostRuntime, runtime: &mut Runtime, line: &str) -> Result<(), anyhow::Error> {
    let mut words = Words::new(line);
    let kind = words.next_word();
    match kind {
        "two" | "one" | "stack" => {
            let name = words.next_word();
            println!(rt; "{line}: {}", count(runtime, kind, name, &mut words)?)?;
            Ok(())
        }
        "far" | "alone" => {
            let name = words.next_word();
            println!(rt; "{line}: {}", holds(runtime, kind, name, &mut words)?)?;
            Ok(())
        }
        _ => tell(rt, runtime, line),
    }
}

fn main(rt: HostRuntime) -> Result<(), anyhow::Error> {
    let rows = fs::read_to_string(&rt, "rows")?;
    let mut runtime = placed_runtime(rt.alloc())?;
    for text in rows.lines() {
        line(&rt, &mut runtime, text)?;
    }
    let formats = fs::read_to_string(&rt, "formats")?;
    for text in formats.lines() {
        let right = prints(rt.alloc(), &mut runtime, text)?;
        let (format, _) = text.split_once('\t').unwrap_or((text, ""));
        println!(rt; "print {format}: {right}")?;
    }
    Ok(())
}

//! Preprocesses the units of the table `rows`, over files in memory, and prints the tokens of each, or the line of its refusal.
//!
//! A line of the table is one of these; a TEXT may have `\n`, `\\` and `\xHH` in it:
//!
//! - `new N`: no files, folders or definitions; the call with number N that reads a file will fail, and none if it is 0
//! - `file PATH TEXT`, `more PATH N TEXT`: the text stands behind what the file has, once or N times
//! - `double PATH N`: what the file has stands in it twice, N times over
//! - `chain N`: `a.c` includes itself until N files are open, and the last one has the name `end`
//! - `folder PATH`, `define NAME TEXT`: a folder of the search, and a definition of the command line
//! - `unit TEXT`: the unit of `a.c` with this text; `unit` alone: of `a.c` as it stands
//! - `if TEXT`: that of an `#if` with this condition, which gives `y` or `n`
#![tactic(auto)]

mod desk;

use crate::desk::{Desk, told};
use c65_base::Refusal;
use c65_io::{HostSink, write_all};
use c65_test_words::{first_word, number, unescaped};
use std::alloc::Global;
use std::fs;

/// Makes `a.c` include itself until so many files are open.
fn chain(alloc: Global, desk: &mut Desk, count: u32) -> Result<(), Refusal> {
    for at in 1..count {
        let piece = format!(in alloc; "#ifndef m{at}\n#define m{at}\n#include \"a.c\"\n#endif\n")?;
        desk.add(alloc, "a.c", 1, piece.as_bytes())?;
    }
    desk.add(
        alloc,
        "a.c",
        1,
        b"#ifndef done\n#define done\nend\n#endif\n",
    )
}

/// Does a line that says what units are made of.
fn prepare(alloc: Global, desk: &mut Desk, name: &str, rest: &str) -> Result<(), Refusal> {
    let (first, text) = first_word(rest);
    match name {
        "new" => *desk = Desk::new(alloc, number(rest))?,
        "file" => desk.add(alloc, first, 1, &unescaped(alloc, text)?)?,
        "more" => {
            let (count, text) = first_word(text);
            desk.add(alloc, first, number(count), &unescaped(alloc, text)?)?;
        }
        "double" => desk.double(alloc, first, number(text))?,
        "chain" => chain(alloc, desk, number(rest))?,
        "folder" => desk.seek_in(alloc, rest)?,
        "define" => desk.define(alloc, first, unescaped(alloc, text)?)?,
        _ => {}
    }
    Ok(())
}

/// The unit of `a.c`, which has this text unless it is empty.
fn unit(alloc: Global, desk: &mut Desk, text: &str) -> Result<Vec<u8>, Refusal> {
    if !text.is_empty() {
        desk.put(alloc, "a.c", unescaped(alloc, text)?)?;
    }
    told(alloc, desk)
}

/// The unit of an `#if` with this condition.
fn condition(alloc: Global, desk: &mut Desk, text: &str) -> Result<Vec<u8>, Refusal> {
    let text = format!(in alloc; "#if {text}\\ny\\n#else\\nn\\n#endif\\n")?;
    unit(alloc, desk, text.as_str())
}

/// Does a line of the table.
fn line(rt: &HostRuntime, desk: &mut Desk, text: &str) -> Result<(), anyhow::Error> {
    let alloc = rt.alloc();
    let (name, rest) = first_word(text);
    let answer = match name {
        "unit" => unit(alloc, desk, rest)?,
        "if" => condition(alloc, desk, rest)?,
        _ => return Ok(prepare(alloc, desk, name, rest)?),
    };
    println!(rt; "{text}")?;
    let _ = write_all(&mut HostSink::new(rt.stdout()), &answer);
    Ok(())
}

fn main(rt: HostRuntime) -> Result<(), anyhow::Error> {
    let rows = fs::read_to_string(&rt, "rows")?;
    let mut desk = Desk::new(rt.alloc(), 0)?;
    for text in rows.lines() {
        line(&rt, &mut desk, text)?;
    }
    Ok(())
}

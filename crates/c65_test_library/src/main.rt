//! Does the commands of the table `rows`, with the files that lie beside it, and prints what each writes and its status.
//!
//! A line of the table is the words of a command and, behind a ` < `, the file that is its input.
#![tactic(auto)]

use c65_base::Refusal;
use c65_driver::{Made, tool};
use c65_io::{Files, HostFiles, HostSink, MemSink, mem_sink, mem_source, write_all};
use std::alloc::Global;
use std::fs;

/// What a command left.
#[derive(Drop)]
struct Left {
    status: u8,
    out: MemSink,
    err: MemSink,
}

/// Does a command over the files of the host.
fn perform<F: Files>(
    alloc: Global,
    files: &mut F,
    text: &str,
    input: Vec<u8>,
) -> Result<Left, Refusal> {
    let mut words = Vec::new(alloc);
    for word in text.split_whitespace() {
        words.push(String::from_str(alloc, word)?)?;
    }
    let mut input = mem_source(input, Vec::new(alloc));
    let mut out = mem_sink(alloc, Vec::new(alloc));
    let mut err = mem_sink(alloc, Vec::new(alloc));
    let mut made = Made::nothing();
    let outcome = tool(
        alloc, &words, files, &mut input, &mut out, &mut err, &mut made,
    );
    Ok(Left {
        status: outcome.code(),
        out,
        err,
    })
}

/// The words of a row and its input.
fn parts_of<'a>(rt: &HostRuntime, row: &'a str) -> Result<(&'a str, Vec<u8>), anyhow::Error> {
    match row.split_once(" < ") {
        Some((words, path)) => Ok((words, fs::read(rt, path)?)),
        None => Ok((row, Vec::new(rt.alloc()))),
    }
}

fn line(rt: &HostRuntime, row: &str) -> Result<(), anyhow::Error> {
    let mut files = HostFiles::new(rt);
    let (words, input) = parts_of(rt, row)?;
    println!(rt; "== {row}")?;
    let left = perform(rt.alloc(), &mut files, words, input)?;
    let mut console = HostSink::new(rt.stdout());
    let _ = write_all(&mut console, left.out.written());
    let _ = write_all(&mut console, left.err.written());
    println!(rt; "status {}", left.status)?;
    Ok(())
}

fn main(rt: HostRuntime) -> Result<(), anyhow::Error> {
    let rows = fs::read_to_string(&rt, "rows")?;
    for row in rows.lines() {
        line(&rt, row)?;
    }
    Ok(())
}

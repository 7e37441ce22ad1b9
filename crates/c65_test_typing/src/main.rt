//! Compiles the texts of the table `rows` up to their code, and prints what becomes of each.
//!
//! A line of the table is one of these; `\n` in a TEXT ends a line:
//!
//! - `= TEXT`: a heading
//! - `file PATH TEXT`: a file that later texts may include
//! - `beside TEXT`: the second unit of later texts
//! - `unit TEXT`: a first unit, compiled with the second one
//! - `trees`: types of syntax trees that no text stands behind
#![tactic(auto)]

mod trees;

use crate::trees::show_trees;
use c65_base::{Options, Refusal, Text};
use c65_driver_chain::compile;
use c65_io::{MemFiles, mem_files};
use std::alloc::{AllocError, Global};
use std::fs;

const FIRST: &str = "a.c";

const SECOND: &str = "b.c";

/// A text with its lines.
fn lines(alloc: Global, text: &str) -> Result<Vec<u8>, AllocError> {
    let mut bytes = Vec::new(alloc);
    for (i, line) in text.split("\\n").enumerate() {
        if i > 0 {
            bytes.push(b'\n')?;
        }
        bytes.extend_from_slice(line.as_bytes())?;
    }
    Ok(bytes)
}

fn put(alloc: Global, files: &mut MemFiles, path: &str, text: &str) -> Result<(), Refusal> {
    let bytes = lines(alloc, text)?;
    files.put(Vec::from_slice(alloc, path.as_bytes())?, bytes)
}

/// Why the two units are refused, if they are.
fn refused(alloc: Global, files: &mut MemFiles) -> Result<Option<Refusal>, Refusal> {
    let mut paths = Vec::new(alloc);
    paths.push(Text::copy_of(alloc, FIRST.as_bytes())?)?;
    paths.push(Text::copy_of(alloc, SECOND.as_bytes())?)?;
    Ok(compile(alloc, files, &Options::none(), &[], &[], &paths).err())
}

/// Does a line of the table.
fn line(rt: &HostRuntime, files: &mut MemFiles, text: &str) -> Result<(), anyhow::Error> {
    let alloc = rt.alloc();
    let (name, rest) = text.split_once(' ').unwrap_or((text, ""));
    match name {
        "file" => {
            let (path, text) = rest.split_once(' ').unwrap_or((rest, ""));
            put(alloc, files, path, text)?;
        }
        "beside" => put(alloc, files, SECOND, rest)?,
        "unit" => {
            put(alloc, files, FIRST, rest)?;
            println!(rt; "{text}")?;
            match refused(alloc, files)? {
                None => println!(rt; "  taken")?,
                Some(refusal) => println!(rt; "  {refusal}")?,
            }
        }
        "trees" => show_trees(rt)?,
        _ => println!(rt; "{text}")?,
    }
    Ok(())
}

fn main(rt: HostRuntime) -> Result<(), anyhow::Error> {
    let rows = fs::read_to_string(&rt, "rows")?;
    let mut files = mem_files(rt.alloc(), Vec::new(rt.alloc()));
    for text in rows.lines() {
        line(&rt, &mut files, text)?;
    }
    Ok(())
}

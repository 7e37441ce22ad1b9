//! Makes the stack certificates of the programs of the table `rows`, and prints them.
//!
//! A line of the table is one of these:
//!
//! - `= TEXT`: a heading
//! - `args N`: the bytes of the arguments of later programs
//! - `unit TEXT`: a program
//!
//! Under a program stand the rows of its certificate and whether it fits, or the function that has no bound. A
//! certificate of which one number is less by one must not be taken.
#![tactic(auto)]

mod front;

use crate::front::program_of;
use c65_base::{Names, Refusal};
use c65_csem::TProgram;
use c65_depth::{Cert, CertRow, certify, check, unbounded};
use std::alloc::{AllocError, Global};
use std::fs;

/// The spelling of a function.
fn name<'a>(program: &TProgram, names: &'a Names, func: u32) -> &'a str {
    let Some(found) = program.unit().parts().funcs.get(func as usize) else {
        return "?";
    };
    match names.spelling(found.name) {
        Some(spelling) => std::str::from_utf8(spelling).unwrap_or("?"),
        None => "?",
    }
}

/// A certificate with another row at a place.
fn with_row(alloc: Global, cert: &Cert, at: usize, row: CertRow) -> Result<Cert, AllocError> {
    let mut rows = Vec::new(alloc);
    for (i, other) in cert.rows.iter().enumerate() {
        rows.push(if i == at { row } else { *other })?;
    }
    Ok(Cert { rows })
}

/// Whether a program takes no certificate of which one number is less by one.
fn is_least(alloc: Global, program: &TProgram, cert: &Cert) -> Result<bool, Refusal> {
    for (i, row) in cert.rows.iter().enumerate() {
        let softer = CertRow {
            soft: row.soft.saturating_sub(1),
            ..*row
        };
        let harder = CertRow {
            hard: row.hard.saturating_sub(1),
            ..*row
        };
        let softer = with_row(alloc, cert, i, softer)?;
        let harder = with_row(alloc, cert, i, harder)?;
        if check(alloc, program, &softer, 0)? || check(alloc, program, &harder, 0)? {
            return Ok(false);
        }
    }
    Ok(true)
}

fn show(
    rt: &HostRuntime,
    program: &TProgram,
    names: &Names,
    args: u32,
) -> Result<(), anyhow::Error> {
    let alloc = rt.alloc();
    if let Some(func) = unbounded(alloc, program)? {
        let found = name(program, names, func);
        println!(rt; "  no bound {found}")?;
    }
    let Some(cert) = certify(alloc, program)? else {
        return Ok(());
    };
    for row in &cert.rows {
        let found = name(program, names, row.func);
        let (soft, hard) = (row.soft, row.hard);
        println!(rt; "  {found} {soft} {hard}")?;
    }
    if !is_least(alloc, program, &cert)? {
        println!(rt; "  a smaller number is taken")?;
    }
    if check(alloc, program, &cert, args)? {
        println!(rt; "  fits")?;
    } else {
        println!(rt; "  does not fit")?;
    }
    Ok(())
}

fn main(rt: HostRuntime) -> Result<(), anyhow::Error> {
    let rows = fs::read_to_string(&rt, "rows")?;
    let mut args: u32 = 0;
    for text in rows.lines() {
        println!(rt; "{text}")?;
        let (word, rest) = text.split_once(' ').unwrap_or((text, ""));
        match word {
            "args" => args = rest.parse::<u32>().unwrap_or(0),
            "unit" => match program_of(rt.alloc(), rest.as_bytes()) {
                Ok((program, names)) => show(&rt, &program, &names, args)?,
                Err(refusal) => println!(rt; "  {refusal}")?,
            },
            _ => {}
        }
    }
    Ok(())
}

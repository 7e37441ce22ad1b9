// The command `depth`: what the functions of a program take of the two stacks.
ghost use Rattle.std.specs.Prelude.{◌≡◌, ◌++◌, None, Some, IfOk, IfErr, OnOk, string_bytes};
ghost use Rattle.c65_csem.specs.Views.{unit_of};
ghost use Rattle.c65_depth.specs.Numbers.{certificate_of};
ghost use Rattle.c65_sim.specs.Runs.{WriteCause};
ghost use Rattle.c65_commands.specs.Depth;
ghost use Rattle.c65_commands.specs.Depth.{Joins, IsReport, Writes, Depths};
ghost use Rattle.c65_commands.specs.Outside.{files_side, text_side};

use crate::assembly::append_bytes;
use crate::compiled::{defines, folders, options, paths};
use crate::run::arguments;
use c65_base::{Refusal, Size, Text};
use c65_depth::{Cert, CertRow, certify, check, unbounded};
use c65_driver_chain::{Joined, join_files};
use c65_driver_words::Command;
use c65_io::{Files, Sink};
use c65_sim::arguments_size;
use std::alloc::{AllocError, Global};

/// The greatest size of a program's arguments.
const ARGUMENTS: u64 = 1_024;

/// The program that a command's files are.
fn joined_files<F: Files>(
    alloc: Global,
    files: &mut F,
    command: &Command,
) -> Result<Joined, Refusal>
    ensures { Joins command.now
        (files_side (F.contents files.old) (F.faults files.old) (F.write_faults files.old) (F.misses files.old))
        (files_side (F.contents files.new) (F.faults files.new) (F.write_faults files.new) (F.misses files.new))
        result }
{
    join_files(
        alloc,
        files,
        options(command),
        defines(command),
        folders(command),
        paths(command),
    )
}

/// The name of a function.
fn name_at(joined: &Joined, func: u32) -> &[u8]
    ensures { result.now ≡ Depth.name_at joined.now.names (unit_of joined.now.program.0) func }
{
    let Some(func) = joined.program.unit().parts().funcs.get(func as usize) else {
        return &[];
    };
    match joined.names.spelling(func.name) {
        Some(spelling) => spelling,
        None => &[],
    }
}

fn numbers_text(alloc: Global, soft: u64, hard: u64) -> Result<String, AllocError>
    ensures { IfOk result (λ text. string_bytes text ≡ Depth.numbers_text soft hard) }
{
    format!(in alloc; " {soft} {hard}\n")
}

/// Adds the line of a row.
fn add_row(alloc: Global, text: &mut Vec<u8>, name: &[u8], row: CertRow) -> Result<(), AllocError>
    ensures { OnOk result (text.new.items ≡ text.old.items ++ (name.now ++ Depth.numbers_text row.soft row.hard)) }
{
    let numbers = numbers_text(alloc, row.soft, row.hard)?;
    text.extend_from_slice(name)?;
    text.extend_from_slice(numbers.as_bytes())?;
    Ok(())
}

/// The lines of rows.
fn row_lines(alloc: Global, joined: &Joined, rows: &[CertRow]) -> Result<Vec<u8>, AllocError>
    ensures { IfOk result (λ text. text.items ≡ Depth.row_lines joined.now.names (unit_of joined.now.program.0) rows.now) }
{
    let mut text = Vec::new(alloc);
    for row in rows {
        add_row(alloc, &mut text, name_at(joined, row.func), *row)?;
    }
    Ok(text)
}

/// What the command writes, and its status.
#[derive(Drop)]
struct Report {
    text: Vec<u8>,
    status: u8,
}

fn verdict_line(fits: bool) -> &'static [u8]
    ensures { result.now ≡ Depth.verdict_line fits }
{
    if fits { b"fits\n" } else { b"does not fit\n" }
}

fn verdict_status(fits: bool) -> u8
    ensures { result ≡ Depth.verdict_status fits }
{
    if fits { 0 } else { 1 }
}

/// The rows of a certificate, and whether the program fits with so many bytes of arguments.
fn with_certificate(
    alloc: Global,
    joined: &Joined,
    cert: &Cert,
    size: u32,
) -> Result<Report, Refusal>
    ensures ok { IfOk result (λ r. IsReport joined.now.names (unit_of joined.now.program.0) joined.now.program.1 size (Some cert.now.rows.items) r.text.items r.status) }
    ensures refused { IfErr result (λ refusal. refusal ≡ Refusal.OutOfMemory) }
{
    let fits = match check(alloc, &joined.program, cert, size) {
        Ok(fits) => fits,
        Err(_) => return Err(Refusal::OutOfMemory),
    };
    let mut text = row_lines(alloc, joined, &cert.rows)?;
    text.extend_from_slice(verdict_line(fits))?;
    Ok(Report {
        text,
        status: verdict_status(fits),
    })
}

/// The line of a function without a bound.
fn unbounded_line(alloc: Global, joined: &Joined, func: Option<u32>) -> Result<Vec<u8>, AllocError>
    ensures { IfOk result (λ text. text.items ≡ Depth.unbounded_line joined.now.names (unit_of joined.now.program.0) func) }
{
    let mut text = Vec::new(alloc);
    if let Some(func) = func {
        text.extend_from_slice(b"no bound ")?;
        text.extend_from_slice(name_at(joined, func))?;
        text.push(b'\n')?;
    }
    Ok(text)
}

/// The first function without a bound.
fn without_certificate(alloc: Global, joined: &Joined, size: u32) -> Result<Report, Refusal>
    ensures ok { IfOk result (λ r. IsReport joined.now.names (unit_of joined.now.program.0) joined.now.program.1 size None r.text.items r.status) }
    ensures refused { IfErr result (λ refusal. refusal ≡ Refusal.OutOfMemory) }
{
    let func = match unbounded(alloc, &joined.program) {
        Ok(func) => func,
        Err(_) => return Err(Refusal::OutOfMemory),
    };
    let text = unbounded_line(alloc, joined, func)?;
    Ok(Report { text, status: 1 })
}

/// What the command says of a program with so many bytes of arguments.
fn reported(alloc: Global, joined: &Joined, size: u32) -> Result<Report, Refusal>
    ensures ok { IfOk result (λ r. IsReport joined.now.names (unit_of joined.now.program.0) joined.now.program.1 size (certificate_of (unit_of joined.now.program.0) joined.now.program.1) r.text.items r.status) }
    ensures refused { IfErr result (λ refusal. refusal ≡ Refusal.OutOfMemory) }
{
    let cert = match certify(alloc, &joined.program) {
        Ok(cert) => cert,
        Err(_) => return Err(Refusal::OutOfMemory),
    };
    match cert {
        Some(cert) => with_certificate(alloc, joined, &cert, size),
        None => without_certificate(alloc, joined, size),
    }
}

/// The bytes that a command's arguments take, up to the greatest u64.
fn size_of(alloc: Global, command: &Command) -> Result<u64, Refusal>
    ensures ok { IfOk result (λ size. size ≡ Depth.size_told command.now) }
    ensures refused { IfErr result (λ refusal. refusal ≡ Refusal.OutOfMemory) }
{
    let args = match arguments(alloc, &command.files, &command.args) {
        Ok(args) => args,
        Err(_) => return Err(Refusal::OutOfMemory),
    };
    Ok(arguments_size(&args))
}

/// Writes a report, and answers its status.
fn write_report<O: Sink>(out: &mut O, report: &Report) -> Result<u8, Refusal>
    ensures written { Writes report.now.text.items report.now.status (O.written out.old) (O.written out.new) result }
    ensures cause { WriteCause (O.faults out.old) (O.faults out.new) result }
{
    match append_bytes(out, &report.text) {
        Ok(_) => Ok(report.status),
        Err(refusal) => Err(refusal),
    }
}

/// Writes how much of the stacks each function of a command's files takes, and whether there is room for all of it.
pub fn depth<F: Files, O: Sink>(
    alloc: Global,
    command: &Command,
    files: &mut F,
    out: &mut O,
) -> Result<u8, Refusal>
    ensures { Depths command.now
        (text_side (F.contents files.old) (F.faults files.old) (F.write_faults files.old) (F.misses files.old) (O.written out.old) (O.faults out.old))
        (text_side (F.contents files.new) (F.faults files.new) (F.write_faults files.new) (F.misses files.new) (O.written out.new) (O.faults out.new))
        result }
{
    let joined = match joined_files(alloc, files, command) {
        Ok(joined) => joined,
        Err(refusal) => return Err(refusal),
    };
    let size = match size_of(alloc, command) {
        Ok(size) => size,
        Err(_) => return Err(Refusal::OutOfMemory),
    };
    if size > ARGUMENTS {
        return Err(Refusal::TooLarge {
            limit: Size::Arguments,
            value: size,
        });
    }
    match reported(alloc, &joined, size as u32) {
        Ok(report) => write_report(out, &report),
        Err(_) => Err(Refusal::OutOfMemory),
    }
}

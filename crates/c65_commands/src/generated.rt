// The generated program: its compilation, its run, and the line that says so.
ghost use Rattle.std.specs.Prelude.{◌≡◌, None, Ok, IfOk, IfErr, MatchResult, length, string_bytes};
ghost use Rattle.c65_biggen.specs.Generated.{generated_source};
ghost use Rattle.c65_io.specs.MemFiles.{held_by};
ghost use Rattle.c65_mach.specs.Images.{bytes_of};
ghost use Rattle.c65_commands.specs.Generated;
ghost use Rattle.c65_commands.specs.Generated.{source_alone, CompilesSource, RunsAlone, StopsAlone, TellsRun, Generates};

use crate::assembly::append_bytes;
use crate::compiled::make_image;
use crate::made::Made;
use c65_base::{Refusal, Text};
use c65_biggen::biggen;
use c65_driver_words::Command;
use c65_io::{MemFiles, Sink, mem_files, mem_sink, mem_source};
use c65_mach::Image;
use c65_sim::{Budget, Run};
use std::alloc::{AllocError, Global};

/// The path of the generated source.
const SOURCE: &[u8] = b"gen.c";

/// The command that compiles the source.
fn source_command(alloc: Global, command: &Command) -> Result<Command, Refusal>
    ensures ok { IfOk result (λ made. made ≡ Generated.source_command command.now) }
    ensures refused { IfErr result (λ refusal. refusal ≡ Refusal.OutOfMemory) }
{
    let mut files = Vec::new(alloc);
    files.push(Text::copy_of(alloc, SOURCE)?)?;
    Ok(Command {
        kind: command.kind,
        options: command.options,
        defines: Vec::new(alloc),
        folders: Vec::new(alloc),
        files,
        args: Vec::new(alloc),
        out: None,
        cycles: None,
        known: false,
        number: command.number,
    })
}

/// Files that hold the source alone.
fn source_files(alloc: Global, source: Vec<u8>) -> Result<MemFiles, Refusal>
    ensures ok { IfOk result (λ files. held_by files.files ≡ source_alone source.items) }
    ensures refused { IfErr result (λ refusal. refusal ≡ Refusal.OutOfMemory) }
{
    let path = Vec::from_slice(alloc, SOURCE)?;
    let mut files = mem_files(alloc, Vec::new(alloc));
    files.put(path, source)?;
    Ok(files)
}

/// A refusal of files and devices in memory, which have no fault but want of memory.
fn in_memory(refusal: Refusal) -> Refusal
    ensures { result ≡ Generated.in_memory refusal }
{
    match refusal {
        Refusal::Missing { .. } | Refusal::ReadFault | Refusal::WriteFault => Refusal::OutOfMemory,
        refusal => refusal,
    }
}

/// The image of the source.
fn source_image(
    alloc: Global,
    command: &Command,
    source: Vec<u8>,
    made: &mut Made,
) -> Result<Image, Refusal>
    requires { made.old.code ≡ None }
    ensures compiled { CompilesSource command.now source.items made.new.code result }
    ensures kept { made.new.image ≡ made.old.image }
{
    let command = match source_command(alloc, command) {
        Ok(command) => command,
        Err(_) => return Err(Refusal::OutOfMemory),
    };
    let mut files = match source_files(alloc, source) {
        Ok(files) => files,
        Err(_) => return Err(Refusal::OutOfMemory),
    };
    match make_image(alloc, &mut files, &command, made) {
        Ok(image) => Ok(image),
        Err(refusal) => Err(in_memory(refusal)),
    }
}

/// The rows of a run that ended, and its status.
#[derive(Clone, Copy, Debug)]
struct Ended {
    rows: u64,
    status: u8,
}

/// Runs an image without arguments and input. What it writes goes nowhere.
fn run_image(alloc: Global, image: &Image) -> Result<Ended, Refusal>
    ensures { MatchResult result (λ ended. RunsAlone image.now ended.rows (Ok ended.status)) (λ refusal. StopsAlone image.now refusal) }
{
    let mut run = match Run::new(alloc, image, &[]) {
        Ok(run) => run,
        Err(_) => return Err(Refusal::OutOfMemory),
    };
    let mut input = mem_source(Vec::new(alloc), Vec::new(alloc));
    let mut out = mem_sink(alloc, Vec::new(alloc));
    let answer = run.run(&mut input, &mut out, Budget::Instructions(u64::MAX), true);
    let rows = run.count();
    match answer {
        Ok(status) => Ok(Ended { rows, status }),
        Err(refusal) => Err(in_memory(refusal)),
    }
}

/// The bytes of an image's file.
fn file_size(alloc: Global, image: &Image) -> Result<usize, Refusal>
    ensures ok { IfOk result (λ size. size ≡ length (bytes_of image.now)) }
    ensures refused { IfErr result (λ refusal. refusal ≡ Refusal.OutOfMemory) }
{
    match image.bytes(alloc) {
        Ok(bytes) => Ok(bytes.len()),
        Err(_) => Err(Refusal::OutOfMemory),
    }
}

fn sizes_text(alloc: Global, number: u8, source: usize, image: usize) -> Result<String, AllocError>
    ensures { IfOk result (λ text. string_bytes text ≡ Generated.sizes_text number source image) }
{
    format!(in alloc; "functions {number} source {source} image {image}")
}

fn run_text(alloc: Global, rows: u64, status: u8) -> Result<String, AllocError>
    ensures { IfOk result (λ text. string_bytes text ≡ Generated.run_text rows status) }
{
    format!(in alloc; " instructions {rows} status {status}\n")
}

/// The line of the generated program and its run.
fn line_of(
    alloc: Global,
    number: u8,
    source: usize,
    image: usize,
    ended: Ended,
) -> Result<String, Refusal>
    ensures ok { IfOk result (λ line. string_bytes line ≡ Generated.gen_line number source image ended.rows ended.status) }
    ensures refused { IfErr result (λ refusal. refusal ≡ Refusal.OutOfMemory) }
{
    let mut line = sizes_text(alloc, number, source, image)?;
    let run = run_text(alloc, ended.rows, ended.status)?;
    line.push_str(&run)?;
    Ok(line)
}

/// Runs an image, and gives the line that says so.
fn told_run(alloc: Global, number: u8, source: usize, image: &Image) -> Result<String, Refusal>
    requires { source ≡ length (generated_source number) }
    ensures { MatchResult result (λ line. TellsRun number image.now (string_bytes line)) (λ refusal. StopsAlone image.now refusal) }
{
    let size = match file_size(alloc, image) {
        Ok(size) => size,
        Err(_) => return Err(Refusal::OutOfMemory),
    };
    let ended = match run_image(alloc, image) {
        Ok(ended) => ended,
        Err(refusal) => return Err(refusal),
    };
    match line_of(alloc, number, source, size, ended) {
        Ok(line) => Ok(line),
        Err(_) => Err(Refusal::OutOfMemory),
    }
}

fn number(command: &Command) -> u8
    ensures { result ≡ command.now.number }
{
    command.number
}

/// Compiles and links the generated program, runs it, and writes the line that says so.
pub fn generate<O: Sink>(
    alloc: Global,
    command: &Command,
    out: &mut O,
    made: &mut Made,
) -> Result<u8, Refusal>
    requires code { made.old.code ≡ None }
    requires image { made.old.image ≡ None }
    ensures { Generates command.now (O.written out.old) (O.written out.new) (O.faults out.old) (O.faults out.new) made.new.code made.new.image result }
{
    let number = number(command);
    let source = match biggen(alloc, number) {
        Ok(source) => source,
        Err(_) => return Err(Refusal::OutOfMemory),
    };
    let size = source.len();
    let image = match source_image(alloc, command, source, made) {
        Ok(image) => image,
        Err(refusal) => return Err(refusal),
    };
    let line = told_run(alloc, number, size, &image);
    made.image = Some(image);
    match line {
        Ok(line) => append_bytes(out, line.as_bytes()),
        Err(refusal) => Err(refusal),
    }
}

// From a command's files to their image, and the image's file.
ghost use Rattle.std.specs.Prelude.{◌≡◌};
ghost use Rattle.c65_mach.specs.Images.{bytes_of};
ghost use Rattle.c65_commands.specs.Compiled.{Compiles, IsOfSources, WritesImage, output_of};
ghost use Rattle.c65_commands.specs.Outside.{files_side};

use crate::assembly::read_back;
use crate::made::Made;
use c65_base::{Cpu, Options, Refusal, Text};
use c65_driver_chain::{Define, compile};
use c65_driver_words::Command;
use c65_io::{Failed, Files};
use c65_link::link_for;
use c65_mach::Image;
use c65_optimise::optimise;
use std::alloc::Global;

pub fn options(command: &Command) -> &Options
    ensures { result.now ≡ command.now.options }
{
    &command.options
}

fn processor(command: &Command) -> Cpu
    ensures { result ≡ command.now.options.cpu }
{
    command.options.cpu
}

pub fn defines(command: &Command) -> &[Define]
    ensures { result.now ≡ command.now.defines }
{
    &command.defines
}

pub fn folders(command: &Command) -> &[Text]
    ensures { result.now ≡ command.now.folders }
{
    &command.folders
}

pub fn paths(command: &Command) -> &[Text]
    ensures { result.now ≡ command.now.files }
{
    &command.files
}

/// The image of a command's files. The code is rewritten where that is asked for, and goes through its assembly text to the
/// linker; what the text reads as stays in `made`.
pub fn make_image<F: Files>(
    alloc: Global,
    files: &mut F,
    command: &Command,
    made: &mut Made,
) -> Result<Image, Refusal>
    requires { made.old.code ≡ None }
    ensures compiled { Compiles command.now.options.cpu command.now.folders command.now.files
        (files_side (F.contents files.old) (F.faults files.old) (F.write_faults files.old) (F.misses files.old))
        (files_side (F.contents files.new) (F.faults files.new) (F.write_faults files.new) (F.misses files.new))
        made.new.code result }
    ensures sources { IsOfSources command.now (F.contents files.old) made.new.code result }
    ensures kept { made.new.image ≡ made.old.image }
{
    let code = match compile(
        alloc,
        files,
        options(command),
        defines(command),
        folders(command),
        paths(command),
    ) {
        Ok(code) => code,
        Err(refusal) => return Err(refusal),
    };
    let code = match optimise(alloc, code, options(command)) {
        Ok(code) => code,
        Err(_) => return Err(Refusal::OutOfMemory),
    };
    let cpu = processor(command);
    let code = match read_back(alloc, &code, cpu) {
        Ok(code) => code,
        Err(_) => return Err(Refusal::OutOfMemory),
    };
    let linked = link_for(alloc, &code, cpu);
    made.code = Some(code);
    linked
}

/// The path of the image's file.
pub fn output(command: &Command) -> &[u8]
    ensures { result.now ≡ output_of command.now.out }
{
    match &command.out {
        Some(path) => path.as_slice(),
        None => b"a.out",
    }
}

/// Writes bytes to a file.
#[tactic(auto, using(crate::proofs::BuildLaws::wrote_all, crate::proofs::BuildLaws::wrote_some))]
pub fn write_bytes<F: Files>(files: &mut F, path: &[u8], bytes: &[u8]) -> Result<u8, Refusal>
    ensures { WritesImage path.now bytes.now
        (files_side (F.contents files.old) (F.faults files.old) (F.write_faults files.old) (F.misses files.old))
        (files_side (F.contents files.new) (F.faults files.new) (F.write_faults files.new) (F.misses files.new))
        result }
{
    match files.write(path, bytes) {
        Ok(()) => Ok(0),
        Err(Failed) => Err(Refusal::WriteFault),
    }
}

/// Writes the bytes of an image to a file.
pub fn write_image<F: Files>(
    alloc: Global,
    files: &mut F,
    path: &[u8],
    image: &Image,
) -> Result<u8, Refusal>
    ensures { WritesImage path.now (bytes_of image.now)
        (files_side (F.contents files.old) (F.faults files.old) (F.write_faults files.old) (F.misses files.old))
        (files_side (F.contents files.new) (F.faults files.new) (F.write_faults files.new) (F.misses files.new))
        result }
{
    match image.bytes(alloc) {
        Ok(bytes) => write_bytes(files, path, &bytes),
        Err(_) => Err(Refusal::OutOfMemory),
    }
}

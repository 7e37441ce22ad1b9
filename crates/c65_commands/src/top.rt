// What each command does.
ghost use Rattle.std.specs.Prelude.{◌≡◌, map, string_bytes};
ghost use Rattle.c65_driver_words.specs.Words.{spelling_of};
ghost use Rattle.c65_commands.specs.Tool.{Goes, Builds, Runs, Texts, Serves, Performs};
ghost use Rattle.c65_commands.specs.Outside.{files_side, text_side, outside};
ghost use Rattle.c65_commands.specs.Told.{first_of};

use crate::assembly::{is_known, made_text, write_text};
use crate::compiled::{make_image, output, write_image};
use crate::depth::depth;
use crate::generated::generate;
use crate::load::spelled_image;
use crate::made::Made;
use crate::run::Plan;
use c65_base::Refusal;
use c65_driver_words::{Command, CommandKind, spell};
use c65_io::{Files, Sink, Source};
use std::alloc::Global;

/// Compiles and links the files, and runs their image.
fn go<F: Files, I: Source, O: Sink>(
    alloc: Global,
    command: &Command,
    files: &mut F,
    input: &mut I,
    out: &mut O,
    made: &mut Made,
) -> Result<u8, Refusal>
    requires code { made.old.code ≡ None }
    requires image { made.old.image ≡ None }
    ensures { Goes command.now
        (outside (F.contents files.old) (F.faults files.old) (F.write_faults files.old) (F.misses files.old) (I.left input.old) (I.faults input.old) (O.written out.old) (O.faults out.old))
        (outside (F.contents files.new) (F.faults files.new) (F.write_faults files.new) (F.misses files.new) (I.left input.new) (I.faults input.new) (O.written out.new) (O.faults out.new))
        made.new.code made.new.image result }
{
    let plan = match Plan::of(alloc, true, command) {
        Ok(plan) => plan,
        Err(_) => return Err(Refusal::OutOfMemory),
    };
    let image = match make_image(alloc, files, command, made) {
        Ok(image) => image,
        Err(refusal) => return Err(refusal),
    };
    let answer = plan.run(alloc, &image, input, out);
    made.image = Some(image);
    answer
}

/// Compiles and links the files, and writes their image.
fn build<F: Files>(
    alloc: Global,
    command: &Command,
    files: &mut F,
    made: &mut Made,
) -> Result<u8, Refusal>
    requires code { made.old.code ≡ None }
    requires image { made.old.image ≡ None }
    ensures { Builds command.now
        (files_side (F.contents files.old) (F.faults files.old) (F.write_faults files.old) (F.misses files.old))
        (files_side (F.contents files.new) (F.faults files.new) (F.write_faults files.new) (F.misses files.new))
        made.new.code made.new.image result }
{
    let image = match make_image(alloc, files, command, made) {
        Ok(image) => image,
        Err(refusal) => return Err(refusal),
    };
    let answer = write_image(alloc, files, output(command), &image);
    made.image = Some(image);
    answer
}

/// Compiles and links the files, and writes the assembly text of their code, with what is known where that is asked for.
fn text<F: Files, O: Sink>(
    alloc: Global,
    command: &Command,
    files: &mut F,
    out: &mut O,
    made: &mut Made,
) -> Result<u8, Refusal>
    requires code { made.old.code ≡ None }
    requires image { made.old.image ≡ None }
    ensures { Texts command.now
        (text_side (F.contents files.old) (F.faults files.old) (F.write_faults files.old) (F.misses files.old) (O.written out.old) (O.faults out.old))
        (text_side (F.contents files.new) (F.faults files.new) (F.write_faults files.new) (F.misses files.new) (O.written out.new) (O.faults out.new))
        made.new.code made.new.image result }
{
    let image = match make_image(alloc, files, command, made) {
        Ok(image) => image,
        Err(refusal) => return Err(refusal),
    };
    made.image = Some(image);
    let text = match made_text(alloc, is_known(command), made) {
        Ok(text) => text,
        Err(_) => return Err(Refusal::OutOfMemory),
    };
    write_text(command, text.as_slice(), files, out)
}

/// The path of the image that a command runs.
fn image_path(command: &Command) -> &[u8]
    ensures { result.now ≡ first_of command.now.files }
{
    match command.files.first() {
        Some(path) => path.as_slice(),
        None => &[],
    }
}

/// Runs the image that a file spells.
fn run_image<F: Files, I: Source, O: Sink>(
    alloc: Global,
    command: &Command,
    files: &mut F,
    input: &mut I,
    out: &mut O,
    made: &mut Made,
) -> Result<u8, Refusal>
    requires code { made.old.code ≡ None }
    requires image { made.old.image ≡ None }
    ensures { Runs command.now
        (outside (F.contents files.old) (F.faults files.old) (F.write_faults files.old) (F.misses files.old) (I.left input.old) (I.faults input.old) (O.written out.old) (O.faults out.old))
        (outside (F.contents files.new) (F.faults files.new) (F.write_faults files.new) (F.misses files.new) (I.left input.new) (I.faults input.new) (O.written out.new) (O.faults out.new))
        made.new.code made.new.image result }
{
    let plan = match Plan::of(alloc, false, command) {
        Ok(plan) => plan,
        Err(_) => return Err(Refusal::OutOfMemory),
    };
    let image = match spelled_image(alloc, files, image_path(command)) {
        Ok(image) => image,
        Err(refusal) => return Err(refusal),
    };
    let answer = plan.run(alloc, &image, input, out);
    made.image = Some(image);
    answer
}

fn kind_of(command: &Command) -> CommandKind
    ensures { result ≡ command.now.kind }
{
    command.kind
}

/// Does what the words after the program's name say, as `tool` of c65_driver, but that the line of a refusal is not written. What
/// was made is left in `made`.
pub fn perform<F: Files, I: Source, O: Sink>(
    alloc: Global,
    words: &[String],
    files: &mut F,
    input: &mut I,
    out: &mut O,
    made: &mut Made,
) -> Result<u8, Refusal>
    ensures { Performs (spelling_of (map string_bytes words.now))
        (outside (F.contents files.old) (F.faults files.old) (F.write_faults files.old) (F.misses files.old) (I.left input.old) (I.faults input.old) (O.written out.old) (O.faults out.old))
        (outside (F.contents files.new) (F.faults files.new) (F.write_faults files.new) (F.misses files.new) (I.left input.new) (I.faults input.new) (O.written out.new) (O.faults out.new))
        made.new.code made.new.image result }
{
    made.code = None;
    made.image = None;
    let command = match spell(alloc, words) {
        Ok(command) => command,
        Err(refusal) => return Err(refusal),
    };
    match kind_of(&command) {
        CommandKind::Go => go(alloc, &command, files, input, out, made),
        CommandKind::Build => build(alloc, &command, files, made),
        CommandKind::Run => run_image(alloc, &command, files, input, out, made),
        CommandKind::Text => text(alloc, &command, files, out, made),
        CommandKind::Gen => generate(alloc, &command, out, made),
        CommandKind::Depth => depth(alloc, &command, files, out),
    }
}

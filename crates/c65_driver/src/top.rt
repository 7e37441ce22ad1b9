// The top call.
ghost use Rattle.std.specs.Prelude.{map, string_bytes};
ghost use Rattle.c65_driver_words.specs.Words.{spelling_of};
ghost use Rattle.c65_commands.specs.Tool.{Performs};
ghost use Rattle.c65_commands.specs.Outside.{outside};
ghost use Rattle.c65_driver.specs.Outcome.{answer_of};
ghost use Rattle.c65_driver.specs.Reports.{Reports};

use crate::outcome::Outcome;
use crate::report::write_line;
use c65_commands::{Made, perform};
use c65_io::{Files, Sink, Source};
use std::alloc::Global;

/// Does what the words after the program's name say: `go` compiles, links and runs files, `build` writes their image, `text`
/// writes the assembly text of their code, `run` runs an image, `gen` compiles, links and runs a program that it makes, and
/// writes a line of its sizes, and `depth` writes how much of the stacks the functions of files take. What was made is left in
/// `made`.
///
/// The line of a refusal goes to `err`, all of it unless `err` fails.
pub fn tool<F: Files, I: Source, O: Sink, E: Sink>(
    alloc: Global,
    words: &[String],
    files: &mut F,
    input: &mut I,
    out: &mut O,
    err: &mut E,
    made: &mut Made,
) -> Outcome
    ensures performed { Performs (spelling_of (map string_bytes words.now))
        (outside (F.contents files.old) (F.faults files.old) (F.write_faults files.old) (F.misses files.old) (I.left input.old) (I.faults input.old) (O.written out.old) (O.faults out.old))
        (outside (F.contents files.new) (F.faults files.new) (F.write_faults files.new) (F.misses files.new) (I.left input.new) (I.faults input.new) (O.written out.new) (O.faults out.new))
        made.new.code made.new.image (answer_of result) }
    ensures report { Reports (E.faults err.old) (E.faults err.new) (E.written err.old) (E.written err.new) (answer_of result) }
{
    match perform(alloc, words, files, input, out, made) {
        Ok(status) => Outcome::Done(status),
        Err(refusal) => {
            let _ = write_line(err, &refusal);
            Outcome::Refused(refusal)
        }
    }
}

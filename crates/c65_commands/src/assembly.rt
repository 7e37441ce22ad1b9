// The assembly text on the way to the linker, and where the command `text` writes it.
ghost use Rattle.std.specs.Prelude.{◌≡◌, Some, IfOk, IfErr};
ghost use Rattle.c65_commands.specs.Assembly;
ghost use Rattle.c65_commands.specs.Assembly.{IsTextOf, AppendsBytes, WritesText};
ghost use Rattle.c65_commands.specs.Compiled.{IsPrintedAs, IsRead, WriteServes};
ghost use Rattle.c65_commands.specs.Outside.{text_side};
ghost use Rattle.c65_sim.specs.Runs.{WriteCause};

use crate::compiled::write_bytes;
use crate::made::Made;
use c65_asm::{print, print_known, read_printed};
use c65_asm_fit::{is_writable, runs_on};
use c65_base::{Cpu, Refusal, Text};
use c65_code::Code;
use c65_driver_words::Command;
use c65_io::{Failed, Files, Sink, write_all};
use std::alloc::Global;

/// What a code's assembly text reads as: the code, with its symbols in the order of the text. That the code can be written, and that
/// the processor has its rows, is tested: where it were not so, want of memory stands.
pub fn read_back(alloc: Global, code: &Code, cpu: Cpu) -> Result<Code, Refusal>
    ensures read { IfOk result (λ read. IsPrintedAs cpu code.now read) }
    ensures again { IfOk result (λ read. IsRead cpu (Some read)) }
    ensures refused { IfErr result (λ refusal. refusal ≡ Refusal.OutOfMemory) }
{
    let Ok(true) = is_writable(alloc, code) else {
        return Err(Refusal::OutOfMemory);
    };
    if !runs_on(code, cpu) {
        return Err(Refusal::OutOfMemory);
    }
    let text = match print(alloc, code) {
        Ok(text) => text,
        Err(_) => return Err(Refusal::OutOfMemory),
    };
    match read_printed(alloc, &text, code) {
        Ok(code) => Ok(code),
        Err(_) => Err(Refusal::OutOfMemory),
    }
}

/// Whether the text is to say what is known.
pub fn is_known(command: &Command) -> bool
    ensures { result ≡ command.now.known }
{
    command.known
}

/// The assembly text of a code, with what is known before its instructions or without it.
fn printed(alloc: Global, known: bool, code: &Code) -> Result<Vec<u8>, Refusal>
    ensures ok { IfOk result (λ text. text.items ≡ Assembly.printed known code.now) }
    ensures refused { IfErr result (λ refusal. refusal ≡ Refusal.OutOfMemory) }
{
    if known {
        print_known(alloc, code)
    } else {
        print(alloc, code)
    }
}

/// The assembly text of the code that was made.
pub fn made_text(alloc: Global, known: bool, made: &Made) -> Result<Text, Refusal>
    ensures ok { IfOk result (IsTextOf known made.now.code) }
    ensures refused { IfErr result (λ refusal. refusal ≡ Refusal.OutOfMemory) }
{
    let Some(code) = &made.code else {
        return Err(Refusal::OutOfMemory);
    };
    match printed(alloc, known, code) {
        Ok(text) => Ok(Text::from_vec(text)),
        Err(_) => Err(Refusal::OutOfMemory),
    }
}

/// Writes bytes to the output.
pub fn append_bytes<O: Sink>(out: &mut O, bytes: &[u8]) -> Result<u8, Refusal>
    ensures served { WriteServes result }
    ensures written { AppendsBytes bytes.now (O.written out.old) (O.written out.new) result }
    ensures cause { WriteCause (O.faults out.old) (O.faults out.new) result }
{
    match write_all(out, bytes) {
        Ok(()) => Ok(0),
        Err(Failed) => Err(Refusal::WriteFault),
    }
}

/// Writes a text to the path of `-o`, or to the output.
#[tactic(auto, using(crate::proofs::PrintLaws::to_path, crate::proofs::PrintLaws::to_output))]
pub fn write_text<F: Files, O: Sink>(
    command: &Command,
    text: &[u8],
    files: &mut F,
    out: &mut O,
) -> Result<u8, Refusal>
    ensures { WritesText command.now.out text.now
        (text_side (F.contents files.old) (F.faults files.old) (F.write_faults files.old) (F.misses files.old) (O.written out.old) (O.faults out.old))
        (text_side (F.contents files.new) (F.faults files.new) (F.write_faults files.new) (F.misses files.new) (O.written out.new) (O.faults out.new))
        result }
{
    match &command.out {
        Some(path) => write_bytes(files, path.as_slice(), text),
        None => append_bytes(out, text),
    }
}

// Assembly text back to its code.
ghost use Rattle.std.specs.Prelude.{◌≡◌, [], Some, None, if◌then◌else◌, bytes_eq, IfOk, MatchResult, option_map};
ghost use Rattle.c65_code.specs.Writable.{IsWritable};
ghost use Rattle.c65_asm.specs.Text.{text_of};
ghost use Rattle.c65_asm.specs.Known.{known_text_of};
ghost use Rattle.c65_asm.specs.Renumbered.{IsOfTypes};
ghost use Rattle.c65_asm.specs.Back.{ReadsBack};
ghost use Rattle.c65_asm.specs.Reading.{start, step};
ghost use Rattle.c65_asm.specs.Noted.{parting, noted_answer, read_noted, IsTextOf};
ghost use Rattle.c65_asm.specs.Read.{seen, finished, seen_first, with_rest, first_line, at_end, lines_in, compared, read_text, RefusesText};

use crate::alike::are_alike;
use crate::notes::{counted, has_notes, next_number, parting, without_notes};
use crate::reader::Reader;
use crate::texts::printed;
use crate::words::cut;
use c65_base::{Code as Fault, Refusal, Text};
use c65_code::Code;
use std::alloc::{AllocError, Global};

/// What reading a text gives.
#[derive(Drop)]
pub enum Answer {
    Code(Code),
    /// The first line with which no text goes on, counted from 1.
    Line(u32),
}

// The text behind a line; none where no text goes on with it.
fn behind<'a>(
    reader: &mut Reader,
    line: &[u8],
    rest: &'a [u8],
) -> Result<Option<&'a [u8]>, AllocError>
    ensures { IfOk result (λ first. option_map (seen_first reader.new) first ≡ option_map (with_rest rest.now) (step (seen reader.old) line.now)) }
{
    if reader.put_line(line)? {
        Ok(Some(rest))
    } else {
        Ok(None)
    }
}

// The text behind the first line; none where no text begins so.
fn put_first_line<'a>(reader: &mut Reader, text: &'a [u8]) -> Result<Option<&'a [u8]>, AllocError>
    ensures { IfOk result (λ first. option_map (seen_first reader.new) first ≡ first_line (seen reader.old) text.now) }
{
    match cut(text, b'\n') {
        Some((line, rest)) => behind(reader, line, rest),
        None => Ok(None),
    }
}

fn at_end(reader: Reader, line: u32) -> Result<Answer, AllocError>
    ensures { IfOk result (λ answer. answer ≡ at_end line (finished (seen reader))) }
{
    let code = reader.finish()?;
    match code {
        Some(code) => Ok(Answer::Code(code)),
        None => Ok(Answer::Line(line)),
    }
}

fn read_lines(alloc: Global, text: &[u8]) -> Result<Answer, AllocError>
    ensures { IfOk result (λ answer. answer ≡ lines_in start 1 [] text.now) }
{
    let mut reader = Reader::new(alloc);
    let mut line = 1_u32;
    let mut rest = text;
    while rest.len() > 0 {
        match put_first_line(&mut reader, rest) {
            Ok(Some(after)) => {
                line = next_number(line);
                rest = after;
            }
            Ok(None) => {
                drop(reader);
                return Ok(Answer::Line(line));
            }
            Err(error) => {
                drop(reader);
                return Err(error);
            }
        }
    }
    at_end(reader, line)
}

fn is_text_of(alloc: Global, text: &[u8], code: &Code) -> Result<bool, AllocError>
    ensures { IfOk result (λ is_same. is_same ≡ bytes_eq (text_of code.now) text.now) }
{
    let print = printed(alloc, code, false)?;
    Ok(print.as_slice() == text)
}

// The answer, where its code has this text.
fn compared(alloc: Global, text: &[u8], answer: Answer) -> Result<Answer, AllocError>
    ensures { IfOk result (λ compared_answer. compared_answer ≡ compared text.now answer) }
{
    match answer {
        Answer::Code(code) => match is_text_of(alloc, text, &code) {
            Ok(true) => Ok(Answer::Code(code)),
            Ok(false) => {
                drop(code);
                Ok(Answer::Line(1))
            }
            Err(error) => {
                drop(code);
                Err(error)
            }
        },
        Answer::Line(line) => Ok(Answer::Line(line)),
    }
}

fn answer_to(alloc: Global, text: &[u8]) -> Result<Answer, AllocError>
    ensures { IfOk result (λ answer. answer ≡ read_text text.now) }
{
    let answer = read_lines(alloc, text)?;
    compared(alloc, text, answer)
}

// The number of the first line at which the text is not what is printed of the code with its notes; none where it is that.
fn parted(alloc: Global, text: &[u8], code: &Code) -> Result<Option<u32>, AllocError>
    ensures { IfOk result (λ line. line ≡ if bytes_eq text.now (known_text_of code.now) then None else Some (parting 1 text.now (known_text_of code.now))) }
{
    let print = printed(alloc, code, true)?;
    if text == print.as_slice() {
        Ok(None)
    } else {
        Ok(Some(parting(text, &print)))
    }
}

// The answer to a text with note lines, by that to its other lines: where those are a code's, it must be what is printed of that
// code with its notes.
fn noted_answer(alloc: Global, text: &[u8], answer: Answer) -> Result<Answer, AllocError>
    ensures { IfOk result (λ noted. noted ≡ noted_answer text.now answer) }
{
    match answer {
        Answer::Code(code) => match parted(alloc, text, &code) {
            Ok(None) => Ok(Answer::Code(code)),
            Ok(Some(line)) => {
                drop(code);
                Ok(Answer::Line(line))
            }
            Err(error) => {
                drop(code);
                Err(error)
            }
        },
        Answer::Line(line) => Ok(Answer::Line(counted(line, text))),
    }
}

fn noted_answer_to(alloc: Global, text: &[u8]) -> Result<Answer, AllocError>
    ensures { IfOk result (λ answer. answer ≡ read_noted text.now) }
{
    if !has_notes(text) {
        return answer_to(alloc, text);
    }
    let others = without_notes(alloc, text)?;
    let answer = answer_to(alloc, &others)?;
    noted_answer(alloc, text, answer)
}

// The answer to a text without note lines that is this code's: it is first held against that code, and is printed only where
// that differs.
fn compared_with(
    alloc: Global,
    text: &[u8],
    code: &Code,
    answer: Answer,
) -> Result<Answer, AllocError>
    requires { text_of code.now ≡ text.now }
    ensures { IfOk result (λ compared_answer. compared_answer ≡ compared text.now answer) }
{
    match answer {
        Answer::Code(read) => {
            if are_alike(code, &read) {
                Ok(Answer::Code(read))
            } else {
                compared(alloc, text, Answer::Code(read))
            }
        }
        Answer::Line(line) => Ok(Answer::Line(line)),
    }
}

fn refused(alloc: Global, line: u32) -> Result<Refusal, AllocError>
    ensures { IfOk result (λ refusal. RefusesText (Answer.Line line) refusal) }
{
    let file = Text::copy_of(alloc, b"<text>")?;
    Ok(Refusal::Source {
        code: Fault::AssemblyText,
        file,
        line,
    })
}

fn code_in(alloc: Global, answer: Answer) -> Result<Code, Refusal>
    ensures { MatchResult result (λ code. answer ≡ Answer.Code code) (λ refusal. RefusesText answer refusal) }
{
    match answer {
        Answer::Code(code) => Ok(code),
        Answer::Line(line) => {
            let refusal = refused(alloc, line)?;
            Err(refusal)
        }
    }
}

/// The code of an assembly text (docs/TEXT.md), with the symbols numbered in the order in which the text first names them.
/// So the text that `print` or `print_known` gives of a code is read as that code, with its symbols renumbered.
///
/// A text that neither writes for any code is refused as `AssemblyText` of the file `<text>`. Note lines are passed over and
/// counted, and the line is the first one with which no text of `print` goes on; where the other lines are such a text, it is the
/// first one at which the text is not that of `print_known`. Any other refusal is for want of memory.
pub fn read(alloc: Global, text: &[u8]) -> Result<Code, Refusal>
    ensures exact { MatchResult result (λ code. read_noted text.now ≡ Answer.Code code) (λ refusal. RefusesText (read_noted text.now) refusal) }
    ensures text { IfOk result (λ code. IsTextOf code text.now) }
    ensures printed { (code : _) → IsWritable code → IsOfTypes code → IsTextOf code text.now → ReadsBack code result }
{
    let answer = noted_answer_to(alloc, text)?;
    code_in(alloc, answer)
}

/// The same of a text that `print` gave of this code, in less time.
#[tactic(auto, using(crate::proofs::SoundLaws::text_is, crate::proofs::ReadLaws::back_is))]
pub fn read_printed(alloc: Global, text: &[u8], code: &Code) -> Result<Code, Refusal>
    requires { text_of code.now ≡ text.now }
    ensures exact { MatchResult result (λ code. read_text text.now ≡ Answer.Code code) (λ refusal. RefusesText (read_text text.now) refusal) }
    ensures text { IfOk result (λ code. text_of code ≡ text.now) }
    ensures printed { (code : _) → IsWritable code → IsOfTypes code → text_of code ≡ text.now → ReadsBack code result }
{
    let answer = read_lines(alloc, text)?;
    let answer = compared_with(alloc, text, code, answer)?;
    code_in(alloc, answer)
}

// A code as assembly text, with note lines or without.
ghost use Rattle.std.specs.Prelude.{◌≡◌, ◌++◌, OnOk, IfOk, IfErr};
ghost use Rattle.c65_asm.specs.Text.{function_with, functions_with, head_text, text_with, text_of};
ghost use Rattle.c65_asm.specs.Known.{body_by, known_text_of};

use crate::known::put_known_lines;
use crate::printing::{put_datums, put_lines, put_set, put_sym};
use c65_base::Refusal;
use c65_code::{Code, Seg, Sym, Symbol};
use std::alloc::{AllocError, Global};

fn put_body(
    out: &mut Vec<u8>,
    alloc: Global,
    symbols: &[Symbol],
    seg: &Seg,
    noted: bool,
) -> Result<(), AllocError>
    ensures { OnOk result (out.new.items ≡ out.old.items ++ body_by noted symbols.now seg.now) }
{
    if noted {
        put_known_lines(out, alloc, symbols, seg)
    } else {
        put_lines(out, alloc, symbols, seg.lines())
    }
}

fn put_function(
    out: &mut Vec<u8>,
    alloc: Global,
    symbols: &[Symbol],
    function: &(Sym, Seg),
    noted: bool,
) -> Result<(), AllocError>
    ensures { OnOk result (out.new.items ≡ out.old.items ++ function_with (body_by noted) symbols.now function.now) }
{
    out.extend_from_slice(b".code ")?;
    put_sym(out, symbols, function.0)?;
    out.extend_from_slice(b",")?;
    put_set(out, alloc, function.1.out())?;
    out.extend_from_slice(b"\n")?;
    put_body(out, alloc, symbols, &function.1, noted)?;
    out.extend_from_slice(b".end\n")
}

fn put_functions(
    out: &mut Vec<u8>,
    alloc: Global,
    symbols: &[Symbol],
    functions: &[(Sym, Seg)],
    noted: bool,
) -> Result<(), AllocError>
    ensures { OnOk result (out.new.items ≡ out.old.items ++ functions_with (body_by noted) symbols.now functions.now) }
{
    for function in functions {
        put_function(out, alloc, symbols, function, noted)?;
    }
    Ok(())
}

fn head(main_args: bool) -> &'static [u8]
    ensures { result.now ≡ head_text main_args }
{
    if main_args {
        b"; c65 text 1 args\n"
    } else {
        b"; c65 text 1\n"
    }
}

pub fn printed(alloc: Global, code: &Code, noted: bool) -> Result<Vec<u8>, AllocError>
    ensures { IfOk result (λ text. text.items ≡ text_with (body_by noted) code.now) }
{
    let mut text = Vec::from_slice(alloc, head(code.main_args))?;
    put_functions(
        &mut text,
        alloc,
        code.symbols.as_slice(),
        code.functions.as_slice(),
        noted,
    )?;
    put_datums(&mut text, code.symbols.as_slice(), code.datums.as_slice())?;
    Ok(text)
}

/// The assembly text of a code (docs/TEXT.md). It refuses for want of memory alone.
pub fn print(alloc: Global, code: &Code) -> Result<Vec<u8>, Refusal>
    ensures ok { IfOk result (λ text. text.items ≡ text_of code.now) }
    ensures refused { IfErr result (λ refusal. refusal ≡ Refusal.OutOfMemory) }
{
    Ok(printed(alloc, code, false)?)
}

/// The assembly text of a code with a note line before each instruction of which something is known (docs/TEXT.md). It
/// refuses for want of memory alone.
pub fn print_known(alloc: Global, code: &Code) -> Result<Vec<u8>, Refusal>
    ensures ok { IfOk result (λ text. text.items ≡ known_text_of code.now) }
    ensures refused { IfErr result (λ refusal. refusal ≡ Refusal.OutOfMemory) }
{
    Ok(printed(alloc, code, true)?)
}

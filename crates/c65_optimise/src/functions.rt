// The rules over each function of a code.
ghost use Rattle.std.specs.Prelude.{◌≡◌, All, IfOk, IfErr};
ghost use Rattle.c65_base.specs.declared.refusal.Refusal.TheVariants.{OutOfMemory};
ghost use Rattle.c65_optimise.specs.Optimised.{IsByteOperand, HasByte, IsRewritten, AreRewritten, OptimisedBy};

use crate::families::rewrite;
use c65_base::{Options, Refusal};
use c65_code::{Code, Items, Line, Literals, Operand, Seg, Sym, literals};
use c65_know::{Noted, annotate};
use c65_optlib::inline_calls;
use std::alloc::Global;

fn is_byte(operand: Operand)
    ensures { IsByteOperand operand }
{
    match operand {
        Operand::Byte(_) => {}
        Operand::Nothing | Operand::Low(_, _) | Operand::High(_, _) => {}
        Operand::Zero(_) | Operand::At(_, _) | Operand::To(_) => {}
    }
}

fn has_byte(line: Line)
    ensures { HasByte line }
{
    match line {
        Line::Do(_, _, operand) => is_byte(operand),
        Line::Label(_) | Line::Call(_) => {}
    }
}

/// The numbers in lines are bytes, as in all lines that there are.
fn have_bytes(lines: &[Line])
    ensures { All HasByte lines.now }
{
    for line in lines {
        has_byte(*line);
    }
}

/// The lines of a function, rewritten.
fn optimised(
    alloc: Global,
    seg: Seg,
    literals: &Literals,
    options: &Options,
) -> Result<Seg, Refusal>
    ensures rewritten { IfOk result (IsRewritten options.now literals.now.items seg) }
    ensures refused { IfErr result (λ refusal. refusal ≡ OutOfMemory) }
{
    have_bytes(seg.lines());
    let mut noted = annotate(alloc, seg)?;
    inline_calls(alloc, &mut noted, literals, options)?;
    rewrite(alloc, &mut noted, options)?;
    Ok(noted.into_seg())
}

fn optimised_functions(
    alloc: Global,
    functions: Vec<(Sym, Seg)>,
    literals: &Literals,
    options: &Options,
) -> Result<Vec<(Sym, Seg)>, Refusal>
    ensures rewritten { IfOk result (λ new. AreRewritten options.now literals.now.items functions.items new.items) }
    ensures refused { IfErr result (λ refusal. refusal ≡ OutOfMemory) }
{
    let mut new = Vec::new(alloc);
    for (sym, seg) in functions {
        let seg = optimised(alloc, seg, literals, options)?;
        new.push((sym, seg))?;
    }
    Ok(new)
}

/// The code, rewritten where the options ask for it: each function by itself, its calls opened first as the options ask for that
/// too, until no rule for their processor matches anywhere in it. It refuses for want of memory alone.
pub fn optimise(alloc: Global, code: Code, options: &Options) -> Result<Code, Refusal>
    ensures rewritten { IfOk result (OptimisedBy options.now code) }
    ensures refused { IfErr result (λ refusal. refusal ≡ OutOfMemory) }
{
    if !options.optimise {
        return Ok(code);
    }
    let literals = literals(alloc, &code)?;
    let Code {
        symbols,
        functions,
        datums,
        main_args,
    } = code;
    let functions = optimised_functions(alloc, functions.into_vec(), &literals, options)?;
    Ok(Code {
        symbols,
        functions: Items::from_vec(functions),
        datums,
        main_args,
    })
}

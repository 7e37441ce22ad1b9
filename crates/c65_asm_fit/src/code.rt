// Whether a whole code can be written.
ghost use Rattle.std.specs.Prelude.{◌≡◌, ◌↔◌, ◌&&◌, [], All, IfOk, IsTrue, length};
ghost use Rattle.c65_code.specs.Writable.{IsWritable};
ghost use Rattle.c65_asm.specs.Renumbered.{IsOfTypes};
ghost use Rattle.c65_asm_fit.specs.Fit.{defined, ArePartsFit, IsSpelled, IsFunctionFit, IsDatumFit};
ghost use Rattle.c65_asm_fit.specs.Once.{comes_once, has_number};

use crate::datums::are_datums_fit;
use crate::functions::are_functions_fit;
use crate::symbols::{are_spelled, have_own_spelling};
use c65_code::{Code, Datum, Seg, Sym};
use indexmap::IndexSet;
use std::alloc::{AllocError, Global};

/// Whether no number comes twice.
fn are_once(alloc: Global, numbers: &[u32]) -> Result<bool, AllocError>
    ensures { IfOk result (λ so. so ≡ comes_once has_number [] numbers.now) }
{
    let mut seen = IndexSet::new(alloc);
    for number in numbers {
        let (_, is_new) = seen.insert_full(*number)?;
        if !is_new {
            return Ok(false);
        }
    }
    Ok(true)
}

/// The numbers of the symbols that functions and data define.
fn defined(
    alloc: Global,
    functions: &[(Sym, Seg)],
    datums: &[Datum],
) -> Result<Vec<u32>, AllocError>
    ensures { IfOk result (λ numbers. numbers.items ≡ defined functions.now datums.now) }
{
    let mut numbers = Vec::new(alloc);
    for function in functions {
        numbers.push(function.0.0)?;
    }
    for datum in datums {
        numbers.push(datum.sym.0)?;
    }
    Ok(numbers)
}

fn is_defined_once(alloc: Global, code: &Code) -> Result<bool, AllocError>
    ensures { IfOk result (λ so. so ≡ comes_once has_number [] (defined code.now.functions code.now.datums)) }
{
    let numbers = defined(alloc, code.functions.as_slice(), code.datums.as_slice())?;
    are_once(alloc, &numbers)
}

fn has_symbols(code: &Code) -> bool
    ensures { IsTrue result ↔ All IsSpelled code.now.symbols }
{
    are_spelled(code.symbols.as_slice())
}

fn has_functions(code: &Code) -> bool
    ensures { IsTrue result ↔ All (IsFunctionFit (length code.now.symbols)) code.now.functions }
{
    are_functions_fit(code.symbols.as_slice().len(), code.functions.as_slice())
}

fn has_datums(code: &Code) -> bool
    ensures { IsTrue result ↔ All (IsDatumFit (length code.now.symbols)) code.now.datums }
{
    are_datums_fit(code.symbols.as_slice().len(), code.datums.as_slice())
}

fn all_three(first: bool, second: bool, third: bool) -> bool
    ensures { result ≡ (first && (second && third)) }
{
    first && second && third
}

/// Whether each part can be written by itself.
fn are_parts_fit(code: &Code) -> bool
    ensures { IsTrue result ↔ ArePartsFit code.now }
{
    all_three(has_symbols(code), has_functions(code), has_datums(code))
}

/// Whether a code can be written as assembly text. That its numbers are of their types holds of each code that there is. It takes
/// memory for the spellings and for the numbers of what is defined.
pub fn is_writable(alloc: Global, code: &Code) -> Result<bool, AllocError>
    ensures { IfOk result (λ so. IsTrue so ↔ (IsWritable code.now × IsOfTypes code.now)) }
{
    let parts = are_parts_fit(code);
    let own = have_own_spelling(alloc, code.symbols.as_slice())?;
    let once = is_defined_once(alloc, code)?;
    Ok(all_three(parts, own, once))
}

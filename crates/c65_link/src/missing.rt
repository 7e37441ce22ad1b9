// The first used symbol without a body.
ghost use Rattle.std.specs.Prelude.{◌≡◌, slice_get, IfOk};
ghost use Rattle.c65_link.specs.Symbols.{is_nowhere, missing, missing_in_lines, missing_in_functions, missing_in_cells, missing_in_datums, main_in, is_main_missing, missing_in_code, missing_of, spelling_of};

use crate::symbols::{Target, in_cell, in_line};
use c65_base::Text;
use c65_code::{Code, DataCell, Datum, Line, Seg, Sym, Symbol};
use std::alloc::{AllocError, Global};

fn is_missing_at(targets: &[Target], at: usize) -> bool
    ensures { result ≡ is_nowhere (slice_get targets.now at) }
{
    match targets.get(at) {
        Some(Target::Own | Target::Runtime(_)) => false,
        Some(Target::Nowhere) | None => true,
    }
}

fn missing_sym(targets: &[Target], used: Option<Sym>) -> Option<Sym>
    ensures { result ≡ missing targets.now used }
{
    let sym = used?;
    if is_missing_at(targets, sym.0 as usize) {
        Some(sym)
    } else {
        None
    }
}

fn in_lines(targets: &[Target], lines: &[Line]) -> Option<Sym>
    ensures { result ≡ missing_in_lines targets.now lines.now }
{
    for line in lines {
        if let Some(sym) = missing_sym(targets, in_line(line)) {
            return Some(sym);
        }
    }
    None
}

fn in_functions(targets: &[Target], functions: &[(Sym, Seg)]) -> Option<Sym>
    ensures { result ≡ missing_in_functions targets.now functions.now }
{
    for function in functions {
        if let Some(sym) = in_lines(targets, function.1.lines()) {
            return Some(sym);
        }
    }
    None
}

fn in_cells(targets: &[Target], cells: &[DataCell]) -> Option<Sym>
    ensures { result ≡ missing_in_cells targets.now cells.now }
{
    for cell in cells {
        if let Some(sym) = missing_sym(targets, in_cell(cell)) {
            return Some(sym);
        }
    }
    None
}

fn in_datums(targets: &[Target], datums: &[Datum]) -> Option<Sym>
    ensures { result ≡ missing_in_datums targets.now datums.now }
{
    for datum in datums {
        if let Some(sym) = in_cells(targets, datum.cells.as_slice()) {
            return Some(sym);
        }
    }
    None
}

fn is_main_missing(targets: &[Target], main: Option<usize>) -> bool
    ensures { result ≡ is_main_missing targets.now main }
{
    match main {
        Some(main) => is_missing_at(targets, main),
        None => true,
    }
}

fn in_code(code: &Code, targets: &[Target]) -> Option<Sym>
    ensures { result ≡ missing_in_code code.now targets.now }
{
    match in_functions(targets, code.functions.as_slice()) {
        Some(sym) => Some(sym),
        None => in_datums(targets, code.datums.as_slice()),
    }
}

fn spelling(alloc: Global, symbols: &[Symbol], sym: Sym) -> Result<Text, AllocError>
    ensures { IfOk result (λ text. text ≡ spelling_of (slice_get symbols.now sym.0)) }
{
    match symbols.get(sym.0 as usize) {
        Some(symbol) => symbol.spelling.copy(alloc),
        None => Ok(Text::from_vec(Vec::new(alloc))),
    }
}

/// The spelling of the first used symbol without a body. The first that is used is main's.
pub fn first_missing(
    alloc: Global,
    code: &Code,
    targets: &[Target],
    main: Option<usize>,
) -> Result<Option<Text>, AllocError>
    requires { main ≡ main_in code.now.symbols 0 }
    ensures { IfOk result (λ name. name ≡ missing_of code.now targets.now) }
{
    if is_main_missing(targets, main) {
        return Ok(Some(Text::copy_of(alloc, b"_main")?));
    }
    match in_code(code, targets) {
        Some(sym) => Ok(Some(spelling(alloc, code.symbols.as_slice(), sym)?)),
        None => Ok(None),
    }
}

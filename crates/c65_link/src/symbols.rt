// What stands for each symbol of a code.
ghost use Rattle.std.specs.Prelude.{◌≡◌, OnOk, IfOk, ◌+◌, ◌++◌, codes, bytes_eq, slice_get, slice_set};
ghost use Rattle.c65_base.specs.Library.{library_name, library_functions};
ghost use Rattle.c65_code.specs.Placement.{library_named};
ghost use Rattle.c65_link.specs.Symbols.{named_target, named_targets, with_functions, with_datums, targets_of, operand_symbol, callee_symbol, line_symbol, cell_symbol, main_in};

use c65_base::Library;
use c65_code::{Callee, Code, DataCell, Datum, Line, Operand, Seg, Sym, Symbol};
use std::alloc::{AllocError, Global};

/// What stands for a symbol.
#[derive(Clone, Copy, Debug, PartialEq, Eq)]
pub enum Target {
    /// Nothing: it has no body.
    Nowhere,
    /// A function or a datum of the code.
    Own,
    /// The runtime's routine.
    Runtime(Library),
}

const FUNCTIONS: [Library; 10] = [
    Library::Putchar,
    Library::Getchar,
    Library::Puts,
    Library::Exit,
    Library::Memcpy,
    Library::Memset,
    Library::Strcmp,
    Library::Strcpy,
    Library::Strlen,
    Library::Printf,
];

// Whether it is an underscore and the function's name.
fn is_named(spelling: &[u8], function: Library) -> bool
    ensures { result ≡ bytes_eq (codes "_" ++ library_name function) spelling.now }
{
    let Some((first, rest)) = spelling.split_first() else {
        return false;
    };
    *first == b'_' && function.name() == rest
}

fn among(functions: &[Library], spelling: &[u8]) -> Option<Library>
    ensures { result ≡ library_named functions.now spelling.now }
{
    for function in functions {
        if is_named(spelling, *function) {
            return Some(*function);
        }
    }
    None
}

fn library(spelling: &[u8]) -> Option<Library>
    ensures { result ≡ library_named library_functions spelling.now }
{
    among(&FUNCTIONS, spelling)
}

fn named(symbol: &Symbol) -> Target
    ensures { result ≡ named_target symbol.now }
{
    match library(symbol.spelling.as_slice()) {
        Some(function) => Target::Runtime(function),
        None => Target::Nowhere,
    }
}

fn all_named(alloc: Global, symbols: &[Symbol]) -> Result<Vec<Target>, AllocError>
    ensures { IfOk result (λ targets. targets.items ≡ named_targets symbols.now) }
{
    let mut targets = Vec::new(alloc);
    for symbol in symbols {
        targets.push(named(symbol))?;
    }
    Ok(targets)
}

#[tactic(auto, using(std::proofs::lemmas::List::set_past))]
fn own(targets: &mut [Target], sym: Sym)
    ensures { targets.new ≡ slice_set targets.old sym.0 Target.Own }
{
    let at = sym.0 as usize;
    if at < targets.len() {
        targets[at] = Target::Own;
    }
}

fn own_functions(targets: &mut [Target], functions: &[(Sym, Seg)])
    ensures { targets.new ≡ with_functions targets.old functions.now }
{
    for function in functions {
        own(targets, function.0);
    }
}

fn own_datums(targets: &mut [Target], datums: &[Datum])
    ensures { targets.new ≡ with_datums targets.old datums.now }
{
    for datum in datums {
        own(targets, datum.sym);
    }
}

/// What stands for each symbol, by its number.
pub fn targets(alloc: Global, code: &Code) -> Result<Vec<Target>, AllocError>
    ensures { IfOk result (λ targets. targets.items ≡ targets_of code.now) }
{
    let mut targets = all_named(alloc, code.symbols.as_slice())?;
    own_functions(&mut targets, code.functions.as_slice());
    own_datums(&mut targets, code.datums.as_slice());
    Ok(targets)
}

/// The symbol of an operand.
pub fn in_operand(operand: Operand) -> Option<Sym>
    ensures { result ≡ operand_symbol operand }
{
    match operand {
        Operand::Low(sym, _) | Operand::High(sym, _) | Operand::At(sym, _) => Some(sym),
        _ => None,
    }
}

fn in_callee(callee: &Callee) -> Option<Sym>
    ensures { result ≡ callee_symbol callee.now }
{
    match callee {
        Callee::Function(sym, _, _) => Some(*sym),
        _ => None,
    }
}

/// The symbol of a line.
pub fn in_line(line: &Line) -> Option<Sym>
    ensures { result ≡ line_symbol line.now }
{
    match line {
        Line::Label(_) => None,
        Line::Do(_, _, operand) => in_operand(*operand),
        Line::Call(callee) => in_callee(callee),
    }
}

/// The symbol of a cell of data.
pub fn in_cell(cell: &DataCell) -> Option<Sym>
    ensures { result ≡ cell_symbol cell.now }
{
    match cell {
        DataCell::Byte(_) => None,
        DataCell::Address(sym, _) => Some(*sym),
    }
}

/// The number of main's symbol.
pub fn main_symbol(symbols: &[Symbol]) -> Option<usize>
    ensures { result ≡ main_in symbols.now 0 }
{
    for (at, symbol) in symbols.iter().enumerate() {
        if symbol.spelling.as_slice() == b"_main".as_slice() {
            return Some(at);
        }
    }
    None
}

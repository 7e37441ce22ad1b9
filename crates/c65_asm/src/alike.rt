// Whether two codes have one text, by their parts and not by their texts: symbols may have other numbers in the one than in
// the other. A code that was read is held so against the one that was printed, which takes a small part of the time that a
// second text would.
ghost use Rattle.std.specs.Prelude.{◌≡◌, IsTrue};
ghost use Rattle.c65_asm.specs.Text.{mnemonic_of, before, behind, sym_text, operand_text, callee_text, line_text, lines_text, body_text, function_with, functions_with, datum_by, datums_text, text_of};
ghost use Rattle.c65_asm.specs.Alike.{HaveOneCell, HaveOneCells};

use crate::mnemonic::mnemonic;
use crate::printing::{closing, opening};
use c65_code::{Callee, Code, DataCell, Datum, Line, Operand, RegSet, Seg, Sym, Symbol};
use c65_mach::{Mode, Op};

fn spelling(symbols: &[Symbol], sym: Sym) -> &[u8]
    ensures { result.now ≡ sym_text symbols.now sym }
{
    match symbols.get(sym.0 as usize) {
        Some(symbol) => symbol.spelling.as_slice(),
        None => b"",
    }
}

fn are_one_symbol(ours: &[Symbol], sym: Sym, theirs: &[Symbol], other: Sym) -> bool
    ensures { IsTrue result → sym_text ours.now sym ≡ sym_text theirs.now other }
{
    spelling(ours, sym) == spelling(theirs, other)
}

fn have_one_operand(ours: &[Symbol], operand: Operand, theirs: &[Symbol], other: Operand) -> bool
    ensures { IsTrue result → operand_text ours.now operand ≡ operand_text theirs.now other }
{
    match (operand, other) {
        (Operand::Nothing, Operand::Nothing) => true,
        (Operand::Byte(value), Operand::Byte(equal)) => value == equal,
        (Operand::Zero(at), Operand::Zero(equal)) => at == equal,
        (Operand::To(label), Operand::To(equal)) => label == equal,
        (Operand::Low(sym, offset), Operand::Low(named, equal)) => {
            offset == equal && are_one_symbol(ours, sym, theirs, named)
        }
        (Operand::High(sym, offset), Operand::High(named, equal)) => {
            offset == equal && are_one_symbol(ours, sym, theirs, named)
        }
        (Operand::At(sym, offset), Operand::At(named, equal)) => {
            offset == equal && are_one_symbol(ours, sym, theirs, named)
        }
        _ => false,
    }
}

fn are_one_set(set: RegSet, other: RegSet) -> bool
    ensures { IsTrue result → set ≡ other }
{
    set == other
}

fn have_one_callee(ours: &[Symbol], callee: Callee, theirs: &[Symbol], other: Callee) -> bool
    ensures { IsTrue result → callee_text ours.now callee ≡ callee_text theirs.now other }
{
    match (callee, other) {
        (Callee::Routine(which), Callee::Routine(equal)) => which.name() == equal.name(),
        (Callee::Function(sym, reads, gives), Callee::Function(named, passed, given)) => {
            are_one_set(reads, passed)
                && are_one_set(gives, given)
                && are_one_symbol(ours, sym, theirs, named)
        }
        (Callee::Pointer(reads, gives), Callee::Pointer(passed, given)) => {
            are_one_set(reads, passed) && are_one_set(gives, given)
        }
        _ => false,
    }
}

fn have_one_mnemonic(op: Op, other: Op) -> bool
    ensures { IsTrue result → mnemonic_of op ≡ mnemonic_of other }
{
    mnemonic(op) == mnemonic(other)
}

fn have_one_mode(mode: Mode, other: Mode) -> bool
    ensures { IsTrue result → (before mode ≡ before other) × (behind mode ≡ behind other) }
{
    opening(mode) == opening(other) && closing(mode) == closing(other)
}

fn have_one_line(ours: &[Symbol], line: Line, theirs: &[Symbol], other: Line) -> bool
    ensures { IsTrue result → line_text ours.now line ≡ line_text theirs.now other }
{
    match (line, other) {
        (Line::Label(label), Line::Label(equal)) => label == equal,
        (Line::Do(op, mode, operand), Line::Do(same_op, same_mode, worked_on)) => {
            have_one_mnemonic(op, same_op)
                && have_one_mode(mode, same_mode)
                && have_one_operand(ours, operand, theirs, worked_on)
        }
        (Line::Call(callee), Line::Call(called)) => have_one_callee(ours, callee, theirs, called),
        _ => false,
    }
}

fn have_one_lines(ours: &[Symbol], lines: &[Line], theirs: &[Symbol], others: &[Line]) -> bool
    ensures { IsTrue result → lines_text ours.now lines.now ≡ lines_text theirs.now others.now }
{
    let mut rest = lines;
    let mut beside = others;
    while let Some((line, more)) = rest.split_first() {
        let Some((other, behind)) = beside.split_first() else {
            return false;
        };
        if !have_one_line(ours, *line, theirs, *other) {
            return false;
        }
        rest = more;
        beside = behind;
    }
    beside.is_empty()
}

fn have_one_function(
    ours: &[Symbol],
    function: &(Sym, Seg),
    theirs: &[Symbol],
    other: &(Sym, Seg),
) -> bool
    ensures { IsTrue result → function_with body_text ours.now function.now ≡ function_with body_text theirs.now other.now }
{
    are_one_symbol(ours, function.0, theirs, other.0)
        && are_one_set(function.1.out(), other.1.out())
        && have_one_lines(ours, function.1.lines(), theirs, other.1.lines())
}

fn have_one_functions(
    ours: &[Symbol],
    functions: &[(Sym, Seg)],
    theirs: &[Symbol],
    others: &[(Sym, Seg)],
) -> bool
    ensures { IsTrue result → functions_with body_text ours.now functions.now ≡ functions_with body_text theirs.now others.now }
{
    let mut rest = functions;
    let mut beside = others;
    while let Some((function, more)) = rest.split_first() {
        let Some((other, behind)) = beside.split_first() else {
            return false;
        };
        if !have_one_function(ours, function, theirs, other) {
            return false;
        }
        rest = more;
        beside = behind;
    }
    beside.is_empty()
}

fn have_one_cell(ours: &[Symbol], cell: DataCell, theirs: &[Symbol], other: DataCell) -> bool
    ensures { IsTrue result → HaveOneCell ours.now cell theirs.now other }
{
    match (cell, other) {
        (DataCell::Byte(value), DataCell::Byte(equal)) => value == equal,
        (DataCell::Address(sym, offset), DataCell::Address(named, equal)) => {
            offset == equal && are_one_symbol(ours, sym, theirs, named)
        }
        _ => false,
    }
}

fn have_one_cells(
    ours: &[Symbol],
    cells: &[DataCell],
    theirs: &[Symbol],
    others: &[DataCell],
) -> bool
    ensures { IsTrue result → HaveOneCells ours.now cells.now theirs.now others.now }
{
    let mut rest = cells;
    let mut beside = others;
    while let Some((cell, more)) = rest.split_first() {
        let Some((other, behind)) = beside.split_first() else {
            return false;
        };
        if !have_one_cell(ours, *cell, theirs, *other) {
            return false;
        }
        rest = more;
        beside = behind;
    }
    beside.is_empty()
}

fn have_one_datum(ours: &[Symbol], datum: &Datum, theirs: &[Symbol], other: &Datum) -> bool
    ensures { IsTrue result → datum_by ours.now datum.now.kind datum.now ≡ datum_by theirs.now other.now.kind other.now }
{
    datum.kind == other.kind
        && datum.zeros == other.zeros
        && are_one_symbol(ours, datum.sym, theirs, other.sym)
        && have_one_cells(ours, datum.cells.as_slice(), theirs, other.cells.as_slice())
}

fn have_one_datums(ours: &[Symbol], datums: &[Datum], theirs: &[Symbol], others: &[Datum]) -> bool
    ensures { IsTrue result → datums_text ours.now datums.now ≡ datums_text theirs.now others.now }
{
    let mut rest = datums;
    let mut beside = others;
    while let Some((datum, more)) = rest.split_first() {
        let Some((other, behind)) = beside.split_first() else {
            return false;
        };
        if !have_one_datum(ours, datum, theirs, other) {
            return false;
        }
        rest = more;
        beside = behind;
    }
    beside.is_empty()
}

/// Whether two codes are alike but for the numbers of their symbols. Codes that are alike have one text.
pub fn are_alike(code: &Code, other: &Code) -> bool
    ensures { IsTrue result → text_of code.now ≡ text_of other.now }
{
    let ours = code.symbols.as_slice();
    let theirs = other.symbols.as_slice();
    code.main_args == other.main_args
        && have_one_functions(
            ours,
            code.functions.as_slice(),
            theirs,
            other.functions.as_slice(),
        )
        && have_one_datums(
            ours,
            code.datums.as_slice(),
            theirs,
            other.datums.as_slice(),
        )
}

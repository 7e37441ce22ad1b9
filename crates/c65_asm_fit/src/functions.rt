// Whether the lines of functions can be written.
ghost use Rattle.std.specs.Prelude.{◌≡◌, ◌↔◌, All, IsTrue};
ghost use Rattle.c65_code.specs.Parts.{minus_of, union_of, no_parts};
ghost use Rattle.c65_code.specs.Effects.{ax, only_y, sreg_bytes};
ghost use Rattle.c65_code.specs.Writable.{IsKnown, IsDirect, IsLetters, IsCalleeKnown, AreCallLetters};
ghost use Rattle.c65_asm_fit.specs.Fit.{IsOperandFit, IsLineFit, IsFunctionFit};

use c65_code::{Callee, Line, Operand, Part, RegSet, Seg, Sym};
use c65_mach::Mode;

pub fn is_known(count: usize, sym: Sym) -> bool
    ensures { IsTrue result ↔ IsKnown count sym }
{
    (sym.0 as usize) < count
}

fn is_same(set: RegSet, other: RegSet) -> bool
    ensures { IsTrue result ↔ (set ≡ other) }
{
    set == other
}

/// What a set has beside A, X and Y.
fn beside_registers(set: RegSet) -> RegSet
    ensures { result ≡ minus_of set (union_of ax only_y) }
{
    set.minus(RegSet::of(&[Part::A, Part::X]).union(RegSet::of(&[Part::Y])))
}

fn is_empty(set: RegSet) -> bool
    ensures { IsTrue result ↔ (set ≡ no_parts) }
{
    is_same(set, RegSet::empty())
}

fn is_sreg(set: RegSet) -> bool
    ensures { IsTrue result ↔ (set ≡ sreg_bytes) }
{
    is_same(set, RegSet::zero_bytes(2, 4))
}

/// Whether a set has both bytes of sreg or none, and beside them A, X and Y at most.
#[tactic(auto, using(crate::proofs::Letters::letters_then, crate::proofs::Letters::letters_else))]
fn are_letters(set: RegSet) -> bool
    ensures { IsTrue result ↔ IsLetters set }
{
    let rest = beside_registers(set);
    is_empty(rest) || is_sreg(rest)
}

fn is_direct(mode: Mode) -> bool
    ensures { IsTrue result ↔ IsDirect mode }
{
    match mode {
        Mode::Indirect => false,
        _ => true,
    }
}

fn is_operand_fit(count: usize, operand: Operand) -> bool
    ensures { IsTrue result ↔ IsOperandFit count operand }
{
    match operand {
        Operand::Low(sym, _) | Operand::High(sym, _) | Operand::At(sym, _) => is_known(count, sym),
        Operand::Nothing | Operand::Byte(_) | Operand::Zero(_) | Operand::To(_) => true,
    }
}

fn is_callee_fit(count: usize, callee: Callee) -> bool
    ensures { IsTrue result ↔ (IsCalleeKnown count callee × AreCallLetters callee) }
{
    match callee {
        Callee::Routine(_) => true,
        Callee::Function(sym, reads, gives) => {
            is_known(count, sym) && are_letters(reads) && are_letters(gives)
        }
        Callee::Pointer(reads, gives) => are_letters(reads) && are_letters(gives),
    }
}

fn is_line_fit(count: usize, line: Line) -> bool
    ensures { IsTrue result ↔ IsLineFit count line }
{
    match line {
        Line::Label(_) => true,
        Line::Do(_, mode, operand) => is_direct(mode) && is_operand_fit(count, operand),
        Line::Call(callee) => is_callee_fit(count, callee),
    }
}

fn are_lines_fit(count: usize, lines: &[Line]) -> bool
    ensures { IsTrue result ↔ All (IsLineFit count) lines.now }
{
    lines.iter().all(|line| is_line_fit(count, *line))
}

fn is_function_fit(count: usize, function: &(Sym, Seg)) -> bool
    ensures { IsTrue result ↔ IsFunctionFit count function.now }
{
    let (sym, seg) = function;
    is_known(count, *sym) && are_letters(seg.out()) && are_lines_fit(count, seg.lines())
}

pub fn are_functions_fit(count: usize, functions: &[(Sym, Seg)]) -> bool
    ensures { IsTrue result ↔ All (IsFunctionFit count) functions.now }
{
    functions
        .iter()
        .all(|function| is_function_fit(count, function))
}

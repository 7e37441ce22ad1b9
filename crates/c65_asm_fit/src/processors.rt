// Whether a processor has the rows of all lines.
ghost use Rattle.std.specs.Prelude.{◌≡◌, ◌↔◌, All, IsTrue};
ghost use Rattle.std.specs.List.{list_all};
ghost use Rattle.c65_code.specs.Segments.{is_added_row};
ghost use Rattle.c65_code.specs.Processors.{is_nmos_line, IsNmos, RunsOn};

use c65_base::Cpu;
use c65_code::{Code, Line, Seg, Sym};
use c65_mach::{Mode, Op};

/// What the 65C02 adds and a line may have.
fn is_added_row(op: Op, mode: Mode) -> bool
    ensures { result ≡ is_added_row op mode }
{
    match (op, mode) {
        (Op::Stz, Mode::ZeroPage | Mode::Absolute) => true,
        (Op::Inc | Op::Dec, Mode::Accumulator) => true,
        (Op::Lda | Op::Sta, Mode::ZeroPageIndirect) => true,
        _ => false,
    }
}

fn is_nmos_line(line: Line) -> bool
    ensures { result ≡ is_nmos_line line }
{
    match line {
        Line::Do(op, mode, _) => !is_added_row(op, mode),
        Line::Label(_) | Line::Call(_) => true,
    }
}

fn are_nmos_lines(lines: &[Line]) -> bool
    ensures { result ≡ list_all is_nmos_line lines.now }
{
    for line in lines {
        if !is_nmos_line(*line) {
            return false;
        }
    }
    true
}

fn is_nmos_function(function: &(Sym, Seg)) -> bool
    ensures { result ≡ list_all is_nmos_line function.now.1.lines }
{
    are_nmos_lines(function.1.lines())
}

fn are_nmos_functions(functions: &[(Sym, Seg)]) -> bool
    ensures { IsTrue result ↔ All (λ f. IsTrue (list_all is_nmos_line f.1.lines)) functions.now }
{
    functions.iter().all(|function| is_nmos_function(function))
}

fn is_nmos(code: &Code) -> bool
    ensures { IsTrue result ↔ IsNmos code.now }
{
    are_nmos_functions(code.functions.as_slice())
}

/// Whether a processor has the rows of all lines of a code.
pub fn runs_on(code: &Code, cpu: Cpu) -> bool
    ensures { IsTrue result ↔ RunsOn cpu code.now }
{
    match cpu {
        Cpu::Nmos => is_nmos(code),
        Cpu::Cmos => true,
    }
}

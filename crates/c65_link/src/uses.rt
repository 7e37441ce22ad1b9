// Which of the runtime's routines a program uses.
ghost use Rattle.std.specs.Prelude.{◌≡◌, ◌++◌, [], IsTrue, OnOk, IfOk, Some};
ghost use Rattle.c65_link.specs.Runtime.{has_lines, routine_lines, no_marks, marked, is_marked, with_callee, with_call, with_calls, with_routine, with_routines, chosen_by};
ghost use Rattle.c65_link.specs.Symbols.{with_target, with_symbol, with_line_uses, with_function_uses, with_cell_uses, with_datum_uses, with_code_uses};

use crate::symbols::{Target, in_cell, in_line};
use c65_code::{Callee, Code, DataCell, Datum, Line, Routine, Seg, Sym};
use c65_rtl::{is_narrow, routine};
use c65_rtlwide::{is_wide, wide_routine};
use c65_va::{is_printf, printf_routine};
use std::alloc::{AllocError, Global};
use std::marker::Model;

fn is_written(which: Routine) -> bool
    ensures { result ≡ has_lines which }
{
    is_wide(which) || is_printf(which) || is_narrow(which)
}

/// A routine with its lines.
#[derive(Drop)]
pub struct Part {
    which: Routine,
    seg: Seg,
}

impl Model for Part {
    ghost use Rattle.std.specs.Prelude.{◌≡◌};
    ghost use Rattle.c65_code.specs.declared.routine.Routine.{Routine};
    ghost use Rattle.c65_link.specs.Runtime.{routine_lines};

    ghost Value = { Routine };

    ghost view = { λ p. p.which };

    ghost invariant = { λ p. p.seg.lines ≡ routine_lines p.which };
}

impl Part {
    /// The routine with its lines. A hook has none.
    pub fn of(alloc: Global, which: Routine) -> Result<Part, AllocError>
        requires { IsTrue (has_lines which) }
        ensures { IfOk result (λ part. part ≡ which) }
    {
        let seg = if is_wide(which) {
            wide_routine(alloc, which)
        } else if is_printf(which) {
            printf_routine(alloc)
        } else {
            routine(alloc, which)
        };
        match seg {
            Ok(seg) => Ok(Part { which, seg }),
            Err(_) => Err(AllocError),
        }
    }

    pub fn which(&self) -> Routine
        ensures { result ≡ self.now }
    {
        self.which
    }

    pub fn lines(&self) -> &[Line]
        ensures { result.now ≡ routine_lines self.now }
    {
        self.seg.lines()
    }
}

/// Which routines are used, and of these the ones that were taken so far.
#[derive(Drop)]
pub struct Chosen {
    marks: [bool; Routine::COUNT],
    parts: Vec<Part>,
}

impl Model for Chosen {
    ghost use Rattle.std.specs.Prelude.{◌≡◌, length};
    ghost use Rattle.c65_link.specs.Runtime.{Chosen};

    ghost Value = { Chosen };

    ghost view = { λ c. record { marks = c.marks; parts = c.parts.items } };

    ghost invariant = { λ c. length c.marks ≡ 123 };
}

impl Chosen {
    pub fn new(alloc: Global) -> Chosen
        ensures marks { result.marks ≡ no_marks }
        ensures parts { result.parts ≡ [] }
    {
        Chosen {
            marks: [false; Routine::COUNT],
            parts: Vec::new(alloc),
        }
    }

    pub fn parts(&self) -> &[Part]
        ensures { result.now ≡ self.now.parts }
    {
        &self.parts
    }

    fn mark(&mut self, which: Routine)
        ensures { self.new ≡ record self.old { marks = marked self.old.marks which } }
    {
        self.marks[which.number()] = true;
    }

    fn is_marked(&self, which: Routine) -> bool
        ensures { result ≡ is_marked self.now.marks which }
    {
        self.marks[which.number()]
    }

    fn mark_call(&mut self, line: &Line)
        ensures { self.new ≡ record self.old { marks = with_call self.old.marks line.now } }
    {
        match line {
            Line::Call(Callee::Routine(which)) => self.mark(*which),
            Line::Call(Callee::Pointer(_, _)) => self.mark(Routine::CallPtr4),
            _ => {}
        }
    }

    fn mark_symbol(&mut self, targets: &[Target], used: Option<Sym>)
        ensures { self.new ≡ record self.old { marks = with_symbol targets.now self.old.marks used } }
    {
        if let Some(sym) = used {
            if let Some(Target::Runtime(function)) = targets.get(sym.0 as usize) {
                self.mark(Routine::Library(*function));
            }
        }
    }

    /// The routines that these lines call are used.
    pub fn mark_calls(&mut self, lines: &[Line])
        ensures { self.new ≡ record self.old { marks = with_calls self.old.marks lines.now } }
    {
        for line in lines {
            self.mark_call(line);
        }
    }

    fn mark_lines(&mut self, targets: &[Target], lines: &[Line])
        ensures { self.new ≡ record self.old { marks = with_line_uses targets.now self.old.marks lines.now } }
    {
        for line in lines {
            self.mark_symbol(targets, in_line(line));
            self.mark_call(line);
        }
    }

    fn mark_functions(&mut self, targets: &[Target], functions: &[(Sym, Seg)])
        ensures { self.new ≡ record self.old { marks = with_function_uses targets.now self.old.marks functions.now } }
    {
        for function in functions {
            self.mark_lines(targets, function.1.lines());
        }
    }

    fn mark_cells(&mut self, targets: &[Target], cells: &[DataCell])
        ensures { self.new ≡ record self.old { marks = with_cell_uses targets.now self.old.marks cells.now } }
    {
        for cell in cells {
            self.mark_symbol(targets, in_cell(cell));
        }
    }

    fn mark_datums(&mut self, targets: &[Target], datums: &[Datum])
        ensures { self.new ≡ record self.old { marks = with_datum_uses targets.now self.old.marks datums.now } }
    {
        for datum in datums {
            self.mark_cells(targets, datum.cells.as_slice());
        }
    }

    /// The routines that a code uses directly.
    pub fn mark_code(&mut self, code: &Code, targets: &[Target])
        ensures { self.new ≡ record self.old { marks = with_code_uses code.now targets.now self.old.marks } }
    {
        self.mark_functions(targets, code.functions.as_slice());
        self.mark_datums(targets, code.datums.as_slice());
    }

    fn take(&mut self, alloc: Global, which: Routine) -> Result<(), AllocError>
        ensures { OnOk result (self.new ≡ with_routine self.old which) }
    {
        if self.is_marked(which) && is_written(which) {
            let part = Part::of(alloc, which)?;
            self.mark_calls(part.lines());
            self.parts.push(part)?;
        }
        Ok(())
    }

    #[tactic(auto, unfolding(crate::specs::Runtime::with_routines))]
    fn take_all(&mut self, alloc: Global, routines: &[Routine]) -> Result<(), AllocError>
        ensures { OnOk result (self.new ≡ with_routines self.old routines.now) }
    {
        for which in routines {
            self.take(alloc, *which)?;
        }
        Ok(())
    }

    /// Takes the routines that are used, directly or by others.
    pub fn close(&mut self, alloc: Global) -> Result<(), AllocError>
        ensures { OnOk result (self.new ≡ chosen_by self.old) }
    {
        self.take_all(alloc, &Routine::ALL)
    }
}

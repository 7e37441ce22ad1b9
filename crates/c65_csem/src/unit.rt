// A unit, and a program: a unit that is whole.
ghost use Rattle.std.specs.Prelude.{◌≡◌};
ghost use Rattle.c65_csem.specs.Units.{IsUnit, IsProgram};
ghost use Rattle.c65_csem.specs.Views.{unit_of};

use crate::items::Parts;
use std::marker::Model;

/// What a unit declares. Each of its trees is well typed, and each number in it names an item.
#[derive(Drop)]
pub struct TUnit {
    parts: Parts,
}

impl Model for TUnit {
    ghost use Rattle.c65_csem.specs.declared.items.Parts.{Parts};

    ghost Value = { Parts };

    ghost use Rattle.c65_csem.specs.contracts.stmt.TStmt as s;
    ghost use Rattle.c65_csem.specs.contracts.expr.TExpr as e;
    ghost use Rattle.c65_ctype.specs.contracts.types.CType as ty;
    ghost use Rattle.c65_ctype.specs.contracts.types.FnType as f;
    ghost use Rattle.c65_ctype.specs.contracts.types.QType as q;
    ghost use Rattle.std.specs.Coded.{codes};

    ghost coded = { Prim.hlevel (codes, s.the_row.coded, e.the_row.coded, ty.the_row.coded, f.the_row.coded, q.the_row.coded) };

    ghost use Rattle.c65_csem.specs.Units.{IsUnit};
    ghost use Rattle.c65_csem.specs.Views.{unit_of};

    ghost view = { λ u. u.parts };

    ghost invariant = { λ u. IsUnit (unit_of u.parts) };
}

impl TUnit {
    /// A unit of well typed parts.
    pub fn new(parts: Parts) -> TUnit
        requires { IsUnit (unit_of parts) }
        ensures { result ≡ parts }
    {
        TUnit { parts }
    }

    /// What the unit declares.
    pub fn parts(&self) -> &Parts
        ensures same { result.now ≡ self.now }
        ensures well_typed { IsUnit (unit_of self.now) }
    {
        &self.parts
    }

    /// What the unit declares, taken out of it.
    pub fn into_parts(self) -> Parts
        ensures same { result ≡ self }
        ensures well_typed { IsUnit (unit_of result) }
    {
        let TUnit { parts } = self;
        parts
    }
}

/// A program: a unit whose functions each have a body or are of the library, whose objects are all
/// defined, and one of whose functions is `main`.
#[derive(Drop)]
pub struct TProgram {
    unit: TUnit,
    main: u32,
}

impl Model for TProgram {
    ghost use Rattle.std.specs.Prelude.{ℕ};
    ghost use Rattle.c65_csem.specs.declared.items.Parts.{Parts};

    ghost Value = { Parts × ℕ };

    ghost use Rattle.c65_csem.specs.contracts.stmt.TStmt as s;
    ghost use Rattle.c65_csem.specs.contracts.expr.TExpr as e;
    ghost use Rattle.c65_ctype.specs.contracts.types.CType as ty;
    ghost use Rattle.c65_ctype.specs.contracts.types.FnType as f;
    ghost use Rattle.c65_ctype.specs.contracts.types.QType as q;
    ghost use Rattle.std.specs.Coded.{codes};

    ghost coded = { Prim.hlevel (codes, s.the_row.coded, e.the_row.coded, ty.the_row.coded, f.the_row.coded, q.the_row.coded) };

    ghost use Rattle.c65_csem.specs.Units.{IsProgram};
    ghost use Rattle.c65_csem.specs.Views.{unit_of};

    ghost view = { λ p. (p.unit, p.main) };

    ghost invariant = { λ p. IsProgram (unit_of p.unit) p.main };
}

impl TProgram {
    /// A program of a whole unit, and the number of its main function.
    pub fn new(unit: TUnit, main: u32) -> TProgram
        requires { IsProgram (unit_of unit) main }
        ensures { result ≡ (unit, main) }
    {
        TProgram { unit, main }
    }

    /// What the program declares.
    pub fn unit(&self) -> &TUnit
        ensures same { result.now ≡ self.now.0 }
        ensures whole { IsProgram (unit_of self.now.0) self.now.1 }
    {
        &self.unit
    }

    /// The number of its main function.
    pub fn main(&self) -> u32
        ensures same { result ≡ self.now.1 }
        ensures whole { IsProgram (unit_of self.now.0) self.now.1 }
    {
        self.main
    }
}

// That a greater limit of depth changes nothing but faults of depth.
ghost use Rattle.c65_parse_law_depth.specs.Grows.{ExprsGrow, SpecifiersGrow, DeclaratorsGrow, TypesGrow};
ghost use Rattle.c65_parse_law_depth.specs.Units.{InitialisersGrow, DeclarationsGrow, StatementsGrow, UnitsGrow};

/// An expression (C90 6.3), an assignment expression or a constant expression.
pub fn expressions_grow()
    ensures { ExprsGrow }
{}

/// Declaration specifiers (C90 6.5), or none.
pub fn specifiers_grow()
    ensures { SpecifiersGrow }
{}

/// A declarator (C90 6.5.4) of any sort.
pub fn declarators_grow()
    ensures { DeclaratorsGrow }
{}

/// A type name (C90 6.5.5).
pub fn types_grow()
    ensures { TypesGrow }
{}

/// An initialiser (C90 6.5.7).
pub fn initialisers_grow()
    ensures { InitialisersGrow }
{}

/// A declaration (C90 6.5).
pub fn declarations_grow()
    ensures { DeclarationsGrow }
{}

/// A statement (C90 6.6).
pub fn statements_grow()
    ensures { StatementsGrow }
{}

/// A unit (C90 6.7).
pub fn units_grow()
    ensures { UnitsGrow }
{}

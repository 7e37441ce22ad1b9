// That a reading which is refused is so at a token with which no tree within the limit of depth goes on.
ghost use Rattle.c65_parse_law_faults.specs.Laws.{ExprsAreRefused, SpecifiersAreRefused, DeclaratorsAreRefused, TypesAreRefused, InitsAreRefused, DeclarationsAreRefused, StatementsAreRefused, UnitsAreRefused};

/// An expression (C90 6.3), an assignment expression or a constant expression.
pub fn expressions_are_refused()
    ensures { ExprsAreRefused }
{}

/// Declaration specifiers (C90 6.5).
pub fn specifiers_are_refused()
    ensures { SpecifiersAreRefused }
{}

/// A declarator (C90 6.5.4) of any sort.
pub fn declarators_are_refused()
    ensures { DeclaratorsAreRefused }
{}

/// A type name (C90 6.5.5).
pub fn types_are_refused()
    ensures { TypesAreRefused }
{}

/// An initialiser (C90 6.5.7).
pub fn initialisers_are_refused()
    ensures { InitsAreRefused }
{}

/// A declaration (C90 6.5).
pub fn declarations_are_refused()
    ensures { DeclarationsAreRefused }
{}

/// A statement (C90 6.6).
pub fn statements_are_refused()
    ensures { StatementsAreRefused }
{}

/// A unit (C90 6.7).
pub fn units_are_refused()
    ensures { UnitsAreRefused }
{}

// That a fault stands at the first token with which no tree within the limit of depth goes on.
ghost use Rattle.c65_parse_law_least.specs.Viable.{ExprsStop, SpecifiersStop, DeclaratorsStop, TypesStop};

/// An expression (C90 6.3), an assignment expression or a constant expression.
pub fn expressions_stop()
    ensures { ExprsStop }
{}

/// Declaration specifiers (C90 6.5).
pub fn specifiers_stop()
    ensures { SpecifiersStop }
{}

/// A declarator (C90 6.5.4) of any sort.
pub fn declarators_stop()
    ensures { DeclaratorsStop }
{}

/// A type name (C90 6.5.5).
pub fn types_stop()
    ensures { TypesStop }
{}

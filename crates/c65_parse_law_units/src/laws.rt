// That what the grammar derives of declarations, statements and units is read, and that tokens have one such tree at
// most.
ghost use Rattle.c65_parse_law_units.specs.Declared.{InitsAreRead, DeclarationsAreRead, InitsAreOne, DeclarationsAreOne};
ghost use Rattle.c65_parse_law_units.specs.Units.{StatementsAreRead, StatementsAreOne, UnitsAreRead, UnitsAreOne};

/// An initialiser (C90 6.5.7) within the limit of depth, in no more steps than the unit has tokens.
pub fn initialisers_are_read()
    ensures read { InitsAreRead }
    ensures one { InitsAreOne }
{}

/// A declaration (C90 6.5) within the limit of depth, in no more steps than the unit has tokens.
pub fn declarations_are_read()
    ensures read { DeclarationsAreRead }
    ensures one { DeclarationsAreOne }
{}

/// A statement (C90 6.6) within the limit of depth, in no more steps than the unit has tokens.
pub fn statements_are_read()
    ensures read { StatementsAreRead }
    ensures one { StatementsAreOne }
{}

/// A unit (C90 6.7) within the limit of depth.
pub fn units_are_read()
    ensures read { UnitsAreRead }
    ensures one { UnitsAreOne }
{}

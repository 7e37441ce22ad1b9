// That a fault stands at the first token with which nothing within the limit of depth goes on.
ghost use Rattle.c65_parse_law_exact.specs.Scanned.{ScannedTokensEndOnce, ScannedUnitsAreRead};
ghost use Rattle.c65_parse_law_exact.specs.Laws.{InitsStop, DeclarationsStop, StatementsStop, UnitsStop};

/// An initialiser (C90 6.5.7).
pub fn initialisers_stop()
    ensures { InitsStop }
{}

/// A declaration (C90 6.5).
pub fn declarations_stop()
    ensures { DeclarationsStop }
{}

/// A statement (C90 6.6).
pub fn statements_stop()
    ensures { StatementsStop }
{}

/// A unit (C90 6.7).
pub fn units_stop()
    ensures { UnitsStop }
{}

/// The last of scanned tokens is their only `End`; and what the parser answers of them is told by the grammar alone.
pub fn scanned_units_are_read()
    ensures ends { ScannedTokensEndOnce }
    ensures read { ScannedUnitsAreRead }
{}

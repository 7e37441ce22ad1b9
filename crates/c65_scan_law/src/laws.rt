// What scanning gives lies in the ranges of its types, each law the contract of a function that does nothing.
ghost use Rattle.c65_scan_law.specs.Scanned.{ScannedTokensAreRanged, ScannedConstantsAreRanged};

/// Integer constants have a type that holds their value (C90 6.1.3.2), and character constants a value of type int
/// (C90 6.1.3.4).
pub fn scanned_tokens_are_ranged()
    ensures { ScannedTokensAreRanged }
{}

/// So do those of a tree that the grammar derives from tokens of a scanned unit.
pub fn scanned_constants_are_ranged()
    ensures { ScannedConstantsAreRanged }
{}

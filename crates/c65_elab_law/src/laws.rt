// What typing makes is well typed, each law the contract of a function that does nothing.
ghost use Rattle.c65_elab_law.specs.Constants.{ConstantsAreRanged};
ghost use Rattle.c65_elab_law.specs.Laws.{TreesStayTyped, ScopesBegin, DeclarationsKeepScopes, ExpressionsAreTyped, TypesKeepScopes};
ghost use Rattle.c65_elab_law.specs.WellTyped.{ConstructsAreTyped};

/// What each operator and conversion makes of well typed operands is well typed.
pub fn constructs_are_typed()
    ensures { ConstructsAreTyped }
{}

/// A well typed tree stays well typed while its unit grows.
pub fn trees_stay_typed()
    ensures { TreesStayTyped }
{}

/// What holds of every scope holds where a unit begins.
pub fn scopes_begin()
    ensures { ScopesBegin }
{}

/// Blocks, declarations, literals, structures and unions keep what holds of a scope, and the unit only grows.
pub fn declarations_keep_scopes()
    ensures { DeclarationsKeepScopes }
{}

/// The typed tree of an expression whose constants lie in their ranges is well typed behind it, and the scope is kept.
pub fn expressions_are_typed()
    ensures { ExpressionsAreTyped }
{}

/// Specifiers, declarators, headings of functions and type names keep the scope.
pub fn types_keep_scopes()
    ensures { TypesKeepScopes }
{}

/// Constants lie in the ranges of their types in each tree that the grammar derives from tokens in which they do.
pub fn constants_are_ranged()
    ensures { ConstantsAreRanged }
{}

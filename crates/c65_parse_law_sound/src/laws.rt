// That the grammar derives each tree that was read from the tokens that were read, in the scope there.
ghost use Rattle.c65_parse_law_sound.specs.Derived.{ExprsAreDerived, SpecifiersAreDerived, DeclaratorsAreDerived, TypesAreDerived};
ghost use Rattle.c65_parse_law_sound.specs.Units.{UnitsAreDerived, UnitsAreUnits};
ghost use Rattle.c65_parse_law_sound.specs.Limits.{ExprsAreWithin, SpecifiersAreWithin, DeclaratorsAreWithin, TypesAreWithin};

/// An expression (C90 6.3), an assignment expression or a constant expression, with the scope behind it.
pub fn expressions_are_derived()
    ensures { ExprsAreDerived }
{}

/// Declaration specifiers (C90 6.5), or none.
pub fn specifiers_are_derived()
    ensures { SpecifiersAreDerived }
{}

/// A declarator (C90 6.5.4) of any sort.
pub fn declarators_are_derived()
    ensures { DeclaratorsAreDerived }
{}

/// A type name (C90 6.5.5).
pub fn types_are_derived()
    ensures { TypesAreDerived }
{}

/// A unit (C90 6.7), from the tokens that end with its only `End`.
pub fn units_are_derived()
    ensures derived { UnitsAreDerived }
    ensures within { UnitsAreUnits }
{}

/// No tree that was read is deeper than the limit.
pub fn trees_are_within()
    ensures expressions { ExprsAreWithin }
    ensures specifiers { SpecifiersAreWithin }
    ensures declarators { DeclaratorsAreWithin }
    ensures types { TypesAreWithin }
{}

// That each tree which the grammar derives within the limit of depth is read, and that tokens have one at most.
ghost use Rattle.c65_parse_law_trees.specs.Read.{ExprsAreRead, SpecifiersAreRead, DeclaratorsAreRead, TypesAreRead};
ghost use Rattle.c65_parse_law_trees.specs.One.{ExprsAreOne, SpecifiersAreOne, DeclaratorsAreOne, TypesAreOne};

/// An expression (C90 6.3), an assignment expression or a constant expression, with the scope behind it.
pub fn expressions_are_read()
    ensures { ExprsAreRead }
{}

/// Declaration specifiers (C90 6.5), or none.
pub fn specifiers_are_read()
    ensures { SpecifiersAreRead }
{}

/// A declarator (C90 6.5.4) of any sort.
pub fn declarators_are_read()
    ensures { DeclaratorsAreRead }
{}

/// A type name (C90 6.5.5) before its parenthesis.
pub fn types_are_read()
    ensures { TypesAreRead }
{}

/// Of each kind tokens have one tree at most within the limit of depth.
pub fn trees_are_one()
    ensures expressions { ExprsAreOne }
    ensures specifiers { SpecifiersAreOne }
    ensures declarators { DeclaratorsAreOne }
    ensures types { TypesAreOne }
{}

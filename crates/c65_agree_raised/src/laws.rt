// Laws of what lies above a call's frame, each the contract of a function that does nothing.
ghost use Rattle.c65_agree_raised.specs.Objects.{AddressedAreExpressions, RaisedAreAddressed, RaisedAreBases};
ghost use Rattle.c65_agree_raised.specs.Rests.{RestsAreExpressions, RestsDo};

/// The lines of the place behind the further arguments leave it in AX.
pub fn rests_do()
    ensures { RestsDo }
{}

/// So they do the work of the tree, and of a test of it.
pub fn rests_are_expressions()
    ensures { RestsAreExpressions }
{}

/// An object that stands in memory is an expression.
pub fn addressed_are_expressions()
    ensures { AddressedAreExpressions }
{}

/// A parameter that lies higher is told by its address.
pub fn raised_are_bases()
    ensures { RaisedAreBases }
{}

/// Each such parameter stands in memory.
pub fn raised_are_addressed()
    ensures { RaisedAreAddressed }
{}

// Laws of the lines of operators, each the contract of a function that does nothing.
ghost use Rattle.c65_agree_operate.specs.Laws.{ConversionLinesAre, ConversionsDo, DecisionsTest, DiscardsDo, MannersDo, NotLinesAre, NotsDecide, NumberLinesAre, OppositeLinesAre, OppositesDo, StackedOperatorsDo, TruthsDo, UsuallyDo};

/// Lines that do their work in some manner do it.
pub fn manners_do()
    ensures { MannersDo }
{}

/// Lines that do their work do it in the usual manner.
pub fn usually_do()
    ensures { UsuallyDo }
{}

/// The lines of an operator by a routine do its work.
pub fn stacked_operators_do()
    ensures { StackedOperatorsDo }
{}

/// So do those of `-` and `~`.
pub fn opposites_do()
    ensures { OppositesDo }
{}

/// So do those of a conversion.
pub fn conversions_do()
    ensures { ConversionsDo }
{}

/// A value that is converted to void is discarded by no line.
pub fn discards_do()
    ensures { DiscardsDo }
{}

/// Lines that decide whether a value is 1 or 0 test it.
pub fn decisions_test()
    ensures { DecisionsTest }
{}

/// A test of `!` is one of the other sense.
pub fn nots_decide()
    ensures { NotsDecide }
{}

/// Behind a test a value that is 1 or 0 comes to AX.
pub fn truths_do()
    ensures { TruthsDo }
{}

/// The lines of an operator on numbers are by its form, from those of its operands.
pub fn number_lines_are()
    ensures { NumberLinesAre }
{}

/// Those of `-` and `~` are from those of the operand.
pub fn opposite_lines_are()
    ensures { OppositeLinesAre }
{}

/// Those of `!` are from a test of the operand.
pub fn not_lines_are()
    ensures { NotLinesAre }
{}

/// Those of a conversion are from those of the value.
pub fn conversion_lines_are()
    ensures { ConversionLinesAre }
{}

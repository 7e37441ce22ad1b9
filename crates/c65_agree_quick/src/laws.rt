// Laws of the lines of operators with a constant, each the contract of a function that does nothing.
ghost use Rattle.c65_agree_quick.specs.Laws.{ConstantBitsDo, ConstantLinesAre, ConstantProductsDo, ConstantShiftsDo, ElementsAreScaled};

/// The lines of a shift by a constant do its work.
pub fn constant_shifts_do()
    ensures { ConstantShiftsDo }
{}

/// The lines of an operator on bits of a long word and a constant do its work.
pub fn constant_bits_do()
    ensures { ConstantBitsDo }
{}

/// The lines of a product with a power of two, and of a quotient or a remainder by one, do its work.
pub fn constant_products_do()
    ensures { ConstantProductsDo }
{}

/// The lines that make bytes of a number of elements do so.
pub fn elements_are_scaled()
    ensures { ElementsAreScaled }
{}

/// The lines that the generator puts for an operator with a constant on its right are those of these laws.
pub fn constant_lines_are()
    ensures { ConstantLinesAre }
{}

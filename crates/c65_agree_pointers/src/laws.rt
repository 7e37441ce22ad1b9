// Laws of the lines of sums with pointers, each the contract of a function that does nothing.
ghost use Rattle.c65_agree_pointers.specs.Laws.{ConstantElementsDo, DirectLeftSumsDo, DirectRightSumsDo, ElementsAreTold, HeldSumsDo, OperatorLinesAre, StackedSumsDo};

/// The lines of a sum with a pointer, and of a difference of pointers, do its work, where the left operand waits on the software stack.
pub fn stacked_sums_do()
    ensures { StackedSumsDo }
{}

/// The lines that move a pointer by a constant number of elements do so.
pub fn constant_elements_do()
    ensures { ConstantElementsDo }
{}

/// The lines of a sum whose right operand is read where it lies do its work.
pub fn direct_right_sums_do()
    ensures { DirectRightSumsDo }
{}

/// The lines of a sum whose left operand is read behind those of the right one do its work.
pub fn direct_left_sums_do()
    ensures { DirectLeftSumsDo }
{}

/// The lines of a sum whose left operand waits in the zero page do its work.
pub fn held_sums_do()
    ensures { HeldSumsDo }
{}

/// The lines that the generator puts for an operator that is no comparison are those of these laws.
pub fn operator_lines_are()
    ensures { OperatorLinesAre }
{}

/// The lines are told the bytes of what a pointer names.
pub fn elements_are_told()
    ensures { ElementsAreTold }
{}

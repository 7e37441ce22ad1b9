// Laws of elements of small arrays, each the contract of a function that does nothing.
ghost use Rattle.c65_agree_access.specs.ElementLaws.{ElementLoadsDo, ElementLoadsTest, LowElementLinesAre, LowElementLoadsDo, MembersAreElements, MemoryLoadsDo, MemoryLoadsDoIn, MemoryLoadsTest, MemoryLoadsTestIn, SumsAreElements};

/// A sum of a whole array and an index tells an element.
pub fn sums_are_elements()
    ensures { SumsAreElements }
{}

/// So does a member of one.
pub fn members_are_elements()
    ensures { MembersAreElements }
{}

/// An element is loaded.
pub fn element_loads_do()
    ensures { ElementLoadsDo }
{}

/// So is its low byte.
pub fn low_element_loads_do()
    ensures { LowElementLoadsDo }
{}

/// The generator's lines are these.
pub fn low_element_lines_are()
    ensures { LowElementLinesAre }
{}

/// What is kept in memory is loaded, be it an element or not.
pub fn memory_loads_do()
    ensures { MemoryLoadsDo }
{}

/// What is loaded from an element is tested.
pub fn element_loads_test()
    ensures { ElementLoadsTest }
{}

/// What is kept in memory is tested, be it an element or not.
pub fn memory_loads_test()
    ensures { MemoryLoadsTest }
{}

/// It is loaded in each manner.
pub fn memory_loads_do_in()
    ensures { MemoryLoadsDoIn }
{}

/// And it is tested so.
pub fn memory_loads_test_in()
    ensures { MemoryLoadsTestIn }
{}

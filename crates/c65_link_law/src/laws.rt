// Laws, each the contract of a function that does nothing.
ghost use Rattle.c65_link_law.specs.Coded.{LinesAreCoded};
ghost use Rattle.c65_link_law.specs.Placed.{FunctionsStand, SymbolsLead, RoutinesStand};
ghost use Rattle.c65_link_law.specs.Extents.{CodeIsWithinItsExtent, SizesAreLengths, ImagesAreBounded};

/// The bytes of a segment's lines, wherever they stand in program space, are its instructions one behind another: each
/// with its opcode and operand, and each branch leads to its label, itself or as the opposite one round a jump.
pub fn lines_are_coded()
    ensures { LinesAreCoded }
{}

/// Functions take no more bytes than their lines with every branch a long one.
pub fn code_is_within_its_extent()
    ensures { CodeIsWithinItsExtent }
{}

/// Lines are as many bytes as the size says by which the addresses behind them are placed.
pub fn sizes_are_lengths()
    ensures { SizesAreLengths }
{}

/// An image's file holds the code within its extent, the data, and at most 8,192 bytes of the runtime.
pub fn images_are_bounded()
    ensures { ImagesAreBounded }
{}

/// Where an image's file stands in memory from $0200 on, the lines of each function of the code stand as machine code
/// behind the start and the functions before it.
pub fn functions_stand()
    ensures { FunctionsStand }
{}

/// Where no symbol is defined twice, the symbol of a function has that function's address.
pub fn symbols_lead()
    ensures { SymbolsLead }
{}

/// Where an image's file stands in memory from $0200 on, the lines of each routine that is used stand as machine code at
/// the address that calls of it have.
pub fn routines_stand()
    ensures { RoutinesStand }
{}

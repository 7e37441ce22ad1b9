// Laws of the standing store, each the contract of a function that does nothing.
ghost use Rattle.c65_agree_store.specs.Laws.{AreasAreRead, BlocksBegin, BlocksEnd, CellsAreLaid, FreeBytesChange, NumbersAreRead, PlacesAreRead, StoresGoOnStanding, UnsetBlocksBegin};

/// Bytes that cells are put into stand as these cells, and the rest as before.
pub fn stores_go_on_standing()
    ensures { StoresGoOnStanding }
{}

/// A new block stands where its cells stand already and no live block has a byte.
pub fn blocks_begin()
    ensures { BlocksBegin }
{}

/// A new unset block stands where no live block has a byte.
pub fn unset_blocks_begin()
    ensures { UnsetBlocksBegin }
{}

/// A block that has ended takes nothing away from the others.
pub fn blocks_end()
    ensures { BlocksEnd }
{}

/// Bytes of no live block may change.
pub fn free_bytes_change()
    ensures { FreeBytesChange }
{}

/// A number that is gathered from whole cells is that of their bytes, the lowest first.
pub fn numbers_are_read()
    ensures { NumbersAreRead }
{}

/// A place that is read from two cells is the word that stands there.
pub fn places_are_read()
    ensures { PlacesAreRead }
{}

/// The cells of an area are those of the word that its bytes are, the lowest first.
pub fn areas_are_read()
    ensures { AreasAreRead }
{}

/// Each byte of a word that holds cells may be laid down as its cell.
pub fn cells_are_laid()
    ensures { CellsAreLaid }
{}

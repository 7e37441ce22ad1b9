// Laws of frames and of the bytes of whole programs, each the contract of a function that does nothing.
ghost use Rattle.c65_gen_law_size.specs.Own.{OwnObjectsHaveHomes};
ghost use Rattle.c65_gen_law_size.specs.First.{TheFirstLargeFrameIsRefused, FramesAreRefusedAboveTheirLimit};
ghost use Rattle.c65_gen_law_size.specs.Laws.{ProgramsAreWithinTheirBulk, ImagesAreWithinTheirBulk, LabelsAreFew, LargeImagesAreWithinTheirBulk, ScopedProgramsFillTheirObjects};

/// The objects that have a home in a function's frame are its parameters and those of its body's blocks, and no others.
pub fn own_objects_have_homes()
    ensures { OwnObjectsHaveHomes }
{}

/// A program's code's extent, its data and 8,192 bytes of the runtime are together at most its bulk.
pub fn programs_are_within_their_bulk()
    ensures { ProgramsAreWithinTheirBulk }
{}

/// The file of its image is at most its bulk.
pub fn images_are_within_their_bulk()
    ensures { ImagesAreWithinTheirBulk }
{}

/// Where the linker refuses it as too large, its bytes, zeros among them, are at most its bulk: a program whose bulk is
/// within the limit of an image is never refused so.
pub fn large_images_are_within_their_bulk()
    ensures { LargeImagesAreWithinTheirBulk }
{}

/// A program is refused for its first function with a body that has no frame, or labels past 2^32, and for no other.
pub fn the_first_large_frame_is_refused()
    ensures { TheFirstLargeFrameIsRefused }
{}

/// A function is refused for its frame only where its parameters and automatic objects have more than 1,024 bytes.
pub fn frames_are_refused_above_their_limit()
    ensures { FramesAreRefusedAboveTheirLimit }
{}

/// A program has a code only where the labels of each function have numbers of 32 bits.
pub fn labels_are_few()
    ensures { LabelsAreFew }
{}

/// In a well typed, scoped program each initial value has no more bytes than its object, with both pieces of each pointer:
/// the premise of the laws above.
pub fn scoped_programs_fill_their_objects()
    ensures { ScopedProgramsFillTheirObjects }
{}

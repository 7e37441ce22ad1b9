// Laws of the room on the software stack, each the contract of a function that does nothing.
ghost use Rattle.c65_gen_law_room.specs.Room.{EntriesTakeTheirObjects};

/// Beside the parameter that it pushes, an entry takes no more bytes than the objects of the function's blocks have, the parameters
/// that stand in regbank, and one for the count of a variadic call.
pub fn entries_take_their_objects()
    ensures { EntriesTakeTheirObjects }
{}

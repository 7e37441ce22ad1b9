// Laws of the lines of addresses, each the contract of a function that does nothing.
ghost use Rattle.c65_agree_addresses.specs.Laws.{MemberLinesAre, MembersArePlaced, ObjectLinesAre, ObjectsArePlaced, TreesHaveAddresses};

/// The lines of an object's name leave its address.
pub fn objects_are_placed()
    ensures { ObjectsArePlaced }
{}

/// The lines of a member leave its address.
pub fn members_are_placed()
    ensures { MembersArePlaced }
{}

/// The lines of a structure or union that stands in memory leave its address.
pub fn trees_have_addresses()
    ensures { TreesHaveAddresses }
{}

/// The lines that the generator puts for an object's name are those of these laws.
pub fn object_lines_are()
    ensures { ObjectLinesAre }
{}

/// So are those for a member.
pub fn member_lines_are()
    ensures { MemberLinesAre }
{}

// Laws of the bases of places in a manner, each the contract of a function that does nothing.
ghost use Rattle.c65_agree_loading.specs.BaseLaws.{LiteralsAreBases, LiteralsDo, LiteralsDoIn, LiteralsTell, MannersTell, MembersTell, NamesTell, ObjectsTell, PointersTell, SumsTell, TargetsTell, UsuallyTell};

/// Lines that tell a place in some manner tell it.
pub fn manners_tell()
    ensures { MannersTell }
{}

/// Lines that tell a place do so in the usual manner.
pub fn usually_tell()
    ensures { UsuallyTell }
{}

/// A string literal is told by its symbol.
pub fn literals_are_bases()
    ensures { LiteralsAreBases }
{}

/// So it is in each manner.
pub fn literals_tell()
    ensures { LiteralsTell }
{}

/// The lines of a string literal bring its address.
pub fn literals_do()
    ensures { LiteralsDo }
{}

/// So they do in each manner.
pub fn literals_do_in()
    ensures { LiteralsDoIn }
{}

/// An object is told by its home.
pub fn objects_tell()
    ensures { ObjectsTell }
{}

/// A member is told by its structure, or by its own address.
pub fn members_tell()
    ensures { MembersTell }
{}

/// What a pointer names is told by the pointer.
pub fn targets_tell()
    ensures { TargetsTell }
{}

/// The address of an object tells the object.
pub fn names_tell()
    ensures { NamesTell }
{}

/// The value of a pointer tells what it names.
pub fn pointers_tell()
    ensures { PointersTell }
{}

/// So does a sum with a constant, by the pointer's base.
pub fn sums_tell()
    ensures { SumsTell }
{}

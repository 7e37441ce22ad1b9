// Laws of the first data, each the contract of a function that does nothing.
ghost use Rattle.c65_agree_data.specs.Laws.{LiteralsBegin, LiteralsHaveData, ObjectsBegin, ObjectsHaveData};

/// Each object with one place for the whole run has its datum.
pub fn objects_have_data()
    ensures { ObjectsHaveData }
{}

/// Each literal has its datum.
pub fn literals_have_data()
    ensures { LiteralsHaveData }
{}

/// The bytes at which an object is placed are its first cells.
pub fn objects_begin()
    ensures { ObjectsBegin }
{}

/// The bytes at which a literal is placed are its cells.
pub fn literals_begin()
    ensures { LiteralsBegin }
{}

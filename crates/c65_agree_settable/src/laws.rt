// A law of objects of blocks, the contract of a function that does nothing.
ghost use Rattle.c65_agree_settable.specs.Laws.{ObjectsAreSettable};

/// Each automatic object of a function's blocks may be set.
pub fn objects_are_settable()
    ensures { ObjectsAreSettable }
{}

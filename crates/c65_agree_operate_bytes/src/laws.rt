// Laws of the lines of operators on words, each the contract of a function that does nothing.
ghost use Rattle.c65_agree_operate_bytes.specs.Laws.{ConstantSumsDo, DirectLeftsDo, DirectRightsDo, FixedAreReadBehind, HeldOperatorsDo, TreesAreReadBehind};

/// The lines of an operator on AX and a word that is read where it lies do its work.
pub fn direct_rights_do()
    ensures { DirectRightsDo }
{}

/// The lines of a sum or a difference with a constant do its work.
pub fn constant_sums_do()
    ensures { ConstantSumsDo }
{}

/// The left operand may wait in ptr2 while the right one comes.
pub fn held_operators_do()
    ensures { HeldOperatorsDo }
{}

/// Constants and addresses are read behind any lines.
pub fn fixed_are_read_behind()
    ensures { FixedAreReadBehind }
{}

/// The left operand may be read behind the lines of the right one.
pub fn direct_lefts_do()
    ensures { DirectLeftsDo }
{}

/// What is kept at a known place is read behind lines that leave the scene.
pub fn trees_are_read_behind()
    ensures { TreesAreReadBehind }
{}

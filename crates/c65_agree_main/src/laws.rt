// Laws of main, each the contract of a function that does nothing.
ghost use Rattle.c65_agree_main.specs.Laws.{MainsGiveInts, MainsTakeArguments};

/// Main gives an int.
pub fn mains_give_ints()
    ensures { MainsGiveInts }
{}

/// Main takes no arguments, or those of the program.
pub fn mains_take_arguments()
    ensures { MainsTakeArguments }
{}

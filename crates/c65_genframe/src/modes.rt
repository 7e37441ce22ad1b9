// What options ask of the lines of functions.
ghost use Rattle.std.specs.Prelude.{◌≡◌};
ghost use Rattle.c65_genframe.specs.Modes.{modes_of};

use c65_base::Options;

/// What a command's options ask of the lines of every function.
#[derive(Clone, Copy, Debug, PartialEq, Eq)]
pub struct Modes {
    /// `register` is honoured: an object that is so marked may stand in regbank.
    pub honoured: bool,
    /// Each function begins with a check of both stacks.
    pub checked: bool,
}

impl Modes {
    /// What these options ask for.
    pub fn of(options: &Options) -> Modes
        ensures { result ≡ modes_of options.now }
    {
        Modes {
            honoured: options.register_vars,
            checked: options.check_stack,
        }
    }
}

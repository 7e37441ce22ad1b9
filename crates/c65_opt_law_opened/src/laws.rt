// Laws of opened calls, each the contract of a function that does nothing.
ghost use Rattle.c65_base.specs.declared.library.Library.TheVariants.{Memcpy, Memset, Strcmp, Strcpy, Strlen};
ghost use Rattle.c65_opt_law_opened.specs.Laws.{RoutinesServe, RoutinesStand};
ghost use Rattle.c65_opt_law_opened.specs.Texts.{KnownStands, LibraryServes, OpenedCallsServe};

use c65_opt_law_chains::following_until_end_composes;
use c65_opt_law_follow::justified_lines_follow;

/// Lines that do what a routine does may stand for its call, whatever is live behind it.
pub fn routines_stand()
    ensures { RoutinesStand }
{}

/// Where calls of routines are opened, the code with the lines follows the code with the calls.
pub fn routines_serve()
    ensures { RoutinesServe }
{
    justified_lines_follow();
    following_until_end_composes();
}

/// The lines that are known for a call of a function of the library may stand for it and the two loads before it.
pub fn known_calls_stand()
    ensures measured { KnownStands Strlen }
    ensures copied { KnownStands Memcpy }
    ensures filled { KnownStands Memset }
    ensures text_copied { KnownStands Strcpy }
    ensures compared { KnownStands Strcmp }
{}

/// Where such calls are opened, the code with the lines follows the code with the calls, if the literals stand at their addresses.
pub fn library_serves()
    ensures { LibraryServes }
{
    justified_lines_follow();
    following_until_end_composes();
}

/// The rules that open calls serve, whichever the options ask for.
pub fn opened_calls_serve()
    ensures { OpenedCallsServe }
{
    routines_serve();
    library_serves();
}

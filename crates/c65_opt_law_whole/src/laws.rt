// Laws of the whole optimiser, each the contract of a function that does nothing.
ghost use Rattle.c65_opt_law_whole.specs.Laws.{OptimisedIsClosed, OptimisedIsFollowed, OptimisedKeepsFunctions, OptimisedNamesNothing, RewritesAreFollowed, WalksAreFollowed};

use c65_live_law::live_tables_exist;
use c65_opt_law_c02::processor_lines_are_followed;
use c65_opt_law_chains::{chains_are_followed, following_until_end_composes, unused_labels_go};
use c65_opt_law_jumps::{jumps_are_followed, unreached_lines_go};
use c65_opt_law_kept::{arithmetic_is_followed, loads_are_followed};
use c65_opt_law_stack::{calls_are_followed, operators_are_followed};

/// Rewritings of a rule, one after another, are followed.
pub fn rewrites_are_followed()
    ensures { RewritesAreFollowed }
{
    live_tables_exist();
    following_until_end_composes();
}

/// So are those of one walk.
pub fn walks_are_followed()
    ensures { WalksAreFollowed }
{
    live_tables_exist();
    following_until_end_composes();
}

/// At each placement of a code that which the optimiser makes of it follows it.
pub fn optimised_is_followed()
    ensures { OptimisedIsFollowed }
{
    live_tables_exist();
    following_until_end_composes();
    jumps_are_followed();
    unreached_lines_go();
    unused_labels_go();
    chains_are_followed();
    loads_are_followed();
    arithmetic_is_followed();
    calls_are_followed();
    operators_are_followed();
    processor_lines_are_followed();
}

/// It names nothing that the code does not name.
pub fn optimised_names_nothing()
    ensures { OptimisedNamesNothing }
{}

/// Where the code is closed, it is closed: each function that has lines there has some.
pub fn optimised_is_closed()
    ensures functions { OptimisedKeepsFunctions }
    ensures closed { OptimisedIsClosed }
{}

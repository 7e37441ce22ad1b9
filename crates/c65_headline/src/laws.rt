// The main theorem, each form the contract of a function that does nothing.
ghost use Rattle.c65_headline.specs.Planned.{RowsTakeSeven};
ghost use Rattle.c65_headline.specs.Laws.{HeadlineHolds, HeadlineHoldsToday};

use c65_gen_law_names::{main_has_lines, programs_are_closed};
use c65_know_law::notes_are_true;
use c65_link_law_runtime::linked_runtimes_are_met;
use c65_meaning_law_turns::turns_go_on;
use c65_opt_law_opened::opened_calls_serve;
use c65_opt_law_program::literals_are_constant;
use c65_opt_law_whole::{optimised_is_closed, optimised_is_followed, optimised_names_nothing};
use c65_ppdir_law::units_are_one;

/// From the laws that are left, the tool's clause and the making of the code, the main theorem follows.
pub fn headline_holds()
    ensures { HeadlineHolds }
{
    units_are_one();
    turns_go_on();
    programs_are_closed();
    main_has_lines();
    literals_are_constant();
    opened_calls_serve();
    optimised_is_followed();
    optimised_is_closed();
    optimised_names_nothing();
    notes_are_true();
    linked_runtimes_are_met();
}

/// It follows from the laws that are left and the tool's clause, which says how the code was made.
pub fn headline_holds_today()
    ensures { HeadlineHoldsToday }
{
    units_are_one();
    turns_go_on();
    programs_are_closed();
    main_has_lines();
    literals_are_constant();
    opened_calls_serve();
    optimised_is_followed();
    optimised_is_closed();
    optimised_names_nothing();
    notes_are_true();
    linked_runtimes_are_met();
}

/// A row takes at most 7 cycles, on either processor.
pub fn rows_take_seven()
    ensures { RowsTakeSeven }
{}

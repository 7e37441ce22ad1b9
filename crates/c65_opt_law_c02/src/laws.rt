// A law of rules, the contract of a function that does nothing.
ghost use Rattle.c65_opt_law_kept.specs.Laws.{RuleIsFollowed};

use c65_live::dead_is_not_live;

/// What the rules for the 65C02 make is followed: a zero that is stored, A counted up and down, and a byte loaded and stored through
/// a pointer, each by one line in place of two.
pub fn processor_lines_are_followed()
    ensures zero_stored { RuleIsFollowed 41 }
    ensures stepped_up { RuleIsFollowed 42 }
    ensures stepped_down { RuleIsFollowed 43 }
    ensures loaded_through { RuleIsFollowed 44 }
    ensures stored_through { RuleIsFollowed 45 }
{
    dead_is_not_live();
}

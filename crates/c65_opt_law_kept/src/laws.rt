// Laws of rules, the contract of a function that does nothing.
ghost use Rattle.c65_opt_law_kept.specs.Laws.{RuleIsFollowed};

use c65_live::dead_is_not_live;
use c65_optarith_law::arithmetic_is_kept;
use c65_optload_law::loads_are_kept;

/// What the rules on arithmetic, comparisons and flags make is followed.
pub fn arithmetic_is_followed()
    ensures idle_carry { RuleIsFollowed 24 }
    ensures dead_carry { RuleIsFollowed 25 }
    ensures idle_compare { RuleIsFollowed 26 }
    ensures dead_compare { RuleIsFollowed 27 }
    ensures idle_mask { RuleIsFollowed 28 }
    ensures stepped_back { RuleIsFollowed 29 }
    ensures idle_sum { RuleIsFollowed 30 }
    ensures joined { RuleIsFollowed 31 }
    ensures dead_arithmetic { RuleIsFollowed 32 }
{
    arithmetic_is_kept();
}

/// What the rules on loads, stores and transfers make is followed.
pub fn loads_are_followed()
    ensures idle_load { RuleIsFollowed 10 }
    ensures dead_load { RuleIsFollowed 11 }
    ensures dead_store { RuleIsFollowed 12 }
    ensures reload { RuleIsFollowed 13 }
    ensures restore { RuleIsFollowed 14 }
    ensures overwritten { RuleIsFollowed 15 }
    ensures dead_transfer { RuleIsFollowed 16 }
    ensures idle_transfer { RuleIsFollowed 17 }
    ensures back { RuleIsFollowed 18 }
    ensures transferred { RuleIsFollowed 19 }
    ensures idle_byte_load { RuleIsFollowed 20 }
    ensures idle_store { RuleIsFollowed 21 }
    ensures stepped { RuleIsFollowed 22 }
    ensures moved_on { RuleIsFollowed 23 }
{
    loads_are_kept();
    dead_is_not_live();
}

// What the rules keep: the contract of a function that does nothing.
ghost use Rattle.c65_optarith_law.specs.Straight.{IsKept};

use c65_live::dead_is_not_live;

/// Where one of the rules matches, its lines lead on as those that stood there, with the same in all that is live behind them.
pub fn arithmetic_is_kept()
    ensures idle_carry { IsKept 24 }
    ensures dead_carry { IsKept 25 }
    ensures idle_compare { IsKept 26 }
    ensures dead_compare { IsKept 27 }
    ensures idle_mask { IsKept 28 }
    ensures stepped_back { IsKept 29 }
    ensures idle_sum { IsKept 30 }
    ensures joined { IsKept 31 }
    ensures dead_arithmetic { IsKept 32 }
{
    dead_is_not_live();
}

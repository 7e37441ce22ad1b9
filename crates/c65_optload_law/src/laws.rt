// What the rules keep: the contract of a function that does nothing.
ghost use Rattle.c65_optarith_law.specs.Straight.{IsKept};

use c65_live::dead_is_not_live;

/// Where one of the rules matches, its lines lead on as those that stood there, with the same in all that is live behind them.
pub fn loads_are_kept()
    ensures idle_load { IsKept 10 }
    ensures dead_load { IsKept 11 }
    ensures reload { IsKept 13 }
    ensures restore { IsKept 14 }
    ensures overwritten { IsKept 15 }
    ensures dead_transfer { IsKept 16 }
    ensures idle_transfer { IsKept 17 }
    ensures back { IsKept 18 }
    ensures transferred { IsKept 19 }
    ensures idle_byte_load { IsKept 20 }
    ensures idle_store { IsKept 21 }
    ensures stepped { IsKept 22 }
    ensures moved_on { IsKept 23 }
{
    dead_is_not_live();
}

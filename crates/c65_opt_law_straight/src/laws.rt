// Laws of lines in a row, each the contract of a function that does nothing.
ghost use Rattle.c65_opt_law_straight.specs.Laws.{LinesStayNear, WindowStaysNear};

use c65_optarith_law::arithmetic_is_kept;

/// Operations in a row lead from near states to near ones.
pub fn lines_stay_near()
    ensures { LinesStayNear }
{}

/// Where one of the rules on arithmetic matches, its lines lead from a near state to one that is near that to which the lines led.
pub fn arithmetic_stays_near()
    ensures idle_carry { WindowStaysNear 24 }
    ensures dead_carry { WindowStaysNear 25 }
    ensures idle_compare { WindowStaysNear 26 }
    ensures dead_compare { WindowStaysNear 27 }
    ensures idle_mask { WindowStaysNear 28 }
    ensures stepped_back { WindowStaysNear 29 }
    ensures idle_sum { WindowStaysNear 30 }
    ensures joined { WindowStaysNear 31 }
    ensures dead_arithmetic { WindowStaysNear 32 }
{
    arithmetic_is_kept();
}

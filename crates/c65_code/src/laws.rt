// Laws of the machine on lines, each the contract of a function that does nothing.
ghost use Rattle.c65_code.specs.Examples.{GivesResult};
ghost use Rattle.c65_code.specs.Numbering.{RoutinesAreNumbered};
ghost use Rattle.c65_code.specs.Opcodes.{RowsAreTheTables, AddedRowsAreTheTables};
ghost use Rattle.c65_code.specs.LineLaws.{NeverSticks, RunsWeigh, LeavesAOpen, CallsLeaveYOpen, UpwardCopiesGoOn, RawStatesAreBytes, RoutinesLeaveBytes};

use crate::routine::{TosOp, Width};

/// Operators at numbers worked by hand.
pub fn operator_results()
    ensures product { GivesResult TosOp.Mul Width.Ax 300 300 24464 }
    ensures quotient { GivesResult TosOp.Div Width.Ax 65529 2 0xFFFD }
    ensures shift { GivesResult TosOp.Asr Width.Ax 65528 1 0xFFFC }
    ensures remainder { GivesResult TosOp.UMod Width.Eax 605032704 251 216 }
{}

/// Where a steady run stands at a line that is no call of a routine, there is a move.
pub fn never_sticks()
    ensures { NeverSticks }
{}

/// Each move of a steady run weighs at least one.
pub fn runs_weigh()
    ensures { RunsWeigh }
{}

/// What a row may change without giving it a value may be anything.
pub fn rows_leave_a_open()
    ensures { LeavesAOpen }
{}

/// What a call does not pass may be anything in the callee.
pub fn calls_leave_y_open()
    ensures { CallsLeaveYOpen }
{}

/// A line may have a row of the 6502 exactly where the table of opcodes has it, and of those that the 65C02 adds only rows of
/// its table.
pub fn rows_are_the_tables()
    ensures nmos { RowsAreTheTables }
    ensures added { AddedRowsAreTheTables }
{}

/// Each routine stands at its number in the table of all.
pub fn routines_are_numbered()
    ensures { RoutinesAreNumbered }
{}

/// `strcpy(p + 1, p)` of a text that is not empty writes over all memory.
pub fn upward_copies_go_on()
    ensures { UpwardCopiesGoOn }
{}

/// On the machine whose calls all enter lines, states after moves, hooks and routines are made of bytes.
pub fn raw_states_are_bytes()
    ensures moves { RawStatesAreBytes }
    ensures routines { RoutinesLeaveBytes }
{}

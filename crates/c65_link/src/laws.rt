// Laws of the tables, each the contract of a function that does nothing.
ghost use Rattle.c65_link.specs.Laws.{OpcodesAreTheTables, OppositesDiffer, CallsGoOn};

/// Each row of the table of opcodes has the opcode of its operation and mode.
pub fn opcodes_are_the_tables()
    ensures { OpcodesAreTheTables }
{}

/// The opposite of a branch is taken exactly where the branch is not.
pub fn opposites_differ()
    ensures { OppositesDiffer }
{}

/// A routine calls only routines that stand behind it in the table of all: those that are taken in one pass are all that are used.
pub fn calls_go_on()
    ensures { CallsGoOn }
{}

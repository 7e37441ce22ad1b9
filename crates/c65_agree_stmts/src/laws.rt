// Laws of the lines of statements, each the contract of a function that does nothing.
ghost use Rattle.c65_agree_stmts.specs.Laws.{BlockDoes, BlockLands, BodiesDo, BodiesEnd, BothDo, BothLand, BreakDoes, CaseDoes, CaseLands, ContinueDoes, DefaultDoes, DefaultLands, DoDoes, DoLands, EffectsJoin, EmptyDoes, EvalDoes, ForDoes, ForLands, GotoDoes, IfDoes, IfLands, LabelDoes, LabelLands, LabelsLead, LastsDo, NoneDo, OpenBlockDoes, ReturnDoes, ReturnOfDoes, StatementsDo, SwitchDoes, SwitchLands, ValuesAreEffects, WhileDoes, WhileLands};

/// Lines that give a value do the work also where it is not used.
pub fn values_are_effects()
    ensures { ValuesAreEffects }
{}

/// The lines of the two sides of `,` do the work of both, where the value is not used.
pub fn effects_join()
    ensures { EffectsJoin }
{}

/// An empty statement takes no lines.
pub fn empty_does()
    ensures { EmptyDoes }
{}

/// The lines of an expression whose value is not used do the work of its statement.
pub fn eval_does()
    ensures { EvalDoes }
{}

/// No statements take no lines.
pub fn none_do()
    ensures { NoneDo }
{}

/// The lines of statements stand one behind another.
pub fn both_do()
    ensures { BothDo }
{}

/// The lines of a block without objects are those of its statements.
pub fn block_does()
    ensures { BlockDoes }
{}

/// The objects of a block begin with it and end with it.
pub fn open_block_does()
    ensures { OpenBlockDoes }
{}

/// The lines of `if` do its work.
pub fn if_does()
    ensures { IfDoes }
{}

/// The lines of `while` do its work, turn by turn.
pub fn while_does()
    ensures { WhileDoes }
{}

/// The lines of `do` do its work, turn by turn.
pub fn do_does()
    ensures { DoDoes }
{}

/// The lines of `for` do its work, turn by turn.
pub fn for_does()
    ensures { ForDoes }
{}

/// `break` leads behind its loop or switch.
pub fn break_does()
    ensures { BreakDoes }
{}

/// `continue` leads to the end of the body of its loop.
pub fn continue_does()
    ensures { ContinueDoes }
{}

/// `return` leads to the end of the function.
pub fn return_does()
    ensures { ReturnDoes }
{}

/// And so it does with a value, which is in the primary register.
pub fn return_of_does()
    ensures { ReturnOfDoes }
{}

/// A label takes no work.
pub fn label_does()
    ensures { LabelDoes }
{}

/// Statements go on through a `case` label.
pub fn case_does()
    ensures { CaseDoes }
{}

/// And through a `default` label.
pub fn default_does()
    ensures { DefaultDoes }
{}

/// `goto` leads to its label, where blocks have ended and begun.
pub fn goto_does()
    ensures { GotoDoes }
{}

/// Behind a label of the function its statement and what follows it are done.
pub fn label_lands()
    ensures { LabelLands }
{}

/// So it is behind a `case` label.
pub fn case_lands()
    ensures { CaseLands }
{}

/// And behind a `default` label.
pub fn default_lands()
    ensures { DefaultLands }
{}

/// In a list the statements behind the label follow.
pub fn both_land()
    ensures { BothLand }
{}

/// In a block its objects have begun.
pub fn block_lands()
    ensures { BlockLands }
{}

/// In an arm of `if` what follows the `if` follows.
pub fn if_lands()
    ensures { IfLands }
{}

/// In a loop its next turns follow.
pub fn while_lands()
    ensures { WhileLands }
{}

/// So it is in `do`.
pub fn do_lands()
    ensures { DoLands }
{}

/// And in `for`.
pub fn for_lands()
    ensures { ForLands }
{}

/// A `goto` may come from anywhere in the call.
pub fn labels_lead()
    ensures { LabelsLead }
{}

/// `switch` leads to the case of its value, where the lines that choose do.
pub fn switch_does()
    ensures { SwitchDoes }
{}

/// Labels of the function may stand in its body.
pub fn switch_lands()
    ensures { SwitchLands }
{}

/// The lines of the body of a function do its work.
pub fn bodies_do()
    ensures { BodiesDo }
{}

/// Behind a body that returns at its end the end of the function stands.
pub fn bodies_end()
    ensures { BodiesEnd }
{}

/// The lines of each statement do its work, where its expressions do theirs.
pub fn statements_do()
    ensures { StatementsDo }
{}

/// Where it stands last in its function, a return at its end needs no jump.
pub fn lasts_do()
    ensures { LastsDo }
{}

// Laws of windows and of rules, each the contract of a function that does nothing.
ghost use Rattle.c65_opt_law_kept.specs.Laws.{RuleIsFollowed};
ghost use Rattle.c65_opt_law_stack.specs.Windows.{BytesMove, MovesJoin, OperatorsInLine, PushGoes, WordsAtSp, ZerosPush};

/// Whatever is live behind them, and with nothing known before them, no lines may stand for a push that is taken back, one move of sp for
/// two and for one by a byte in Y, a routine of its own for a push of zero and for the word at sp, and plain lines for a push, a word and
/// an operator.
pub fn windows_stand()
    ensures push { PushGoes }
    ensures moves { MovesJoin }
    ensures bytes { BytesMove }
    ensures zeros { ZerosPush }
    ensures words { WordsAtSp }
    ensures operators { OperatorsInLine }
{}

/// What the rules on one and two calls make is followed.
pub fn calls_are_followed()
    ensures taken_back { RuleIsFollowed 33 }
    ensures moved_at_once { RuleIsFollowed 34 }
    ensures moved_by_byte { RuleIsFollowed 35 }
    ensures zero_pushed { RuleIsFollowed 36 }
    ensures word_at_sp { RuleIsFollowed 37 }
{}

/// So are the lines that the rule on operators makes.
pub fn operators_are_followed()
    ensures { RuleIsFollowed 38 }
{}

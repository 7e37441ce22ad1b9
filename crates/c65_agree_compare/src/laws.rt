// Laws of the lines of tests, each the contract of a function that does nothing.
ghost use Rattle.c65_agree_compare.specs.Laws.{AreasDo, BranchesAreTests, BranchesTest, ChoiceLinesAre, ChoicesDo, CommaLinesAre, CommasBranch, CommasDoIn, ComparisonLinesAre, EqualWordsSettle, JointLinesAre, JointsSettle, LeftTruthsSettle, NotsSettle, OrderedWordsSettle, RightTruthsSettle, SettlementsBranch, SettlementsDecide, StackedComparisonsSettle, ValuesAreTested};

/// Tests behind which more is known of a taken branch are tests.
pub fn branches_test()
    ensures { BranchesTest }
{}

/// So it is where the value is 1 or 0.
pub fn settlements_decide()
    ensures { SettlementsDecide }
{}

/// Lines that settle whether a value is 1 or 0 test it.
pub fn settlements_branch()
    ensures { SettlementsBranch }
{}

/// In any manner they test, and what tests does so in the usual one.
pub fn branches_are_tests()
    ensures { BranchesAreTests }
{}

/// A value in its register is tested by all its bytes.
pub fn values_are_tested()
    ensures { ValuesAreTested }
{}

/// A test of `!` is one of the other sense.
pub fn nots_settle()
    ensures { NotsSettle }
{}

/// The tests of `&&` and `||` are those of their sides.
pub fn joints_settle()
    ensures { JointsSettle }
{}

/// The lines of `?:` do its work behind a test.
pub fn choices_do()
    ensures { ChoicesDo }
{}

/// A place of a structure or union gives its address as the value.
pub fn areas_do()
    ensures { AreasDo }
{}

/// The lines of `,` are those of its two sides.
pub fn commas_do_in()
    ensures { CommasDoIn }
{}

/// So are those of a test of it.
pub fn commas_branch()
    ensures { CommasBranch }
{}

/// The lines of a comparison by a routine test its value.
pub fn stacked_comparisons_settle()
    ensures { StackedComparisonsSettle }
{}

/// Beside 0 the left side is tested.
pub fn left_truths_settle()
    ensures { LeftTruthsSettle }
{}

/// Or the right side is.
pub fn right_truths_settle()
    ensures { RightTruthsSettle }
{}

/// The lines of an equality with a word that is read where it lies test its value.
pub fn equal_words_settle()
    ensures { EqualWordsSettle }
{}

/// So do those of an order of such words without sign.
pub fn ordered_words_settle()
    ensures { OrderedWordsSettle }
{}

/// The lines of `&&` and `||` are joined from tests of their sides.
pub fn joint_lines_are()
    ensures { JointLinesAre }
{}

/// Those of `?:` are from its test and its arms.
pub fn choice_lines_are()
    ensures { ChoiceLinesAre }
{}

/// Those of `,` are from its two sides, whatever is wanted.
pub fn comma_lines_are()
    ensures { CommaLinesAre }
{}

/// Those of a comparison are by its form, from those of its sides.
pub fn comparison_lines_are()
    ensures { ComparisonLinesAre }
{}

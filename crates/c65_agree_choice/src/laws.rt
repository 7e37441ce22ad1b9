// Laws of the lines that choose a case, each the contract of a function that does nothing.
ghost use Rattle.c65_agree_choice.specs.Laws.{CasesAreOfType, ChoicesLead, WordsTellNumbers};

/// Numbers of one type are told apart by their words.
pub fn words_tell_numbers()
    ensures { WordsTellNumbers }
{}

/// The cases of a switch are numbers of its type.
pub fn cases_are_of_type()
    ensures { CasesAreOfType }
{}

/// From a number of the type of a switch the lines that choose lead to the label of its case, or to the other one.
pub fn choices_lead()
    ensures { ChoicesLead }
{}

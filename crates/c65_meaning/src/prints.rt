// Programs that print by a format, and those that `printf` gives no meaning.
ghost use Rattle.std.specs.Prelude.{[], ◌∷◌, ◌++◌, codes};
ghost use Rattle.c65_meaning.specs.Building.{number};
ghost use Rattle.c65_meaning.specs.Endings.{EndsAfter};
ghost use Rattle.c65_meaning.specs.PrintSamples.{printing_with, forms_printed, unset_printed, address_printed, unset_text_printed, null_printed};

use crate::action::Action;
use crate::ending::Ending;

/// `int main(void){return printf("%5d|%x|%c|%s|%ld|%%\n",-42,255,'A',"hi",100000L);}`
pub fn each_form_is_printed() -> Ending
    ensures { EndsAfter forms_printed [] [] 70 (codes "  -42|ff|A|hi|100000|%" ++ 10 ∷ []) 0 result }
{
    Ending::Status(23) // 21 + 12 + 3 bytes are read, and 23 written
}

/// `int main(void){return printf("%d %d",1,2);}`
pub fn further_arguments_are_printed_in_order() -> Ending
    ensures { EndsAfter (printing_with (codes "%d %d") (number 1 ∷ number 2 ∷ [])) [] [] 20 (codes "1 2") 0 result }
{
    Ending::Status(3)
}

/// `int main(void){return printf("%0d",1);}`
pub fn a_width_that_begins_with_zero() -> Ending
    ensures { EndsAfter (printing_with (codes "%0d") (number 1 ∷ [])) [] [] 5 [] 0 result }
{
    Ending::Undefined(Action::LibraryArgument)
}

/// `int main(void){return printf("50%");}`
pub fn a_format_that_ends_within_a_field() -> Ending
    ensures { EndsAfter (printing_with (codes "50%") []) [] [] 4 [] 0 result }
{
    Ending::Undefined(Action::LibraryArgument)
}

/// `int main(void){return printf("%ld",1);}`
pub fn an_argument_of_which_two_bytes_are_lacking() -> Ending
    ensures { EndsAfter (printing_with (codes "%ld") (number 1 ∷ [])) [] [] 5 [] 0 result }
{
    Ending::Undefined(Action::LibraryArgument)
}

/// `struct s{char a,b;};int main(void){struct s y;return printf("%d",y);}`
pub fn an_argument_with_unset_bits() -> Ending
    ensures { EndsAfter unset_printed [] [] 7 [] 0 result }
{
    Ending::Undefined(Action::LibraryArgument)
}

/// `int main(void){int a;return printf("%d",(int)&a);}`
pub fn an_address_printed_as_a_number() -> Ending
    ensures { EndsAfter address_printed [] [] 8 [] 0 result }
{
    Ending::Undefined(Action::LibraryArgument)
}

/// `int main(void){return printf("%s",(char*)0);}`
pub fn a_null_pointer_printed_as_a_text() -> Ending
    ensures { EndsAfter null_printed [] [] 5 [] 0 result }
{
    Ending::Undefined(Action::LibraryArgument)
}

/// `int main(void){char a[2];return printf("%s",a);}`
pub fn a_text_with_unset_bits() -> Ending
    ensures { EndsAfter unset_text_printed [] [] 7 [] 0 result }
{
    Ending::Undefined(Action::UnsetBit)
}

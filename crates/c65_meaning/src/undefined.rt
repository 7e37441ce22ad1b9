// Programs that come to an undefined action, at least one for each, and one that calls too deep.
ghost use Rattle.std.specs.Prelude.{[], ◌∷◌};
ghost use Rattle.c65_meaning.specs.Endings.{EndsAfter};
ghost use Rattle.c65_meaning.specs.UndefinedSamples.{by_zero, shift_by_width, unset_integer, null_followed, element_read, order_across, literal_written, address_added_to, end_met, misfit, missing_result, length_of_null, overlapping_copy, pointer_left, jump_past_initialiser, no_end_of_calls, entered_twice, missing_structure, structure_behind, structure_left, further_passed_over, none_further, further_left};

use crate::action::Action;
use crate::ending::Ending;

/// `int main(void){return 1/0;}`
pub fn a_quotient_by_zero() -> Ending
    ensures { EndsAfter by_zero [] [] 2 [] 0 result }
{
    Ending::Undefined(Action::DivisionByZero)
}

/// `int main(void){return 1<<16;}`
pub fn a_shift_by_the_width() -> Ending
    ensures { EndsAfter shift_by_width [] [] 2 [] 0 result }
{
    Ending::Undefined(Action::ShiftCount)
}

/// `int main(void){int a;return a;}`
pub fn an_unset_object_read() -> Ending
    ensures { EndsAfter unset_integer [] [] 2 [] 0 result }
{
    Ending::Undefined(Action::UnsetBit) // a is unset
}

/// `int main(void){goto in;{int x=1;in:return x;}}`
pub fn a_jump_past_an_initialiser() -> Ending
    ensures { EndsAfter jump_past_initialiser [] [] 3 [] 0 result }
{
    Ending::Undefined(Action::UnsetBit) // x is new
}

/// `int main(void){return *(int*)0;}`
pub fn a_null_pointer_followed() -> Ending
    ensures { EndsAfter null_followed [] [] 1 [] 0 result }
{
    Ending::Undefined(Action::OutsideObject)
}

/// `int main(void){int a[2];return a[2];}`
pub fn an_element_behind_the_last() -> Ending
    ensures { EndsAfter (element_read 2) [] [] 6 [] 0 result }
{
    Ending::Undefined(Action::OutsideObject)
}

/// `int main(void){int a,b;return &a<&b;}`
pub fn an_order_of_two_objects() -> Ending
    ensures { EndsAfter order_across [] [] 5 [] 0 result }
{
    Ending::Undefined(Action::PointersApart)
}

/// `int main(void){*"a"=1;}`
pub fn a_literal_written() -> Ending
    ensures { EndsAfter literal_written [] [] 4 [] 0 result }
{
    Ending::Undefined(Action::ReadOnly)
}

/// `int main(void){int a[2];return a[3];}`
pub fn a_pointer_beyond_the_end() -> Ending
    ensures { EndsAfter (element_read 3) [] [] 4 [] 0 result }
{
    Ending::Undefined(Action::OffsetOutside)
}

/// `int main(void){int a;return(int)&a+1;}`
pub fn the_number_of_an_address() -> Ending
    ensures { EndsAfter address_added_to [] [] 5 [] 0 result }
{
    Ending::Undefined(Action::UnknownValue)
}

/// `int main(void){int a,b;return &a+1==&b;}`
pub fn the_end_of_one_object_and_another() -> Ending
    ensures { EndsAfter end_met [] [] 7 [] 0 result }
{
    Ending::Undefined(Action::EndOfObject)
}

/// `int f(int a,int b){return 0;} int main(void){return((int(*)(int))f)(1);}`
pub fn a_call_with_another_type() -> Ending
    ensures { EndsAfter misfit [] [] 3 [] 0 result }
{
    Ending::Undefined(Action::CalleeType)
}

/// `int f(void){return;} int main(void){return f();}`
pub fn a_result_that_is_missing() -> Ending
    ensures { EndsAfter missing_result [] [] 4 [] 0 result }
{
    Ending::Undefined(Action::NoResult)
}

/// `int main(void){return strlen(0);}`
pub fn a_text_at_a_null_pointer() -> Ending
    ensures { EndsAfter length_of_null [] [] 3 [] 0 result }
{
    Ending::Undefined(Action::LibraryArgument)
}

/// `struct s{char a,b;};int main(void){char x[3];*(struct s*)(x+0)=*(struct s*)(x+1);}`
pub fn a_copy_that_overlaps() -> Ending
    ensures { EndsAfter overlapping_copy [] [] 13 [] 0 result }
{
    Ending::Undefined(Action::PartialOverlap)
}

/// `int main(void){int*p;{int x=5;p=&x;goto out;}out:return *p;}`
pub fn a_pointer_out_of_its_block() -> Ending
    ensures { EndsAfter pointer_left [] [] 12 [] 0 result }
{
    Ending::Undefined(Action::EndedObject)
}

/// `int f(void){char a[1000];return f();} int main(void){return f();}`
pub fn calls_without_end() -> Ending
    ensures { EndsAfter no_end_of_calls [] [] 6 [] 0 result }
{
    Ending::TooDeep
}

/// `int f(void){int a;return f();} int main(void){return f();}`, where `a` has one place for the whole run
pub fn a_function_entered_again() -> Ending
    ensures { EndsAfter entered_twice [] [] 6 [] 0 result }
{
    Ending::Undefined(Action::FixedAgain)
}

/// `struct s{char a,b;};struct s f(void){return;} int main(void){return f().a;}`
pub fn a_structure_that_is_missing() -> Ending
    ensures { EndsAfter missing_structure [] [] 5 [] 0 result }
{
    Ending::Undefined(Action::NoResult)
}

/// `struct s{char a,b;};int f(struct s x){return x.a;} int main(void){struct s y;return f(*(&y+1));}`
pub fn a_structure_behind_its_object() -> Ending
    ensures { EndsAfter structure_behind [] [] 8 [] 0 result }
{
    Ending::Undefined(Action::OutsideObject)
}

/// `struct s{char a,b;};int f(struct s x){return x.a;} int main(void){struct s*p;{struct s y;p=&y;goto out;}out:return f(*p);}`
pub fn a_structure_out_of_its_block() -> Ending
    ensures { EndsAfter structure_left [] [] 12 [] 0 result }
{
    Ending::Undefined(Action::EndedObject)
}

/// `int f(int n,...){unsigned char*p=__va_rest;p-=2;return *(int*)(p-=2);} int main(void){return f(0,5);}`
pub fn a_further_argument_behind_the_last() -> Ending
    ensures { EndsAfter further_passed_over [] [] 17 [] 0 result }
{
    Ending::Undefined(Action::OffsetOutside)
}

/// `int f(int n,...){char x;return __va_rest==&x+1;} int main(void){return f(0);}`
pub fn no_further_argument_and_another_object() -> Ending
    ensures { EndsAfter none_further [] [] 10 [] 0 result }
{
    Ending::Undefined(Action::EndOfObject)
}

/// `unsigned char*f(int n,...){return __va_rest;} int main(void){return *(f(0,1)-1);}`
pub fn a_further_argument_out_of_its_call() -> Ending
    ensures { EndsAfter further_left [] [] 8 [] 0 result }
{
    Ending::Undefined(Action::EndedObject)
}

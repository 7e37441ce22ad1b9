// Small programs whose meaning is computed: each function answers how its program ends.
ghost use Rattle.std.specs.Prelude.{[], ◌∷◌};
ghost use Rattle.c65_meaning.specs.Endings.{EndsAfter};
ghost use Rattle.c65_meaning.specs.Samples.{least_below_one, counting_loop, arguments_in_order, left_before_call, negative_shifted, bit_fields, structure_copied, switch_in_loop, jumps_both_ways, second_argument, library_calls, large_object, structure_passed, structure_returned, further_read};

use crate::action::Action;
use crate::ending::Ending;

/// `int main(void){int a=-32767-1;return a<1;}`
pub fn least_is_below_one() -> Ending
    ensures { EndsAfter least_below_one [] [] 7 [] 0 result }
{
    Ending::Status(1) // -32,768 < 1
}

/// `int main(void){int i=0;while(i<3)i++;return i;}`
pub fn a_loop_counts() -> Ending
    ensures { EndsAfter counting_loop [] [] 43 [] 3 result }
{
    Ending::Status(3) // 0 + 1 + 1 + 1
}

/// `int f(int a,int b){return a*10+b;} int main(void){int i=1;return f(i++,i);}`
pub fn arguments_go_from_left_to_right() -> Ending
    ensures { EndsAfter arguments_in_order [] [] 20 [] 1 result }
{
    Ending::Status(12) // 1 * 10 + 2
}

/// `static int i;int inc(void){return i=i+1;} int main(void){return i+inc();}`
pub fn the_left_operand_comes_before_a_call() -> Ending
    ensures { EndsAfter left_before_call [] [] 13 [] 1 result }
{
    Ending::Status(1) // 0 + 1
}

/// `int main(void){return -8>>1<0;}`
pub fn a_negative_number_shifted_right_stays_negative() -> Ending
    ensures { EndsAfter negative_shifted [] [] 5 [] 0 result }
{
    Ending::Status(1) // -4 < 0
}

/// `int main(void){struct{unsigned a:3,b:6;}s;s.b=70;return s.b;}`
pub fn a_bit_field_is_stored_over_unset_bits() -> Ending
    ensures { EndsAfter (bit_fields 1) [] [] 11 [] 0 result }
{
    Ending::Status(6) // 70 - 64
}

/// `int main(void){struct{unsigned a:3,b:6;}s;s.b=70;return s.a;}`
pub fn a_bit_field_leaves_other_bits_unset() -> Ending
    ensures { EndsAfter (bit_fields 0) [] [] 9 [] 0 result }
{
    Ending::Undefined(Action::UnsetBit) // the three bits of a
}

/// `int main(void){struct{char a,b;}s,t;s.a=7;t=s;return t.a;}`
pub fn a_structure_is_copied() -> Ending
    ensures { EndsAfter (structure_copied 0) [] [] 16 [] 0 result }
{
    Ending::Status(7)
}

/// `int main(void){struct{char a,b;}s,t;s.a=7;t=s;return t.b;}`
pub fn a_copy_carries_an_unset_byte() -> Ending
    ensures { EndsAfter (structure_copied 1) [] [] 14 [] 0 result }
{
    Ending::Undefined(Action::UnsetBit) // the byte of b
}

/// `int main(void){int i=0;again:++i;if(i<3)goto again;goto out;out:return i;}`
pub fn a_jump_back_is_a_turn() -> Ending
    ensures { EndsAfter jumps_both_ways [] [] 39 [] 2 result }
{
    Ending::Status(3)
}

/// `int main(void){int i,n=0;for(i=0;i<4;i++)switch(i){case 1:n+=10;case 2:n+=1;break;default:n+=100;}return n;}`
pub fn a_case_falls_through() -> Ending
    ensures { EndsAfter switch_in_loop [] [] 114 [] 4 result }
{
    Ending::Status(212) // 100 + 11 + 1 + 100
}

/// `int main(int c,char**v){return v[1][0];}` with the arguments `x` and `B`
pub fn an_argument_is_read() -> Ending
    ensures { EndsAfter second_argument ((120 ∷ []) ∷ (66 ∷ []) ∷ []) [] 9 [] 0 result }
{
    Ending::Status(66)
}

/// `int main(void){return puts("hi")+strcmp("ab","ad");}`
pub fn the_library_writes_and_compares() -> Ending
    ensures { EndsAfter library_calls [] [] 23 (104 ∷ 105 ∷ 10 ∷ []) 0 result }
{
    Ending::Status(254) // 0 + (98 - 100)
}

/// `int main(void){char a[3000];return 7;}`, where `a` has one place for the whole run
pub fn a_large_object_takes_none_of_the_stack() -> Ending
    ensures { EndsAfter large_object [] [] 2 [] 0 result }
{
    Ending::Status(7)
}

/// `struct s{char*p;unsigned a:3,b:6;};int f(struct s x){return*x.p+x.b;} int main(void){char c=7;struct s y;y.p=&c;y.b=5;return f(y);}`
pub fn an_argument_carries_a_pointer() -> Ending
    ensures { EndsAfter (structure_passed 2) [] [] 33 [] 1 result }
{
    Ending::Status(12) // 7 + 5
}

/// The same with `x.a` in the place of `x.b`
pub fn an_argument_carries_an_unset_bit() -> Ending
    ensures { EndsAfter (structure_passed 1) [] [] 29 [] 1 result }
{
    Ending::Undefined(Action::UnsetBit) // the three bits of a
}

/// `struct s{char a,b,c;};struct s mk(char n){struct s r;r.a=1;r.b=n;r.c=40;return r;} int get(struct s x){return x.c-x.a+x.b;}
/// int main(void){return get(mk(3))+mk(5).b;}`
pub fn a_call_gives_three_bytes() -> Ending
    ensures { EndsAfter structure_returned [] [] 84 [] 3 result }
{
    Ending::Status(47) // 40 - 1 + 3 + 5
}

/// `int f(int n,...){unsigned char*p=__va_rest;int a=*(int*)(p-=2);return a-(int)*(long*)(p-=4);} int main(void){return f(0,50,8L);}`
pub fn further_arguments_are_read() -> Ending
    ensures { EndsAfter further_read [] [] 31 [] 1 result }
{
    Ending::Status(42) // 50 - 8
}

// Small programs whose meaning is computed: each function answers how its program ends.
ghost use Rattle.std.specs.Prelude.{[]};
ghost use Rattle.c65_meaning.specs.Endings.{EndsAfter};
ghost use Rattle.c65_fold_law.specs.Programs.{folded_program};
ghost use Rattle.c65_fold_law.specs.Samples.{product_wraps, quotient_cut, shift_down, long_remainder, jump_out, sum_of_constants};

use c65_meaning::Ending;

/// `int main(void){return 300*300==24464;}`
pub fn a_product_wraps() -> Ending
    ensures { EndsAfter product_wraps [] [] 5 [] 0 result }
{
    Ending::Status(1) // 90,000 - 65,536
}

/// `int main(void){return -7/2==-3;}`
pub fn a_quotient_is_cut_toward_zero() -> Ending
    ensures { EndsAfter quotient_cut [] [] 5 [] 0 result }
{
    Ending::Status(1) // and not -4
}

/// `int main(void){return -8>>1==-4;}`
pub fn a_shift_goes_down_by_halves() -> Ending
    ensures { EndsAfter shift_down [] [] 5 [] 0 result }
{
    Ending::Status(1)
}

/// `int main(void){return 605032704UL%251UL==216UL;}`
pub fn a_remainder_of_32_bits() -> Ending
    ensures { EndsAfter long_remainder [] [] 5 [] 0 result }
{
    Ending::Status(1)
}

/// `int main(void){int i=1;{int k=2;i=k;goto out;}out:return i;}`
pub fn a_jump_leaves_its_block() -> Ending
    ensures { EndsAfter jump_out [] [] 14 [] 0 result }
{
    Ending::Status(2) // what k was
}

/// `int main(void){return 1+2*3;}`, in six steps, and in two when it is folded
pub fn a_sum_is_folded() -> Ending
    ensures plain { EndsAfter sum_of_constants [] [] 5 [] 0 result }
    ensures folded { EndsAfter (folded_program sum_of_constants) [] [] 1 [] 0 result }
{
    Ending::Status(7) // 1 + 6
}

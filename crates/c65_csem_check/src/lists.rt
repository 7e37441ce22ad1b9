// Lists whose items stand once.
ghost use Rattle.std.specs.Prelude.{◌≡◌};
ghost use Rattle.c65_csem_check.specs.Statements;

pub fn has_number(numbers: &[u32], number: u32) -> bool
    ensures { result ≡ Statements.has_number numbers.now number }
{
    for other in numbers {
        if *other == number {
            return true;
        }
    }
    false
}

pub fn are_distinct(numbers: &[u32]) -> bool
    ensures { result ≡ Statements.are_distinct numbers.now }
{
    for (i, number) in numbers.iter().enumerate() {
        if has_number(&numbers[i + 1..], *number) {
            return false;
        }
    }
    true
}

fn same_value(x: i64, y: i64) -> bool
    ensures { result ≡ Statements.same_value x y }
{
    x <= y && y <= x
}

fn has_value(values: &[i64], value: i64) -> bool
    ensures { result ≡ Statements.has_value values.now value }
{
    for other in values {
        if same_value(*other, value) {
            return true;
        }
    }
    false
}

pub fn are_distinct_values(values: &[i64]) -> bool
    ensures { result ≡ Statements.are_distinct_values values.now }
{
    for (i, value) in values.iter().enumerate() {
        if has_value(&values[i + 1..], *value) {
            return false;
        }
    }
    true
}

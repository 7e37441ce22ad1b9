// The source, line by line.
ghost use Rattle.std.specs.Prelude.{◌≡◌, ◌++◌, IfOk, IfErr, OnOk, string_bytes};
ghost use Rattle.c65_biggen.specs.Generated;
ghost use Rattle.c65_biggen.specs.Generated.{function_line, call_line, functions, calls, generated_source};

use c65_base::Refusal;
use std::alloc::{AllocError, Global};

/// The number that stands in the function behind the one with this number (Knuth's linear congruential sequence modulo 65,536).
fn next(number: u16) -> u16
    ensures { result ≡ Generated.next number }
{
    ((25_173 * u32::from(number) + 13_849) % 65_536) as u16
}

/// A function, with its index and its number.
fn function_line(alloc: Global, index: u8, number: u16) -> Result<String, AllocError>
    ensures { IfOk result (λ line. string_bytes line ≡ function_line index number) }
{
    format!(in alloc; "unsigned f{index}(unsigned x){{return(x*3u+{number}u)^(x>>1);}}\n")
}

/// The call of a function.
fn call_line(alloc: Global, index: u8) -> Result<String, AllocError>
    ensures { IfOk result (λ line. string_bytes line ≡ call_line index) }
{
    format!(in alloc; "x=f{index}(x);\n")
}

fn push_functions(alloc: Global, count: u8, source: &mut Vec<u8>) -> Result<(), AllocError>
    ensures { OnOk result (source.new.items ≡ source.old.items ++ functions count 0 count) }
{
    let mut number = u16::from(count);
    for index in 0..count {
        let line = function_line(alloc, index, number)?;
        source.extend_from_slice(line.as_bytes())?;
        number = next(number);
    }
    Ok(())
}

fn push_calls(alloc: Global, count: u8, source: &mut Vec<u8>) -> Result<(), AllocError>
    ensures { OnOk result (source.new.items ≡ source.old.items ++ calls count 0) }
{
    for index in 0..count {
        let line = call_line(alloc, index)?;
        source.extend_from_slice(line.as_bytes())?;
    }
    Ok(())
}

/// The source of a program of so many functions beside its main function. `OutOfMemory` is the only refusal.
pub fn biggen(alloc: Global, number: u8) -> Result<Vec<u8>, Refusal>
    ensures ok { IfOk result (λ source. source.items ≡ generated_source number) }
    ensures refused { IfErr result (λ refusal. refusal ≡ Refusal.OutOfMemory) }
{
    let mut source = Vec::new(alloc);
    push_functions(alloc, number, &mut source)?;
    source.extend_from_slice(b"int main(void){unsigned x=1u;\n")?;
    push_calls(alloc, number, &mut source)?;
    source.extend_from_slice(b"return(int)(x&255u);}\n")?;
    Ok(source)
}

// The numbers of symbols.
ghost use Rattle.std.specs.Prelude.{◌≡◌, ◌+◌, ◌≤◌, ◌^◌, length, IfOk};
ghost use Rattle.c65_genframe.specs.Symbols.{numbers_of, object_symbol, literal_symbol, function_symbol};

use c65_code::Sym;
use c65_csem::Parts;
use std::alloc::AllocError;

/// How the symbols of a program are numbered: its objects, then its literals, then its functions.
#[derive(Clone, Copy, Debug, PartialEq, Eq)]
pub struct Numbers {
    literals: u32,
    functions: u32,
}

impl Numbers {
    /// The numbers of a program's symbols. One above the greatest u32 is refused as want of memory.
    pub fn of(parts: &Parts) -> Result<Numbers, AllocError>
        ensures numbers { IfOk result (λ n. n ≡ numbers_of parts.now) }
        ensures few { IfOk result (λ n. length parts.now.objects.items + length parts.now.literals.items + length parts.now.funcs.items ≤ 2 ^ 32) }
    {
        let objects = parts.objects.len();
        let literals = parts.literals.len();
        let functions = parts.funcs.len();
        if objects > 0x7fff_ffff || literals > 0x7fff_ffff {
            return Err(AllocError);
        }
        if functions > 0x1_0000_0000 - objects - literals {
            return Err(AllocError);
        }
        Ok(Numbers {
            literals: objects as u32,
            functions: (objects + literals) as u32,
        })
    }

    /// The symbol of an object, by its number.
    pub fn object(self, object: u32) -> Sym
        ensures { result ≡ object_symbol self object }
    {
        Sym(object)
    }

    /// The symbol of a literal, by its number.
    pub fn literal(self, literal: u32) -> Sym
        ensures { result ≡ literal_symbol self literal }
    {
        Sym(self.literals.wrapping_add(literal))
    }

    /// The symbol of a function, by its number.
    pub fn function(self, function: u32) -> Sym
        ensures { result ≡ function_symbol self function }
    {
        Sym(self.functions.wrapping_add(function))
    }
}

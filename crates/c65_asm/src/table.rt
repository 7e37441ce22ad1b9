// The symbols of a text, by the order in which it first names them, and sets of numbers.
ghost use Rattle.std.specs.Prelude.{◌≡◌, [], not, map, length, IfOk, OnOk};
ghost use Rattle.c65_base.specs.Names.{with_spelling};
ghost use Rattle.c65_code.specs.Segments.{is_among};
ghost use Rattle.c65_asm.specs.Symbols.{with_number, symbol_in, symbol_of, symbols_of};

use c65_base::Text;
use c65_code::{Sym, Symbol};
use indexmap::IndexSet;
use std::alloc::{AllocError, Global};
use std::marker::Model;

/// Numbers, each once, in the order in which they came.
#[derive(Drop)]
pub struct Numbers {
    set: IndexSet<u32>,
}

impl Model for Numbers {
    ghost use Rattle.std.specs.Prelude.{List, ℕ};

    ghost Value = { List ℕ };

    ghost view = { λ n. n.set.keys };
}

impl Numbers {
    pub fn new(alloc: Global) -> Numbers
        ensures { result ≡ [] }
    {
        Numbers {
            set: IndexSet::new(alloc),
        }
    }

    pub fn has(&self, number: u32) -> bool
        ensures { result ≡ is_among self.now number }
    {
        self.set.contains(&number)
    }

    /// Adds a number, unless it is there, and says whether it was not.
    pub fn add(&mut self, number: u32) -> Result<bool, AllocError>
        ensures is_new { IfOk result (λ is_new. is_new ≡ not (is_among self.old number)) }
        ensures numbers { OnOk result (self.new ≡ with_number self.old number) }
    {
        let (_, is_new) = self.set.insert_full(number)?;
        Ok(is_new)
    }
}

/// Spellings, each once, in the order in which they came.
#[derive(Drop)]
pub struct Table {
    spellings: IndexSet<Vec<u8>>,
    alloc: Global,
}

impl Model for Table {
    ghost use Rattle.std.specs.Prelude.{◌≤◌, ◌^◌, ℕ, List, map, length};
    ghost use Rattle.c65_base.specs.Names.{IsDistinct};

    ghost Value = { List (List ℕ) };

    ghost view = { λ t. map (λ v. v.items) t.spellings.keys };

    ghost invariant = { λ t. (length t.spellings.keys ≤ 2 ^ 32) × IsDistinct (map (λ v. v.items) t.spellings.keys) };
}

impl Table {
    pub fn new(alloc: Global) -> Table
        ensures { result ≡ [] }
    {
        Table {
            spellings: IndexSet::new(alloc),
            alloc,
        }
    }

    /// The symbol of a spelling: its own, or the next one.
    pub fn symbol(&mut self, spelling: &[u8]) -> Result<Sym, AllocError>
        ensures symbol { IfOk result (λ sym. sym ≡ symbol_in self.new spelling.now) }
        ensures table { OnOk result (self.new ≡ with_spelling self.old spelling.now) }
    {
        if let Some(at) = self.spellings.get_index_of(spelling) {
            return Ok(Sym(at as u32));
        }
        if self.spellings.len() == 4_294_967_296 {
            return Err(AllocError);
        }
        let owned = Vec::from_slice(self.alloc, spelling)?;
        let (at, _) = self.spellings.insert_full(owned)?;
        Ok(Sym(at as u32))
    }

    /// The symbols by number.
    pub fn symbols(&self, alloc: Global) -> Result<Vec<Symbol>, AllocError>
        ensures { IfOk result (λ symbols. symbols.items ≡ symbols_of self.now) }
    {
        symbols(alloc, self.spellings.as_slice())
    }
}

fn symbol(alloc: Global, spelling: &[u8]) -> Result<Symbol, AllocError>
    ensures { IfOk result (λ symbol. symbol ≡ symbol_of spelling.now) }
{
    let literal = match spelling {
        [first, ..] => *first == b'q',
        [] => false,
    };
    Ok(Symbol {
        spelling: Text::copy_of(alloc, spelling)?,
        literal,
    })
}

fn symbols(alloc: Global, spellings: &[Vec<u8>]) -> Result<Vec<Symbol>, AllocError>
    ensures { IfOk result (λ symbols. symbols.items ≡ symbols_of (map (λ v. v.items) spellings.now)) }
{
    let mut symbols = Vec::new(alloc);
    for spelling in spellings {
        let next = symbol(alloc, spelling.as_slice())?;
        symbols.push(next)?;
    }
    Ok(symbols)
}

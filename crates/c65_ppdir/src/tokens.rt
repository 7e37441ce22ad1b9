// The tokens of a unit, as lists between two directives give them.
ghost use Rattle.std.specs.Prelude.{◌≡◌, ◌++◌, ◌∷◌, [], IfErr, OnOk};
ghost use Rattle.c65_base.specs.Answers.{Gives};
ghost use Rattle.c65_base.specs.declared.refusal.Refusal.TheVariants.{OutOfMemory};
ghost use Rattle.c65_ppline.specs.Causes.{Stops};
ghost use Rattle.c65_ppline.specs.Expansions.{ReadsExpansion};
ghost use Rattle.c65_ppdir.specs.Gathering.{used};
ghost use Rattle.c65_ppdir.specs.UnitTokens;
ghost use Rattle.c65_ppdir.specs.UnitTokens.{with_token, with_tokens};

use c65_base::{Names, Refusal, Size};
use c65_lex::{PpKind, PpToken, PpTokens};
use c65_macro::Macros;
use c65_ppline::{Cut, expand};
use std::alloc::Global;
use std::marker::Model;
use std::mem;

/// The tokens that a list gave, and how many of them are no line ends.
#[derive(Drop)]
struct Gathered {
    tokens: Vec<PpToken>,
    count: u64,
}

impl Model for Gathered {
    ghost use Rattle.std.specs.Prelude.{◌≡◌, List};
    ghost use Rattle.c65_lex.specs.declared.token.PpToken.{PpToken};
    ghost use Rattle.c65_ppdir.specs.UnitTokens.{counted};

    ghost Value = { List PpToken };

    ghost view = { λ g. g.tokens.items };

    ghost invariant = { λ g. g.count ≡ counted g.tokens.items };
}

fn is_counted(token: &PpToken) -> bool
    ensures { result ≡ UnitTokens.is_counted token.now }
{
    match token.kind {
        PpKind::LineEnd => false,
        _ => true,
    }
}

impl Gathered {
    fn new(alloc: Global) -> Gathered
        ensures { result ≡ [] }
    {
        Gathered {
            tokens: Vec::new(alloc),
            count: 0,
        }
    }

    fn push(&mut self, token: PpToken) -> Result<(), Refusal>
        ensures stops { IfErr result Stops }
        ensures exact { Gives (λ _. self.new) result (with_token self.old token) }
    {
        if !is_counted(&token) {
            self.tokens.push(token)?;
            return Ok(());
        }
        if self.count >= Size::Tokens.number() {
            return Err(Refusal::TooLarge {
                limit: Size::Tokens,
                value: Size::Tokens.number() + 1,
            });
        }
        self.tokens.push(token)?;
        self.count += 1;
        Ok(())
    }

    fn push_all(&mut self, tokens: &[PpToken]) -> Result<(), Refusal>
        ensures stops { IfErr result Stops }
        ensures exact { Gives (λ _. self.new) result (with_tokens self.old tokens.now) }
    {
        let mut rest = tokens;
        while let Some((token, more)) = rest.split_first() {
            match self.push(*token) {
                Ok(()) => {}
                Err(refusal) => return Err(refusal),
            }
            rest = more;
        }
        Ok(())
    }

    /// Adds the expansion of a list.
    fn push_expanded(
        &mut self,
        list: &[PpToken],
        macros: &Macros,
        names: &mut Names,
    ) -> Result<(), Refusal>
        ensures stops { IfErr result Stops }
        ensures exact { ReadsExpansion (λ _. self.new) (λ _ out. with_tokens self.old out) macros.now names.old list.now names.new result }
    {
        match expand(macros, list, names) {
            Ok(expanded) => self.push_all(&expanded),
            Err(refusal) => Err(refusal),
        }
    }
}

/// The tokens of a unit so far, and those read since the last directive or beginning or end of a file.
#[derive(Drop)]
pub struct Output {
    given: Gathered,
    list: Vec<PpToken>,
    alloc: Global,
}

impl Output {
    pub fn new(alloc: Global) -> Output
        ensures given { result.given ≡ [] }
        ensures list { result.list.items ≡ [] }
    {
        Output {
            given: Gathered::new(alloc),
            list: Vec::new(alloc),
            alloc,
        }
    }

    /// A token that was read.
    pub fn add(&mut self, token: PpToken) -> Result<(), Refusal>
        ensures refused { IfErr result (λ e. e ≡ OutOfMemory) }
        ensures added { OnOk result (self.new.list.items ≡ self.old.list.items ++ token ∷ []) }
        ensures same { self.new.given ≡ self.old.given }
    {
        self.list.push(token)?;
        Ok(())
    }

    /// Takes the tokens back that are not used where this cuts a line off.
    pub fn take_back(&mut self, cut: Cut)
        ensures taken { self.new.list.items ≡ used cut self.old.list.items }
        ensures same { self.new.given ≡ self.old.given }
    {
        if cut == Cut::LongFile {
            let _ = self.list.pop();
        }
    }

    /// Ends the list and gives its expansion to the unit.
    pub fn flush(&mut self, macros: &Macros, names: &mut Names) -> Result<(), Refusal>
        ensures stops { IfErr result Stops }
        ensures exact { ReadsExpansion (λ _. self.new.given) (λ _ out. with_tokens self.old.given out) macros.now names.old self.old.list.items names.new result }
        ensures ended { OnOk result (self.new.list.items ≡ []) }
    {
        let list = mem::replace(&mut self.list, Vec::new(self.alloc));
        self.given.push_expanded(&list, macros, names)
    }

    pub fn into_tokens(self) -> PpTokens
        ensures { result ≡ self.given }
    {
        let Output { given, .. } = self;
        let Gathered { tokens, .. } = given;
        PpTokens::from_vec(tokens)
    }
}

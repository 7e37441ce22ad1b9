// The predefined macros (C90 6.8.8), and what stands for __LINE__ and __FILE__.
ghost use Rattle.std.specs.Prelude.{◌≡◌, List, [], pos, true, IfErr, IfOk, OnOk, None, decimal};
ghost use Rattle.c65_macro.specs.Refusals.{StopsExpansion, LacksRoom};
ghost use Rattle.c65_macro.specs.declared.sets.Node.{Node};
ghost use Rattle.c65_macro.specs.Sets.{Extends, set_of};
ghost use Rattle.c65_macro.specs.Table.{line_of};
ghost use Rattle.c65_macro.specs.Items;
ghost use Rattle.c65_macro.specs.Predefined;
ghost use Rattle.c65_macro.specs.Answered.{Gives};
ghost use Rattle.c65_macro.specs.Views.{item_of};

use crate::given::Given;
use crate::item::{Macro, Words};
use crate::marked::Marked;
use crate::sets::Hide;
use crate::table::Macros;
use crate::text::made;
use c65_base::{Name, Names, Options, Pos, Refusal};
use c65_lex::{PpKind, PpToken, PpTokens};
use indexmap::IndexMap;
use itoa::write_digits;
use std::alloc::{AllocError, Global};

/// The name of a spelling that is known from the start.
fn spelled(names: &mut Names, spelling: &[u8]) -> Result<Name, Refusal>
    ensures refused { IfErr result LacksRoom }
    ensures grows { Extends names.old names.new }
    ensures value { Gives (λ name. name) result names.new (Items.learn names.old spelling.now) }
{
    names.intern(spelling)
}

/// The names that definitions and expansions look at.
fn words(names: &mut Names) -> Result<Words, Refusal>
    ensures refused { IfErr result LacksRoom }
    ensures grows { Extends names.old names.new }
    ensures value { Gives (λ words. words) result names.new (Predefined.words_from names.old) }
{
    let hash = spelled(names, b"#")?;
    let paste = spelled(names, b"##")?;
    let opening = spelled(names, b"(")?;
    let closing = spelled(names, b")")?;
    let comma = spelled(names, b",")?;
    let line = spelled(names, b"__LINE__")?;
    let file = spelled(names, b"__FILE__")?;
    let defined = spelled(names, b"defined")?;
    Ok(Words {
        hash,
        paste,
        opening,
        closing,
        comma,
        line,
        file,
        defined,
    })
}

/// Adds a macro without parameters.
fn add(
    alloc: Global,
    table: &mut IndexMap<Name, Macro>,
    name: Name,
    body: &[PpToken],
) -> Result<(), AllocError>
    ensures { OnOk result (table.new.entries ≡ Predefined.put table.old.entries name body.now) }
{
    let body = PpTokens::from_vec(Vec::from_slice(alloc, body)?);
    table.insert(
        name,
        Macro {
            name,
            params: None,
            body,
        },
    )?;
    Ok(())
}

/// Adds a macro that stands for one token.
fn add_given(
    alloc: Global,
    table: &mut IndexMap<Name, Macro>,
    names: &mut Names,
    given: Given,
) -> Result<(), Refusal>
    ensures refused { IfErr result LacksRoom }
    ensures grows { Extends names.old names.new }
    ensures value { Gives (λ _. table.new.entries) result names.new (Predefined.with_given table.old.entries names.old given) }
{
    let name = spelled(names, given.name())?;
    let spelling = spelled(names, given.text())?;
    let token = PpToken {
        kind: given.kind(),
        spelling,
        pos: Pos { file: 0, line: 1 },
        space: false,
    };
    add(alloc, table, name, &[token])?;
    Ok(())
}

/// Adds a macro that stands for one token, where the options ask for it.
fn add_if(
    alloc: Global,
    table: &mut IndexMap<Name, Macro>,
    names: &mut Names,
    options: &Options,
    given: Given,
) -> Result<(), Refusal>
    ensures refused { IfErr result LacksRoom }
    ensures grows { Extends names.old names.new }
    ensures value { Gives (λ _. table.new.entries) result names.new (Predefined.with_if options.now table.old.entries names.old given) }
{
    if !given.is_on(options) {
        return Ok(());
    }
    add_given(alloc, table, names, given)
}

/// Adds all that stand for one token.
fn add_all(
    alloc: Global,
    table: &mut IndexMap<Name, Macro>,
    names: &mut Names,
    options: &Options,
) -> Result<(), Refusal>
    ensures refused { IfErr result LacksRoom }
    ensures grows { Extends names.old names.new }
    ensures value { Gives (λ _. table.new.entries) result names.new (Predefined.with_all options.now table.old.entries names.old Predefined.all) }
{
    let mut rest: &[Given] = &Given::ALL;
    while let Some((given, more)) = rest.split_first() {
        add_if(alloc, table, names, options, *given)?;
        rest = more;
    }
    Ok(())
}

impl Macros {
    /// The predefined macros for these options. `__DATE__` and `__TIME__` do not depend on the clock. The names that
    /// macros look at are known from here on.
    pub fn new(alloc: Global, options: &Options, names: &mut Names) -> Result<Macros, Refusal>
        ensures made { IfOk result (λ m. (m.defined ≡ []) × (m.offset ≡ pos 0)) }
        ensures refused { IfErr result LacksRoom }
        ensures grows { Extends names.old names.new }
        ensures value { Gives (λ m. m) result names.new (Predefined.initial options.now names.old) }
    {
        let words = words(names)?;
        let file = spelled(names, b"\"\"")?;
        let mut table = IndexMap::new(alloc);
        add(alloc, &mut table, words.line, &[])?;
        add(alloc, &mut table, words.file, &[])?;
        add_all(alloc, &mut table, names, options)?;
        Ok(Macros {
            predefined: table,
            defined: IndexMap::new(alloc),
            words,
            file,
            offset: 0,
            alloc,
        })
    }

    /// The names that macros look at.
    pub(crate) fn words(&self) -> Words
        ensures { result ≡ self.now.words }
    {
        self.words
    }

    pub(crate) fn alloc(&self) -> Global {
        self.alloc
    }

    /// The line that `__LINE__` gives at a place.
    fn line_at(&self, token: &PpToken) -> Result<u64, AllocError>
        ensures { IfOk result (λ line. line ≡ line_of self.now token.now) }
    {
        match i64::from(token.pos.line).checked_add(self.offset) {
            Some(line) => Ok(u64::try_from(line).unwrap_or(0)),
            None => Err(AllocError),
        }
    }

    /// What stands for `__LINE__`.
    pub(crate) fn line_number(
        &self,
        item: Marked,
        hide: Hide,
        names: &mut Names,
    ) -> Result<Marked, Refusal>
        ensures refused { IfErr result StopsExpansion }
        ensures grows { Extends names.old names.new }
        ensures value { (nodes : List Node) → Gives (item_of nodes) result names.new (Items.made names.old PpKind.Number (decimal (line_of self.now item.token)) item.token.pos item.token.space (set_of nodes hide.0)) }
    {
        let mut digits = [48; 20];
        let line = self.line_at(&item.token)?;
        let start = write_digits(line, &mut digits, 20);
        made(
            names,
            PpKind::Number,
            &digits[start..],
            item.token.pos,
            item.token.space,
            hide,
        )
    }

    /// What stands for `__FILE__`.
    pub(crate) fn file_name(&self, item: Marked, hide: Hide) -> Marked
        ensures { (nodes : List Node) → item_of nodes result ≡ record { token = record { kind = PpKind.Text; spelling = self.now.file; pos = item.token.pos; space = item.token.space }; hide = set_of nodes hide.0; put = true } }
    {
        Marked {
            token: PpToken {
                kind: PpKind::Text,
                spelling: self.file,
                ..item.token
            },
            hide,
            put: true,
        }
    }
}

// The steps of an expansion (C90 6.8.3).
ghost use Rattle.std.specs.Prelude.{◌≡◌, List, [], Some, None, IfErr, IfOk, option_copied, ◌||◌};
ghost use Rattle.c65_base.specs.declared.names.Name.{Name};
ghost use Rattle.c65_macro.specs.Refusals.{StopsExpansion};
ghost use Rattle.c65_macro.specs.declared.sets.Node.{Node};
ghost use Rattle.c65_macro.specs.Sets.{Extends, set_of, with_name};
ghost use Rattle.c65_macro.specs.Answered.{Gives};
ghost use Rattle.c65_macro.specs.Table.{lookup, same_name};
ghost use Rattle.c65_macro.specs.Expand;
ghost use Rattle.c65_macro.specs.Uses.{closed};
ghost use Rattle.c65_macro.specs.Views.{item_of, items_of, lists_of};
ghost use Rattle.c65_macro.specs.Machine.{Steps, Goes, GoesInto, Comes, before, begun_left, begun_with, outcome, reached, rest_in, stage_of, frame_of, frames_of, use_with, use_left, with_argument};

use crate::fill::{Used, replacement, single};
use crate::gather::{Arguments, Gathered, Inside};
use crate::item::{Macro, Params};
use crate::marked::{Argument, Marked, plus};
use crate::sets::{Hide, Sets};
use crate::state::{Begun, Level, Pending, State, Went, went_into, went_on};
use crate::table::Macros;
use crate::uses::{is_fit, is_replaced};
use c65_base::{Code, Name, Names, Refusal};
use c65_lex::{PpKind, PpToken};
use std::alloc::AllocError;
use std::mem;

impl Macros {
    /// The macro whose name a token is.
    fn macro_of(&self, token: &PpToken) -> Option<&Macro>
        ensures { option_copied result ≡ Expand.macro_of self.now token.now }
    {
        match token.kind {
            PpKind::Name => self.get(token.spelling),
            _ => None,
        }
    }

    /// Does the next token: it stays or is replaced, or its use begins.
    fn step(&self, state: &mut State, item: Marked, names: &mut Names) -> Result<Went, Refusal>
        ensures refused { IfErr result StopsExpansion }
        ensures grows { Extends names.old names.new }
        ensures kept { Extends state.old.sets state.new.sets }
        ensures value { (nodes : List Node) (more : List PpToken) → Extends state.new.sets nodes → Goes nodes self.now names.old (before (item_of nodes item) (stage_of nodes more state.old.level)) (frames_of nodes more state.old.pending.items) (λ go. Expand.in_front self.now go names.old state.old.level.outside state.old.level.room (item_of nodes item) (rest_in nodes more state.old.level) (Expand.macro_of self.now item.token)) result names.new (stage_of nodes more state.new.level) (frames_of nodes more state.new.pending.items) }
    {
        let Some(found) = self.macro_of(&item.token) else {
            return went_on(state.level.keep(item));
        };
        if state.sets.has(item.hide, item.token.spelling)? {
            return went_on(state.level.keep(item));
        }
        self.replace(state, item, found, names)
    }

    /// Whether a name is `__LINE__` or `__FILE__`.
    fn is_place(&self, name: Name) -> bool
        ensures { result ≡ (same_name name self.now.words.line || same_name name self.now.words.file) }
    {
        let words = self.words();
        name == words.line || name == words.file
    }

    /// Replaces a macro, or begins a use of it.
    fn replace(
        &self,
        state: &mut State,
        item: Marked,
        found: &Macro,
        names: &mut Names,
    ) -> Result<Went, Refusal>
        requires { lookup self.now item.token.spelling ≡ Some found.now }
        ensures refused { IfErr result StopsExpansion }
        ensures grows { Extends names.old names.new }
        ensures kept { Extends state.old.sets state.new.sets }
        ensures value { (nodes : List Node) (more : List PpToken) → Extends state.new.sets nodes → Goes nodes self.now names.old (before (item_of nodes item) (stage_of nodes more state.old.level)) (frames_of nodes more state.old.pending.items) (λ go. Expand.replace self.now go names.old state.old.level.outside state.old.level.room (item_of nodes item) (rest_in nodes more state.old.level) found.now) result names.new (stage_of nodes more state.new.level) (frames_of nodes more state.new.pending.items) }
    {
        if self.is_place(found.name) {
            return went_on(self.replace_place(state, item, found.name, names));
        }
        match &found.params {
            Some(params) => self.apply(state, item, found, params, names),
            None => went_on(self.replace_object(state, item, found, names)),
        }
    }

    fn is_line(&self, name: Name) -> bool
        ensures { result ≡ same_name name self.now.words.line }
    {
        name == self.words().line
    }

    /// What stands for `__LINE__` or `__FILE__`.
    fn place_token(
        &self,
        item: Marked,
        hide: Hide,
        name: Name,
        names: &mut Names,
    ) -> Result<Marked, Refusal>
        ensures refused { IfErr result StopsExpansion }
        ensures grows { Extends names.old names.new }
        ensures value { (nodes : List Node) → set_of nodes hide.0 ≡ with_name name.0 (set_of nodes item.hide.0) → Gives (item_of nodes) result names.new (Expand.place_token self.now names.old (item_of nodes item) name) }
    {
        if self.is_line(name) {
            return self.line_number(item, hide, names);
        }
        Ok(self.file_name(item, hide))
    }

    /// Replaces `__LINE__` or `__FILE__`.
    fn replace_place(
        &self,
        state: &mut State,
        item: Marked,
        name: Name,
        names: &mut Names,
    ) -> Result<(), Refusal>
        ensures refused { IfErr result StopsExpansion }
        ensures grows { Extends names.old names.new }
        ensures kept { Extends state.old.sets state.new.sets }
        ensures value { (nodes : List Node) (more : List PpToken) → Extends state.new.sets nodes → Steps self.now (items_of nodes state.old.level.out.items) (frames_of nodes more state.old.pending.items) (λ go. Expand.replace_place self.now go names.old state.old.level.outside state.old.level.room (item_of nodes item) (rest_in nodes more state.old.level) name) result names.new (stage_of nodes more state.new.level) (frames_of nodes more state.new.pending.items) }
    {
        let hide = state.sets.with(name, item.hide)?;
        let token = self.place_token(item, hide, name, names)?;
        let items = single(self.alloc(), token)?;
        state.level.put(items)
    }

    /// Replaces an object-like macro.
    fn replace_object(
        &self,
        state: &mut State,
        item: Marked,
        found: &Macro,
        names: &mut Names,
    ) -> Result<(), Refusal>
        requires { found.now.params ≡ None }
        ensures refused { IfErr result StopsExpansion }
        ensures grows { Extends names.old names.new }
        ensures kept { Extends state.old.sets state.new.sets }
        ensures value { (nodes : List Node) (more : List PpToken) → Extends state.new.sets nodes → Steps self.now (items_of nodes state.old.level.out.items) (frames_of nodes more state.old.pending.items) (λ go. Expand.replace_with self.now go names.old state.old.level.outside state.old.level.room (item_of nodes item) (rest_in nodes more state.old.level) found.now None) result names.new (stage_of nodes more state.new.level) (frames_of nodes more state.new.pending.items) }
    {
        let alloc = self.alloc();
        let hide = state.sets.with(found.name, item.hide)?;
        let used = Used {
            words: self.words(),
            raw: Vec::new(alloc),
            full: Vec::new(alloc),
            place: item.token.pos,
        };
        let items = replacement(
            alloc,
            names,
            &mut state.sets,
            &found.params,
            &used,
            hide,
            item.token.space,
            found.body.as_slice(),
        )?;
        state.level.put(items)
    }

    /// Begins a use of a function-like macro, where one stands there.
    fn apply(
        &self,
        state: &mut State,
        item: Marked,
        found: &Macro,
        params: &Params,
        names: &mut Names,
    ) -> Result<Went, Refusal>
        requires known { lookup self.now item.token.spelling ≡ Some found.now }
        requires has { found.now.params ≡ Some params.now }
        ensures refused { IfErr result StopsExpansion }
        ensures grows { Extends names.old names.new }
        ensures kept { Extends state.old.sets state.new.sets }
        ensures value { (nodes : List Node) (more : List PpToken) → Extends state.new.sets nodes → Goes nodes self.now names.old (before (item_of nodes item) (stage_of nodes more state.old.level)) (frames_of nodes more state.old.pending.items) (λ go. Expand.replace_with self.now go names.old state.old.level.outside state.old.level.room (item_of nodes item) (rest_in nodes more state.old.level) found.now (Some params.now)) result names.new (stage_of nodes more state.new.level) (frames_of nodes more state.new.pending.items) }
    {
        let marks = self.words();
        if !state.level.rest.is_use(marks) {
            if state.level.is_open && state.level.rest.has_ends_alone() {
                state.level.rest.push(item)?;
                return Ok(Went::Back);
            }
            return went_on(state.level.keep(item));
        }
        state.level.rest.enter(marks);
        let begun = Begun {
            name: item,
            gathered: Gathered::new(self.alloc()),
        };
        went_into(self.gather(state, begun, found, params, names))
    }

    /// Goes on with a use: gathers the arguments that are there, and begins to replace it where all are.
    fn gather(
        &self,
        state: &mut State,
        begun: Begun,
        found: &Macro,
        params: &Params,
        names: &mut Names,
    ) -> Result<Option<Begun>, Refusal>
        requires known { lookup self.now begun.name.token.spelling ≡ Some found.now }
        requires has { found.now.params ≡ Some params.now }
        ensures refused { IfErr result StopsExpansion }
        ensures grows { Extends names.old names.new }
        ensures kept { Extends state.old.sets state.new.sets }
        ensures value { (nodes : List Node) (more : List PpToken) → Extends state.new.sets nodes → GoesInto nodes self.now (items_of nodes state.old.level.out.items) (frames_of nodes more state.old.pending.items) (λ go. begun_with nodes self.now go names.old (stage_of nodes more state.old.level) begun found.now (Some params.now)) result names.new (stage_of nodes more state.new.level) (frames_of nodes more state.new.pending.items) }
    {
        let Begun { name, gathered } = begun;
        let outside = state.level.outside;
        let inside = state
            .level
            .rest
            .gather(self.alloc(), self.words(), outside, gathered)?;
        match inside {
            Inside::Closed(arguments) => {
                match self.begin(state, name, arguments, found, params, names) {
                    Ok(()) => Ok(None),
                    Err(refusal) => Err(refusal),
                }
            }
            Inside::Unclosed(gathered) if state.level.is_open => Ok(Some(Begun { name, gathered })),
            Inside::Unclosed(_) => Err(Refusal::At {
                code: Code::OpenArguments,
                pos: name.token.pos,
            }),
        }
    }

    /// Begins to replace a use with these arguments.
    fn begin(
        &self,
        state: &mut State,
        name: Marked,
        arguments: Arguments,
        found: &Macro,
        params: &Params,
        names: &mut Names,
    ) -> Result<(), Refusal>
        requires known { lookup self.now name.token.spelling ≡ Some found.now }
        requires has { found.now.params ≡ Some params.now }
        ensures refused { IfErr result StopsExpansion }
        ensures grows { Extends names.old names.new }
        ensures kept { Extends state.old.sets state.new.sets }
        ensures value { (nodes : List Node) (more : List PpToken) → Extends state.new.sets nodes → Steps self.now (items_of nodes state.old.level.out.items) (frames_of nodes more state.old.pending.items) (λ go. Expand.replace_use self.now go names.old state.old.level.outside state.old.level.room (item_of nodes name) [] found.now params.now (closed (lists_of nodes arguments.lists.items) arguments.size (item_of nodes arguments.close) (rest_in nodes more state.old.level))) result names.new (stage_of nodes more state.new.level) (frames_of nodes more state.new.pending.items) }
    {
        let alloc = self.alloc();
        if !is_fit(params.as_slice(), &arguments.lists) {
            return Err(Refusal::At {
                code: Code::MacroArguments,
                pos: name.token.pos,
            });
        }
        let Arguments { lists, size, close } = arguments;
        let gathered = plus(state.level.outside, size)?;
        let inside = plus(gathered, state.level.rest.put())?;
        let level = mem::replace(&mut state.level, Level::new(alloc, 0));
        let pending = Pending {
            level,
            name,
            close,
            raw: lists,
            full: Vec::new(alloc),
            inside,
        };
        self.advance(state, pending, found, params, names)
    }

    /// What is to be expanded of an argument: all of it, where its parameter stands beside no # and no ##.
    fn wanted(
        &self,
        found: &Macro,
        param: Name,
        argument: &[Marked],
    ) -> Result<Vec<Marked>, AllocError>
        ensures { IfOk result (λ v. (nodes : List Node) → items_of nodes v.items ≡ Expand.wanted self.now found.now.body param (items_of nodes argument.now)) }
    {
        if is_replaced(self.words(), param, found.body.as_slice()) {
            Vec::from_slice(self.alloc(), argument)
        } else {
            Ok(Vec::new(self.alloc()))
        }
    }

    /// Goes on with the next argument of a use, or replaces the use when all are done.
    fn advance(
        &self,
        state: &mut State,
        pending: Pending,
        found: &Macro,
        params: &Params,
        names: &mut Names,
    ) -> Result<(), Refusal>
        requires known { lookup self.now pending.name.token.spelling ≡ Some found.now }
        requires has { found.now.params ≡ Some params.now }
        ensures refused { IfErr result StopsExpansion }
        ensures grows { Extends names.old names.new }
        ensures kept { Extends state.old.sets state.new.sets }
        ensures value { (nodes : List Node) (more : List PpToken) → Extends state.new.sets nodes → Steps self.now (items_of nodes pending.level.out.items) (frames_of nodes more state.old.pending.items) (λ go. use_with self.now go names.old (frame_of nodes more pending) found.now (Some params.now)) result names.new (stage_of nodes more state.new.level) (frames_of nodes more state.new.pending.items) }
    {
        let done = pending.full.len();
        let Some(param) = params.as_slice().get(done) else {
            return self.complete(state, pending, found, names);
        };
        let Some(argument) = pending.raw.get(done) else {
            return self.complete(state, pending, found, names);
        };
        let list = self.wanted(found, *param, argument.as_slice())?;
        let mut level = Level::new(self.alloc(), pending.inside);
        level.rest.push_all(list)?;
        state.pending.push(pending)?;
        state.level = level;
        Ok(())
    }

    /// Replaces a use whose arguments are all done.
    fn complete(
        &self,
        state: &mut State,
        pending: Pending,
        found: &Macro,
        names: &mut Names,
    ) -> Result<(), Refusal>
        ensures refused { IfErr result StopsExpansion }
        ensures grows { Extends names.old names.new }
        ensures kept { Extends state.old.sets state.new.sets }
        ensures value { (nodes : List Node) (more : List PpToken) (params : List Name) → found.now.params ≡ Some params → Extends state.new.sets nodes → Steps self.now (items_of nodes pending.level.out.items) (frames_of nodes more state.old.pending.items) (λ go. Expand.finish self.now go names.old pending.level.outside pending.level.room (item_of nodes pending.name) (item_of nodes pending.close) (rest_in nodes more pending.level) found.now params (lists_of nodes pending.raw.items) (lists_of nodes pending.full.items)) result names.new (stage_of nodes more state.new.level) (frames_of nodes more state.new.pending.items) }
    {
        let Pending {
            level,
            name,
            close,
            raw,
            full,
            ..
        } = pending;
        let used = Used {
            words: self.words(),
            raw,
            full,
            place: name.token.pos,
        };
        let common = state.sets.both(name.hide, close.hide)?;
        let hide = state.sets.with(found.name, common)?;
        let items = replacement(
            self.alloc(),
            names,
            &mut state.sets,
            &found.params,
            &used,
            hide,
            name.token.space,
            found.body.as_slice(),
        )?;
        state.level = level;
        state.level.put(items)
    }

    /// Takes up the use below, once the expansion of its argument is done. Its macro is still in the table, which does
    /// not change in between; otherwise nothing is promised but the answer for want of memory.
    fn resume(&self, state: &mut State, pending: Pending, names: &mut Names) -> Result<(), Refusal>
        ensures refused { IfErr result StopsExpansion }
        ensures grows { Extends names.old names.new }
        ensures kept { Extends state.old.sets state.new.sets }
        ensures value { (nodes : List Node) (more : List PpToken) → Extends state.new.sets nodes → Steps self.now (items_of nodes pending.level.out.items) (frames_of nodes more state.old.pending.items) (λ go. use_left self.now go names.old (with_argument (frame_of nodes more pending) (items_of nodes state.old.level.out.items)) (lookup self.now pending.name.token.spelling)) result names.new (stage_of nodes more state.new.level) (frames_of nodes more state.new.pending.items) }
    {
        let mut pending = pending;
        let level = mem::replace(&mut state.level, Level::new(self.alloc(), 0));
        let Level { out, .. } = level;
        pending.full.push(Argument::from_vec(out))?;
        let Some(found) = self.get(pending.name.token.spelling) else {
            return Err(Refusal::OutOfMemory);
        };
        match &found.params {
            Some(params) => self.advance(state, pending, found, params, names),
            None => Err(Refusal::OutOfMemory),
        }
    }

    /// Does the steps that do not depend on tokens to come. Told is the use into which they came, if they did.
    fn run(&self, state: &mut State, names: &mut Names) -> Result<Option<Begun>, Refusal>
        ensures refused { IfErr result StopsExpansion }
        ensures grows { Extends names.old names.new }
        ensures kept { Extends state.old.sets state.new.sets }
        ensures value { (nodes : List Node) (more : List PpToken) → Extends state.new.sets nodes → Comes nodes self.now (λ n. outcome self.now n names.old (stage_of nodes more state.old.level) (frames_of nodes more state.old.pending.items)) result names.new (stage_of nodes more state.new.level) (frames_of nodes more state.new.pending.items) }
    {
        let mut steps = u64::MAX;
        while steps > 0 {
            steps -= 1;
            match state.level.rest.pop() {
                Some(item) => match self.step(state, item, names)? {
                    Went::On => {}
                    Went::Back => return Ok(None),
                    Went::Into(begun) => return Ok(Some(begun)),
                },
                None if state.level.is_open => return Ok(None),
                None => match state.pending.pop() {
                    Some(pending) => self.resume(state, pending, names)?,
                    None => return Ok(None),
                },
            }
        }
        Err(Refusal::OutOfMemory)
    }

    /// Takes up a use that has begun. Its macro is still in the table, as in `resume`.
    fn take_up(
        &self,
        state: &mut State,
        begun: Begun,
        names: &mut Names,
    ) -> Result<Option<Begun>, Refusal>
        ensures refused { IfErr result StopsExpansion }
        ensures grows { Extends names.old names.new }
        ensures kept { Extends state.old.sets state.new.sets }
        ensures value { (nodes : List Node) (more : List PpToken) → Extends state.new.sets nodes → GoesInto nodes self.now (items_of nodes state.old.level.out.items) (frames_of nodes more state.old.pending.items) (λ go. begun_left nodes self.now go names.old (stage_of nodes more state.old.level) begun (lookup self.now begun.name.token.spelling)) result names.new (stage_of nodes more state.new.level) (frames_of nodes more state.new.pending.items) }
    {
        let Some(found) = self.get(begun.name.token.spelling) else {
            return Err(Refusal::OutOfMemory);
        };
        match &found.params {
            Some(params) => self.gather(state, begun, found, params, names),
            None => Err(Refusal::OutOfMemory),
        }
    }

    /// Goes on as far as it does not depend on tokens to come, from within a use where one has begun.
    pub(crate) fn go_on(
        &self,
        state: &mut State,
        begun: Option<Begun>,
        names: &mut Names,
    ) -> Result<Option<Begun>, Refusal>
        ensures refused { IfErr result StopsExpansion }
        ensures grows { Extends names.old names.new }
        ensures kept { Extends state.old.sets state.new.sets }
        ensures value { (nodes : List Node) (more : List PpToken) → Extends state.new.sets nodes → Comes nodes self.now (λ n. reached nodes self.now n names.old (stage_of nodes more state.old.level) (frames_of nodes more state.old.pending.items) begun) result names.new (stage_of nodes more state.new.level) (frames_of nodes more state.new.pending.items) }
    {
        let Some(begun) = begun else {
            return self.run(state, names);
        };
        match self.take_up(state, begun, names) {
            Ok(None) => self.run(state, names),
            Ok(Some(begun)) => Ok(Some(begun)),
            Err(refusal) => Err(refusal),
        }
    }
}

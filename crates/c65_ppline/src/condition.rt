// The groups of #if that are open in a file (C90 6.8.1).
ghost use Rattle.std.specs.Prelude.{◌≡◌, [], OnOk, IfErr};
ghost use Rattle.c65_base.specs.Answers.{Gives};
ghost use Rattle.c65_base.specs.declared.refusal.Refusal.TheVariants.{OutOfMemory};
ghost use Rattle.c65_ppline.specs.Causes.{Stops};
ghost use Rattle.c65_ppline.specs.Conditions;

use c65_base::{Code, Pos, Refusal, Size};
use std::alloc::Global;
use std::marker::Model;

/// What a group is being read for.
#[derive(Clone, Copy, PartialEq, Eq)]
pub enum Choice {
    /// This part of it is read.
    Taken,
    /// A part whose condition holds is sought.
    Sought,
    /// All further parts are skipped.
    Passed,
}

/// What becomes of a group where one of its parts ends.
fn behind(choice: Choice) -> Choice
    ensures { result ≡ Conditions.behind choice }
{
    match choice {
        Choice::Sought => Choice::Sought,
        Choice::Taken | Choice::Passed => Choice::Passed,
    }
}

/// What becomes of a group at its #else.
fn last_choice(choice: Choice) -> Choice
    ensures { result ≡ Conditions.last_choice choice }
{
    match choice {
        Choice::Sought => Choice::Taken,
        Choice::Taken | Choice::Passed => Choice::Passed,
    }
}

/// An open group: the place of its #if, and whether its #else was read.
#[derive(Clone, Copy)]
pub struct Group {
    pub pos: Pos,
    pub choice: Choice,
    pub has_else: bool,
}

/// The open groups of a file. Contracts see them as a list, the innermost first.
#[derive(Drop)]
pub struct Groups {
    groups: Vec<Group>,
}

impl Model for Groups {
    ghost use Rattle.std.specs.Prelude.{List, reverse};
    ghost use Rattle.c65_ppline.specs.declared.condition.Group.{Group};

    ghost Value = { List Group };

    ghost view = { λ g. reverse g.groups.items };
}

impl Groups {
    pub fn new(alloc: Global) -> Groups
        ensures { result ≡ [] }
    {
        Groups {
            groups: Vec::new(alloc),
        }
    }

    /// Whether the lines here are read.
    pub fn is_active(&self) -> bool
        ensures { result ≡ Conditions.is_active self.now }
    {
        match self.groups.last() {
            Some(group) => group.choice == Choice::Taken,
            None => true,
        }
    }

    /// Opens a group, and says whether its condition is to be read.
    pub fn begin(&mut self, pos: Pos) -> Result<bool, Refusal>
        ensures refused { IfErr result Stops }
        ensures after { Gives (λ is_read. (is_read, self.new)) result (Conditions.begin pos self.old) }
    {
        if self.groups.len() as u64 >= Size::Conditionals.number() {
            return Err(Refusal::TooLarge {
                limit: Size::Conditionals,
                value: Size::Conditionals.number() + 1,
            });
        }
        let is_read = self.is_active();
        let choice = if is_read {
            Choice::Sought
        } else {
            Choice::Passed
        };
        self.groups.push(Group {
            pos,
            choice,
            has_else: false,
        })?;
        Ok(is_read)
    }

    /// Takes the part that begins here.
    pub fn take(&mut self) -> Result<(), Refusal>
        ensures ok { OnOk result (self.new ≡ Conditions.taken self.old) }
        ensures refused { IfErr result (λ e. e ≡ OutOfMemory) }
    {
        if let Some(group) = self.groups.pop() {
            self.groups.push(Group {
                choice: Choice::Taken,
                ..group
            })?;
        }
        Ok(())
    }

    /// Ends a part at an #elif, whose place is given, and says whether its condition is to be read.
    pub fn alternate(&mut self, pos: Pos) -> Result<bool, Refusal>
        ensures refused { IfErr result Stops }
        ensures after { Gives (λ is_read. (is_read, self.new)) result (Conditions.alternate pos self.old) }
    {
        let Some(group) = self.groups.pop() else {
            return Err(Refusal::fault(Code::LooseConditional, pos));
        };
        if group.has_else {
            return Err(Refusal::fault(Code::LooseConditional, pos));
        }
        let choice = behind(group.choice);
        self.groups.push(Group { choice, ..group })?;
        Ok(choice == Choice::Sought)
    }

    /// Begins the last part at an #else.
    pub fn otherwise(&mut self, pos: Pos) -> Result<(), Refusal>
        ensures refused { IfErr result Stops }
        ensures after { Gives (λ _. self.new) result (Conditions.otherwise pos self.old) }
    {
        let Some(group) = self.groups.pop() else {
            return Err(Refusal::fault(Code::LooseConditional, pos));
        };
        if group.has_else {
            return Err(Refusal::fault(Code::LooseConditional, pos));
        }
        self.groups.push(Group {
            pos: group.pos,
            choice: last_choice(group.choice),
            has_else: true,
        })?;
        Ok(())
    }

    /// Closes the innermost group at an #endif.
    pub fn end(&mut self, pos: Pos) -> Result<(), Refusal>
        ensures refused { IfErr result Stops }
        ensures after { Gives (λ _. self.new) result (Conditions.end pos self.old) }
    {
        match self.groups.pop() {
            Some(_) => Ok(()),
            None => Err(Refusal::fault(Code::LooseConditional, pos)),
        }
    }

    /// The place of the first #if whose group is open.
    pub fn first_open(&self) -> Option<Pos>
        ensures { result ≡ Conditions.first_open self.now }
    {
        first_pos(&self.groups)
    }
}

fn first_pos(groups: &[Group]) -> Option<Pos>
    ensures { result ≡ Conditions.first_pos groups.now }
{
    match groups.split_first() {
        Some((group, _)) => Some(group.pos),
        None => None,
    }
}

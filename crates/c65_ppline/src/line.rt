// A line of a directive.
ghost use Rattle.std.specs.Prelude.{◌≡◌, not, is_some, IfErr, Result};
ghost use Rattle.c65_base.specs.Answers.{Gives};
ghost use Rattle.c65_ppline.specs.Causes.{Stops};
ghost use Rattle.c65_ppline.specs.Tokens.{behind_first};
ghost use Rattle.c65_ppline.specs.Lines.{ending, cut_refusal, on_line, refusal_of};
ghost use Rattle.c65_ppline.specs.Misfits.{IsMisfit, Reads, Trouble};
ghost use Rattle.c65_ppline.specs.declared.line.Misfit.TheVariants.{Stopped};
ghost use Rattle.c65_base.specs.declared.refusal.Refusal.TheVariants.{OutOfMemory};

use crate::marks::behind_first;
use c65_base::{Code, Pos, Refusal, Size};
use c65_lex::{PpToken, PpTokens};
use std::alloc::{AllocError, AllocFailed};

/// Why tokens have not the form that a directive needs.
#[derive(Drop)]
pub enum Misfit {
    /// The line ends too early.
    Short,
    /// A token stands where it can not.
    Wrong,
    /// Something else came first.
    Stopped(Refusal),
}

impl From<AllocError> for Misfit {
    ghost from_gives = { λ _ m. m ≡ Stopped OutOfMemory };

    fn from(_: AllocError) -> Misfit {
        Misfit::Stopped(Refusal::OutOfMemory)
    }
}

impl<T: Drop> From<AllocFailed<T>> for Misfit {
    ghost from_gives = { λ _ m. m ≡ Stopped OutOfMemory };

    fn from(_: AllocFailed<T>) -> Misfit {
        Misfit::Stopped(Refusal::OutOfMemory)
    }
}

/// What cuts a line off before its end.
#[derive(Clone, Copy, PartialEq, Eq)]
pub enum Cut {
    /// A comment without its end, which begins at this place.
    OpenComment(Pos),
    /// More bytes than a line may have.
    LongLine,
    /// More bytes than a file may have.
    LongFile,
    /// One spelling too many.
    Names,
}

impl Cut {
    pub fn refusal(self) -> Refusal
        ensures stops { Stops result }
        ensures exact { result ≡ cut_refusal self }
    {
        match self {
            Cut::OpenComment(pos) => Refusal::fault(Code::OpenComment, pos),
            Cut::LongLine => Refusal::TooLarge {
                limit: Size::Line,
                value: Size::Line.number() + 1,
            },
            Cut::LongFile => Refusal::TooLarge {
                limit: Size::File,
                value: Size::File.number() + 1,
            },
            Cut::Names => Refusal::TooLarge {
                limit: Size::Names,
                value: Size::Names.number() + 1,
            },
        }
    }
}

/// The place of a line's #, the tokens behind it, the number of the line on which it ends, and what cuts it off before.
#[derive(Drop)]
pub struct Line {
    pub hash: Pos,
    pub tokens: PpTokens,
    pub end: u32,
    pub cut: Option<Cut>,
}

impl Line {
    /// The tokens behind the directive's name.
    pub fn rest(&self) -> &[PpToken]
        ensures { result.now ≡ behind_first self.now.tokens }
    {
        behind_first(self.tokens.as_slice())
    }

    /// Whether the line has its end.
    pub fn is_whole(&self) -> bool
        ensures { result ≡ not (is_some self.now.cut) }
    {
        self.cut.is_none()
    }

    /// Refuses a line that is cut off.
    pub fn check(&self) -> Result<(), Refusal>
        ensures stops { IfErr result Stops }
        ensures exact { Gives (λ _. tt) result (ending self.now.cut) }
    {
        match self.cut {
            Some(cut) => Err(cut.refusal()),
            None => Ok(()),
        }
    }

    /// What was read of the line's tokens, or its refusal.
    pub fn answer<T: Drop>(&self, read: Result<T, Misfit>) -> Result<T, Refusal>
        requires { IfErr read IsMisfit }
        ensures stops { IfErr result Stops }
        ensures exact { (y : Result T Trouble) → Reads (λ t. t) read y → Gives (λ t. t) result (on_line self.now.hash self.now.cut y) }
    {
        match read {
            Ok(value) => match self.check() {
                Ok(()) => Ok(value),
                Err(refusal) => Err(refusal),
            },
            Err(misfit) => Err(self.refusal(misfit)),
        }
    }

    /// The refusal of a line without the form that it needs. What cuts it off comes before what its end would decide.
    pub fn refusal(&self, misfit: Misfit) -> Refusal
        requires { IsMisfit misfit }
        ensures stops { Stops result }
        ensures exact { result ≡ refusal_of self.now.hash self.now.cut misfit }
    {
        match misfit {
            Misfit::Stopped(refusal) => refusal,
            Misfit::Wrong => Refusal::fault(Code::DirectiveForm, self.hash),
            Misfit::Short => match self.cut {
                Some(cut) => cut.refusal(),
                None => Refusal::fault(Code::DirectiveForm, self.hash),
            },
        }
    }
}

// The predefined macros that stand for one token (C90 6.8.8).
ghost use Rattle.std.specs.Prelude.{◌≡◌};
ghost use Rattle.c65_macro.specs.Predefined;

use c65_base::Options;
use c65_lex::PpKind;

/// A predefined macro that stands for one token.
#[derive(Clone, Copy, Debug, PartialEq, Eq)]
pub enum Given {
    Date,
    Time,
    Standard,
    Compiler,
    Optimised,
    Inlined,
    Registers,
    Known,
}

impl Given {
    /// All of them, in the order in which they are defined.
    pub const ALL: [Given; 8] = [
        Given::Date,
        Given::Time,
        Given::Standard,
        Given::Compiler,
        Given::Optimised,
        Given::Inlined,
        Given::Registers,
        Given::Known,
    ];

    /// Whether it is defined with these options.
    pub fn is_on(self, options: &Options) -> bool
        ensures { result ≡ Predefined.is_on self options.now }
    {
        match self {
            Given::Optimised => options.optimise,
            Given::Inlined => options.optimise && options.inline_more,
            Given::Registers => options.optimise && options.register_vars,
            Given::Known => options.optimise && options.known_functions,
            _ => true,
        }
    }

    pub fn name(self) -> &'static [u8]
        ensures { result.now ≡ Predefined.name self }
    {
        match self {
            Given::Date => b"__DATE__",
            Given::Time => b"__TIME__",
            Given::Standard => b"__STDC__",
            Given::Compiler => b"__CC65__",
            Given::Optimised => b"__OPT__",
            Given::Inlined => b"__OPT_i__",
            Given::Registers => b"__OPT_r__",
            Given::Known => b"__OPT_s__",
        }
    }

    /// The class of its token.
    pub fn kind(self) -> PpKind
        ensures { result ≡ Predefined.kind self }
    {
        match self {
            Given::Date | Given::Time => PpKind::Text,
            _ => PpKind::Number,
        }
    }

    /// The spelling of its token.
    pub fn text(self) -> &'static [u8]
        ensures { result.now ≡ Predefined.text self }
    {
        match self {
            Given::Date => b"\"Jan  1 1970\"",
            Given::Time => b"\"00:00:00\"",
            _ => b"1",
        }
    }
}

// Which directive a line is (C90 6.8).
ghost use Rattle.std.specs.Prelude.{◌≡◌, find, bytes_eq};
ghost use Rattle.c65_ppline.specs.DirectiveLines;
ghost use Rattle.c65_ppline.specs.DirectiveLines.{directive_spelling, directive_of, IsDeed};

use crate::marks::{is_name, spelling_of};
use c65_base::{Code, Names, Pos};
use c65_lex::PpToken;

/// The directives that have names.
#[derive(Clone, Copy)]
pub enum Directive {
    Define,
    Undef,
    Include,
    If,
    Ifdef,
    Ifndef,
    Elif,
    Else,
    Endif,
    Line,
    Error,
    Pragma,
}

const DIRECTIVES: [Directive; 12] = [
    Directive::Define,
    Directive::Undef,
    Directive::Include,
    Directive::If,
    Directive::Ifdef,
    Directive::Ifndef,
    Directive::Elif,
    Directive::Else,
    Directive::Endif,
    Directive::Line,
    Directive::Error,
    Directive::Pragma,
];

impl Directive {
    /// The directive's name.
    pub fn spelling(self) -> &'static [u8]
        ensures { result.now ≡ directive_spelling self }
    {
        match self {
            Directive::Define => b"define",
            Directive::Undef => b"undef",
            Directive::Include => b"include",
            Directive::If => b"if",
            Directive::Ifdef => b"ifdef",
            Directive::Ifndef => b"ifndef",
            Directive::Elif => b"elif",
            Directive::Else => b"else",
            Directive::Endif => b"endif",
            Directive::Line => b"line",
            Directive::Error => b"error",
            Directive::Pragma => b"pragma",
        }
    }
}

fn directive_among(directives: &[Directive], spelling: &[u8]) -> Option<Directive>
    ensures { result ≡ find (λ d. bytes_eq (directive_spelling d) spelling.now) directives.now }
{
    for directive in directives {
        if directive.spelling() == spelling {
            return Some(*directive);
        }
    }
    None
}

/// The directive of a name.
fn find_directive(spelling: &[u8]) -> Option<Directive>
    ensures { result ≡ directive_of spelling.now }
{
    directive_among(&DIRECTIVES, spelling)
}

/// What stands behind the # of a line.
#[derive(Clone, Copy)]
pub enum Head {
    Nothing,
    Known(Directive),
    /// A name that is no directive's, at its place.
    Unknown(Pos),
    /// No name.
    Misshapen,
}

/// What stands behind the # of a line with these tokens.
pub fn head_of(names: &Names, tokens: &[PpToken]) -> Head
    ensures { result ≡ DirectiveLines.head_of names.now tokens.now }
{
    let Some((first, _)) = tokens.split_first() else {
        return Head::Nothing;
    };
    if !is_name(first) {
        return Head::Misshapen;
    }
    match find_directive(spelling_of(names, first.spelling)) {
        Some(directive) => Head::Known(directive),
        None => Head::Unknown(first.pos),
    }
}

/// What the condition of a part of a group looks at.
#[derive(Clone, Copy)]
pub enum Test {
    /// The value of an expression.
    Condition,
    /// Whether a name is defined.
    Defined,
    /// Whether a name is not defined.
    Undefined,
}

/// What begins or ends a part of a group.
#[derive(Clone, Copy)]
pub enum Part {
    Begin(Test),
    Alternate,
    Otherwise,
    End,
}

/// What the line of a directive does.
#[derive(Clone, Copy)]
pub enum Deed {
    Nothing,
    Define,
    Undef,
    Include,
    Renumber,
    Pragma,
    Group(Part),
    /// It is refused for this, with this place.
    Refused(Code, Pos),
}

/// The part of a group that a directive begins or ends.
fn part_by(directive: Directive) -> Option<Part>
    ensures { result ≡ DirectiveLines.part_by directive }
{
    match directive {
        Directive::If => Some(Part::Begin(Test::Condition)),
        Directive::Ifdef => Some(Part::Begin(Test::Defined)),
        Directive::Ifndef => Some(Part::Begin(Test::Undefined)),
        Directive::Elif => Some(Part::Alternate),
        Directive::Else => Some(Part::Otherwise),
        Directive::Endif => Some(Part::End),
        _ => None,
    }
}

/// The part of a group that a line begins or ends.
pub fn part_of(head: Head) -> Option<Part>
    ensures { result ≡ DirectiveLines.part_of head }
{
    match head {
        Head::Known(directive) => part_by(directive),
        _ => None,
    }
}

/// What a directive with its # at this place does.
fn deed_by(directive: Directive, hash: Pos) -> Deed
    ensures exact { result ≡ DirectiveLines.deed_by directive hash }
    ensures deed { IsDeed result }
{
    match directive {
        Directive::Define => Deed::Define,
        Directive::Undef => Deed::Undef,
        Directive::Include => Deed::Include,
        Directive::If => Deed::Group(Part::Begin(Test::Condition)),
        Directive::Ifdef => Deed::Group(Part::Begin(Test::Defined)),
        Directive::Ifndef => Deed::Group(Part::Begin(Test::Undefined)),
        Directive::Elif => Deed::Group(Part::Alternate),
        Directive::Else => Deed::Group(Part::Otherwise),
        Directive::Endif => Deed::Group(Part::End),
        Directive::Line => Deed::Renumber,
        Directive::Error => Deed::Refused(Code::ErrorDirective, hash),
        Directive::Pragma => Deed::Pragma,
    }
}

/// What a line with its # at this place does.
pub fn deed_of(hash: Pos, head: Head) -> Deed
    ensures exact { result ≡ DirectiveLines.deed_of hash head }
    ensures deed { IsDeed result }
{
    match head {
        Head::Nothing => Deed::Nothing,
        Head::Known(directive) => deed_by(directive, hash),
        Head::Unknown(pos) => Deed::Refused(Code::Directive, pos),
        Head::Misshapen => Deed::Refused(Code::DirectiveForm, hash),
    }
}

// The controlling expressions of #if and #elif (C90 6.8.1): from tokens to whether the condition holds.
ghost use Rattle.std.specs.Prelude.{◌≡◌, ◌<◌, ◌||◌, ◌∷◌, [], length, pos, option_map, IfErr, IfSome, IsTrue};
ghost use Rattle.c65_base.specs.Answers.{Gives};
ghost use Rattle.c65_lex.specs.Spellings.{among};
ghost use Rattle.c65_macro.specs.Answered;
ghost use Rattle.c65_ppexpr.specs.Arithmetic;
ghost use Rattle.c65_ppline.specs.Causes.{Stops, IsUnitCode};
ghost use Rattle.c65_ppexpr.specs.ConditionLines;
ghost use Rattle.c65_ppexpr.specs.ConditionLines.{is_unsigned, scanned, decided, IsHeld, IsCondition};
ghost use Rattle.c65_ppexpr.specs.declared.expression.Symbol.TheVariants as symbols;
ghost use Rattle.c65_ppline.specs.Expansions.{ReadsExpansion};
ghost use Rattle.c65_ppexpr.specs.Resolved;
ghost use Rattle.c65_ppexpr.specs.Resolved.{anything, behind_defined, in_parentheses, resolved};
ghost use Rattle.c65_scan.specs.Tokens.{spelling_in, tokens_of};

use crate::expression::{Symbol, evaluate};
use crate::value::{Flaw, Infix, Value, is_zero, make_value};
use c65_base::{BinaryOp, Code, Name, Names, Pos, Refusal};
use c65_lex::{Paths, PpKind, PpToken, PpTokens, PpUnit};
use c65_macro::Macros;
use c65_ppline::{Line, expand, intern, is_mark, is_name, is_word, spelling_of};
use c65_scan::{Punct, Token, TokenKind, scan};
use std::alloc::Global;

/// A name in parentheses, whose first is read, and the tokens behind it.
fn split_name<'a>(names: &Names, tokens: &'a [PpToken]) -> Option<(Name, &'a [PpToken])>
    ensures fewer { IfSome result (λ r. length r.1.now < length tokens.now) }
    ensures exact { option_map (λ r. (r.0, r.1.now)) result ≡ in_parentheses names.now tokens.now }
{
    let (name, behind) = tokens.split_first()?;
    let (last, more) = behind.split_first()?;
    if !is_name(name) {
        None
    } else if is_mark(names, last, b")") {
        Some((name.spelling, more))
    } else {
        None
    }
}

/// The name behind `defined`, with or without parentheses, and the tokens behind it.
fn split_defined<'a>(names: &Names, tokens: &'a [PpToken]) -> Option<(Name, &'a [PpToken])>
    ensures fewer { IfSome result (λ r. length r.1.now < length tokens.now) }
    ensures exact { option_map (λ r. (r.0, r.1.now)) result ≡ behind_defined names.now tokens.now }
{
    let (first, rest) = tokens.split_first()?;
    if is_name(first) {
        Some((first.spelling, rest))
    } else if is_mark(names, first, b"(") {
        split_name(names, rest)
    } else {
        None
    }
}

/// The token 1 or 0 in the place of another.
fn truth_token(names: &mut Names, is_true: bool, token: &PpToken) -> Result<PpToken, Refusal>
    ensures stops { IfErr result Stops }
    ensures exact { Answered.Gives (λ t. t) result names.new (Resolved.truth_token names.old is_true token.now) }
{
    let spelling = if is_true {
        intern(names, b"1")
    } else {
        intern(names, b"0")
    };
    match spelling {
        Ok(spelling) => Ok(PpToken {
            kind: PpKind::Number,
            spelling,
            ..*token
        }),
        Err(refusal) => Err(refusal),
    }
}

/// The tokens with 1 or 0 in the place of each `defined`; None where one stands before no name.
fn without_defined(
    alloc: Global,
    macros: &Macros,
    names: &mut Names,
    tokens: &[PpToken],
) -> Result<Option<Vec<PpToken>>, Refusal>
    ensures stops { IfErr result Stops }
    ensures exact { Answered.Gives (λ o. option_map (λ v. v.items) o) result names.new (resolved macros.now anything names.old [] tokens.now) }
{
    let mut out = Vec::new(alloc);
    let mut rest = tokens;
    while let Some((token, behind)) = rest.split_first() {
        if !is_word(names, token, b"defined") {
            out.push(*token)?;
            rest = behind;
            continue;
        }
        let Some((name, more)) = split_defined(names, behind) else {
            return Ok(None);
        };
        match truth_token(names, macros.get(name).is_some(), token) {
            Ok(truth) => out.push(truth)?,
            Err(refusal) => return Err(refusal),
        }
        rest = more;
    }
    Ok(Some(out))
}

/// The symbol of a punctuator.
fn symbol_of_punct(punct: Punct) -> Symbol
    ensures { result ≡ ConditionLines.symbol_of_punct punct }
{
    match punct {
        Punct::OpenParen => Symbol::Opening,
        Punct::CloseParen => Symbol::Closing,
        Punct::Question => Symbol::Question,
        Punct::Colon => Symbol::Colon,
        Punct::Tilde => Symbol::BitNot,
        Punct::Exclamation => Symbol::Not,
        Punct::Star => Symbol::Operator(Infix::Both(BinaryOp::Mul)),
        Punct::Slash => Symbol::Operator(Infix::Both(BinaryOp::Div)),
        Punct::Percent => Symbol::Operator(Infix::Both(BinaryOp::Rem)),
        Punct::Plus => Symbol::Operator(Infix::Both(BinaryOp::Add)),
        Punct::Minus => Symbol::Operator(Infix::Both(BinaryOp::Sub)),
        Punct::ShiftLeft => Symbol::Operator(Infix::Both(BinaryOp::Shl)),
        Punct::ShiftRight => Symbol::Operator(Infix::Both(BinaryOp::Shr)),
        Punct::Less => Symbol::Operator(Infix::Both(BinaryOp::Lt)),
        Punct::Greater => Symbol::Operator(Infix::Both(BinaryOp::Gt)),
        Punct::LessEqual => Symbol::Operator(Infix::Both(BinaryOp::Le)),
        Punct::GreaterEqual => Symbol::Operator(Infix::Both(BinaryOp::Ge)),
        Punct::EqualEqual => Symbol::Operator(Infix::Both(BinaryOp::Eq)),
        Punct::NotEqual => Symbol::Operator(Infix::Both(BinaryOp::Ne)),
        Punct::Ampersand => Symbol::Operator(Infix::Both(BinaryOp::BitAnd)),
        Punct::Caret => Symbol::Operator(Infix::Both(BinaryOp::BitXor)),
        Punct::Bar => Symbol::Operator(Infix::Both(BinaryOp::BitOr)),
        Punct::AndAnd => Symbol::Operator(Infix::And),
        Punct::OrOr => Symbol::Operator(Infix::Or),
        _ => Symbol::Stranger,
    }
}

/// Whether a number's spelling has the suffix u; no digit is that letter.
fn has_unsigned_suffix(spelling: &[u8]) -> bool
    ensures { result ≡ (among spelling.now 117 || among spelling.now 85) }
{
    contains(spelling, b'u') || contains(spelling, b'U')
}

fn contains(spelling: &[u8], byte: u8) -> bool
    ensures { result ≡ among spelling.now byte }
{
    for other in spelling {
        if *other == byte {
            return true;
        }
    }
    false
}

/// The value of a number or a character constant: unsigned by its suffix, or where long has not the value.
fn operand(kind: PpKind, spelling: &[u8], value: u32) -> Symbol
    ensures { result ≡ symbols.Operand (Arithmetic.value (is_unsigned kind spelling.now value) (pos value)) }
{
    let is_unsigned = kind == PpKind::Number && has_unsigned_suffix(spelling);
    Symbol::Operand(make_value(is_unsigned || value > 2_147_483_647, i64::from(value)))
}

/// Whether a fault is that of a token which is none; that a constant is no integer is not among them.
fn is_token_fault(code: Code) -> bool
    ensures cause { IsTrue result → IsUnitCode code }
    ensures exact { result ≡ ConditionLines.is_token_fault code }
{
    match code {
        Code::StrayByte
        | Code::OpenLiteral
        | Code::BadNumber
        | Code::NumberRange
        | Code::BadEscape
        | Code::CharConstant
        | Code::Wide => true,
        _ => false,
    }
}

/// The symbol of a number, a character constant or a punctuator.
fn scanned_symbol(alloc: Global, names: &Names, token: PpToken) -> Result<Symbol, Refusal>
    ensures stops { IfErr result Stops }
    ensures exact { Gives (λ s. s) result (scanned token.kind (spelling_in names.now token.spelling) (tokens_of names.now (token ∷ []))) }
{
    let mut tokens = Vec::new(alloc);
    tokens.push(token)?;
    let unit = PpUnit {
        tokens: PpTokens::from_vec(tokens),
        files: Paths::from_vec(Vec::new(alloc)),
    };
    match scan(alloc, &unit, names) {
        Ok(scanned) => Ok(first_symbol(
            token.kind,
            spelling_of(names, token.spelling),
            scanned.as_slice(),
        )),
        Err(Refusal::At { code, pos }) if is_token_fault(code) => Err(Refusal::fault(code, pos)),
        Err(Refusal::OutOfMemory) => Err(Refusal::OutOfMemory),
        Err(_) => Ok(Symbol::Stranger),
    }
}

/// The symbol of a token of this class and spelling by what it was scanned as.
fn symbol_in(kind: PpKind, spelling: &[u8], scanned: &TokenKind) -> Symbol
    ensures { result ≡ ConditionLines.symbol_in kind spelling.now scanned.now }
{
    match scanned {
        TokenKind::Number(_, value) => operand(kind, spelling, *value),
        TokenKind::Punct(punct) => symbol_of_punct(*punct),
        _ => Symbol::Stranger,
    }
}

fn first_symbol(kind: PpKind, spelling: &[u8], scanned: &[Token]) -> Symbol
    ensures { result ≡ ConditionLines.first_symbol kind spelling.now scanned.now }
{
    match scanned.split_first() {
        Some((first, _)) => symbol_in(kind, spelling, &first.kind),
        None => Symbol::Stranger,
    }
}

/// The symbol of a token. A name that is left stands for 0.
fn symbol_of(alloc: Global, names: &Names, token: PpToken) -> Result<Symbol, Refusal>
    ensures stops { IfErr result Stops }
    ensures exact { Gives (λ s. s) result (ConditionLines.symbol_of names.now token) }
{
    match token.kind {
        PpKind::Name => Ok(Symbol::Operand(make_value(false, 0))),
        PpKind::Text => Ok(Symbol::Stranger),
        _ => scanned_symbol(alloc, names, token),
    }
}

fn symbols_of(alloc: Global, names: &Names, tokens: &[PpToken]) -> Result<Vec<Symbol>, Refusal>
    ensures stops { IfErr result Stops }
    ensures exact { Gives (λ v. v.items) result (ConditionLines.symbols_of names.now [] tokens.now) }
{
    let mut symbols = Vec::new(alloc);
    let mut rest = tokens;
    while let Some((token, more)) = rest.split_first() {
        match symbol_of(alloc, names, *token) {
            Ok(symbol) => symbols.push(symbol)?,
            Err(refusal) => return Err(refusal),
        }
        rest = more;
    }
    Ok(symbols)
}

/// Whether a condition of this value holds.
fn decide(value: Option<Value>, hash: Pos) -> Result<bool, Refusal>
    ensures stops { IfErr result Stops }
    ensures exact { Gives (λ b. b) result (decided hash value) }
{
    let Some(value) = value else {
        return Err(Refusal::fault(Code::IfExpression, hash));
    };
    match value.flaw {
        None => Ok(!is_zero(value)),
        Some(Flaw::Division) => Err(Refusal::fault(Code::IfDivision, hash)),
        Some(Flaw::Shift) => Err(Refusal::fault(Code::IfExpression, hash)),
    }
}

/// Whether the condition of expanded tokens holds.
fn holds(alloc: Global, names: &Names, tokens: &[PpToken], hash: Pos) -> Result<bool, Refusal>
    ensures stops { IfErr result Stops }
    ensures exact { Gives (λ b. b) result (ConditionLines.holds hash names.now tokens.now) }
{
    let symbols = match symbols_of(alloc, names, tokens) {
        Ok(symbols) => symbols,
        Err(refusal) => return Err(refusal),
    };
    match evaluate(alloc, &symbols) {
        Ok(value) => decide(value, hash),
        Err(_) => Err(Refusal::OutOfMemory),
    }
}

/// Whether the condition of tokens without `defined` holds.
fn expanded(
    alloc: Global,
    macros: &Macros,
    names: &mut Names,
    tokens: &[PpToken],
    hash: Pos,
) -> Result<bool, Refusal>
    ensures stops { IfErr result Stops }
    ensures exact { ReadsExpansion (λ b. b) (ConditionLines.holds hash) macros.now names.old tokens.now names.new result }
{
    match expand(macros, tokens, names) {
        Ok(expanded) => holds(alloc, names, &expanded, hash),
        Err(refusal) => Err(refusal),
    }
}

/// Whether the condition of these tokens holds; the place is that of the directive.
fn condition(
    alloc: Global,
    macros: &Macros,
    names: &mut Names,
    tokens: &[PpToken],
    hash: Pos,
) -> Result<bool, Refusal>
    ensures stops { IfErr result Stops }
    ensures exact { IsHeld macros.now hash (resolved macros.now anything names.old [] tokens.now) names.new result }
{
    match without_defined(alloc, macros, names, tokens) {
        Ok(Some(tokens)) => expanded(alloc, macros, names, &tokens, hash),
        Ok(None) => Err(Refusal::fault(Code::IfExpression, hash)),
        Err(refusal) => Err(refusal),
    }
}

/// Whether the condition of an #if or #elif line holds.
pub fn condition_line(
    alloc: Global,
    macros: &Macros,
    names: &mut Names,
    line: Line,
) -> Result<bool, Refusal>
    ensures stops { IfErr result Stops }
    ensures exact { IsCondition macros.now names.old line names.new result }
{
    match line.cut {
        Some(cut) => Err(cut.refusal()),
        None => condition(alloc, macros, names, line.rest(), line.hash),
    }
}

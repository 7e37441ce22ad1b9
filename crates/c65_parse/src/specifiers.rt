// What a token does among specifiers, members and enumerators (C90 6.5 to 6.5.3).
ghost use Rattle.std.specs.Prelude.{◌≡◌, IfOk};
ghost use Rattle.c65_tree.specs.View.{specifiers_of};
ghost use Rattle.c65_parse_trees.specs.Listings;
ghost use Rattle.c65_parse_trees.specs.Listings.{with_tag, with_body};
ghost use Rattle.c65_parse_trees.specs.Lists.{listing_of, listed_of};
ghost use Rattle.c65_parse.specs.Specifiers;
ghost use Rattle.c65_parse.specs.Specifiers.{member_step, end_listed, end_specifiers, specifiers_step, is_enum, is_union_word, enum_of, open_body, tag_step, tag_name_step, more_members_step, enumerator_step, enumerator_name_step};
ghost use Rattle.c65_parse.specs.Views.{frame_of, stack_of, held_of, next_of, tag_part_of, members_part_of, body_of, enum_part_of};

use crate::declarators::declarator;
use crate::frame::{
    Body, Done, EnumPart, Frame, Held, MembersPart, Sort, Step, TagPart, with_frame,
};
use crate::operands::{after_enumerator, enter, go, has_room};
use c65_base::{Name, Pos};
use c65_parse_trees::{
    EnumeratorList, Infix, Listing, MeasuredSpecifiers, MemberDecls, MemberList, Sign, TagWord,
};
use c65_tree::Specifier;
use std::alloc::{AllocError, Global};

/// A member is needed.
#[tactic(auto, unfolding(crate::specs::Specifiers::member_step))]
pub fn member(
    alloc: Global,
    limit: u16,
    frames: Vec<Frame>,
    part: MembersPart,
    pos: Pos,
    sign: Sign,
) -> Result<Step, AllocError>
    ensures { IfOk result (λ n. next_of n ≡ member_step limit (members_part_of part) (stack_of frames.items) pos sign) }
{
    match sign {
        Sign::Colon => enter(frames, Frame::Width(part, pos, None), Held::Operand),
        _ => {
            let sort = Sort::Member(part.specifiers.has_type);
            let frames = with_frame(frames, Frame::Member(part, pos))?;
            declarator(alloc, limit, frames, sort, pos, sign)
        }
    }
}

/// Behind specifiers.
#[tactic(auto, unfolding(crate::specs::Specifiers::end_listed))]
fn after_specifiers(
    alloc: Global,
    limit: u16,
    frames: Vec<Frame>,
    specifiers: MeasuredSpecifiers,
    pos: Pos,
    sign: Sign,
) -> Result<Step, AllocError>
    ensures { IfOk result (λ n. next_of n ≡ end_listed limit (listed_of specifiers) (stack_of frames.items) pos sign) }
{
    let mut frames = frames;
    let innermost = frames.pop();
    match innermost {
        Some(Frame::Type(at, purpose)) => {
            let frames = with_frame(frames, Frame::TypeDeclarator(at, purpose, specifiers))?;
            declarator(alloc, limit, frames, Sort::Abstract, pos, sign)
        }
        Some(Frame::Params(part)) => {
            let sort = Sort::Param(specifiers.has_type);
            let frames = with_frame(frames, Frame::Param(part, specifiers))?;
            declarator(alloc, limit, frames, sort, pos, sign)
        }
        Some(Frame::Members(body)) => {
            let part = MembersPart {
                body,
                specifiers,
                members: MemberList::new(alloc),
            };
            member(alloc, limit, frames, part, pos, sign)
        }
        Some(Frame::Operation(_))
        | Some(Frame::Paren(_))
        | Some(Frame::Index(_, _))
        | Some(Frame::Call(_, _, _))
        | Some(Frame::Then(_, _))
        | Some(Frame::Bound(_, _))
        | Some(Frame::Width(_, _, _))
        | Some(Frame::Value(_, _, _))
        | Some(Frame::TypeDeclarator(_, _, _))
        | Some(Frame::Member(_, _))
        | Some(Frame::Param(_, _))
        | Some(Frame::Group(_))
        | Some(Frame::Derived(_, _)) => Ok(Step::fail((frames, innermost, specifiers))),
        None => Ok(Step::fail((frames, specifiers))),
    }
}

#[tactic(auto, unfolding(crate::specs::Specifiers::end_specifiers))]
fn end_specifiers(
    alloc: Global,
    limit: u16,
    frames: Vec<Frame>,
    listing: Listing,
    pos: Pos,
    sign: Sign,
) -> Result<Step, AllocError>
    ensures { IfOk result (λ n. next_of n ≡ Specifiers.end_specifiers limit (listing_of listing) (stack_of frames.items) pos sign) }
{
    let is_empty = listing.first.is_none();
    let specifiers = listing.end(pos);
    if frames.is_empty() {
        return Ok(Step::Stop(Done::Specifiers(specifiers)));
    }
    if is_empty {
        return Ok(Step::fail((frames, specifiers)));
    }
    after_specifiers(alloc, limit, frames, specifiers, pos, sign)
}

/// Among specifiers.
#[tactic(auto, unfolding(crate::specs::Specifiers::specifiers_step))]
pub fn specifiers(
    alloc: Global,
    limit: u16,
    frames: Vec<Frame>,
    listing: Listing,
    pos: Pos,
    sign: Sign,
) -> Result<Step, AllocError>
    ensures { IfOk result (λ n. next_of n ≡ specifiers_step limit (listing_of listing) (stack_of frames.items) pos sign) }
{
    match sign {
        Sign::Word(word) => {
            let listing = listing.with_word(pos, word)?;
            Ok(go(frames, Held::Specifiers(listing)))
        }
        Sign::Storage(storage) if listing.takes_storage => {
            let listing = listing.with_storage(pos, storage)?;
            Ok(go(frames, Held::Specifiers(listing)))
        }
        Sign::Tag(word) => {
            let part = TagPart {
                outer: listing,
                pos,
                word,
            };
            Ok(go(frames, Held::Tag(part)))
        }
        Sign::Name(name, true) if !listing.has_type => {
            let listing = listing.with_typedef_name(pos, name)?;
            Ok(go(frames, Held::Specifiers(listing)))
        }
        _ => end_specifiers(alloc, limit, frames, listing, pos, sign),
    }
}

impl TagPart {
    /// The specifiers with this tag alone.
    pub fn end(self, name: Name) -> Result<Listing, AllocError>
        ensures { IfOk result (λ r. listing_of r ≡ with_tag (tag_part_of self) name) }
    {
        let specifier = match self.word {
            TagWord::Struct => Specifier::tag(self.pos, false, Some(name)),
            TagWord::Union => Specifier::tag(self.pos, true, Some(name)),
            TagWord::Enum => Specifier::enum_tag(self.pos, Some(name)),
        };
        self.outer.with(self.pos, specifier, 1, true, false)
    }

    fn into_body(self, alloc: Global, tag: Option<Name>) -> Body
        ensures { body_of result ≡ Specifiers.body_of (tag_part_of self) tag }
    {
        Body {
            outer: self.outer,
            pos: self.pos,
            is_union: matches!(self.word, TagWord::Union),
            tag,
            decls: MemberDecls::new(alloc),
        }
    }

    fn into_enum(self, alloc: Global, tag: Option<Name>) -> EnumPart
        ensures { enum_part_of result ≡ enum_of (tag_part_of self) tag }
    {
        EnumPart {
            outer: self.outer,
            pos: self.pos,
            tag,
            enumerators: EnumeratorList::new(alloc),
        }
    }
}

impl Body {
    /// The specifiers with this structure or union.
    pub fn end(self) -> Result<Listing, AllocError>
        ensures { IfOk result (λ r. listing_of r ≡ with_body (body_of self)) }
    {
        let depth = self.decls.depth.saturating_add(1);
        let specifier = Specifier::tagged(self.pos, self.is_union, self.tag, self.decls.decls);
        self.outer.with(self.pos, specifier, depth, true, false)
    }
}

/// Behind the brace after a structure's, a union's or an enumeration's word.
#[tactic(auto, unfolding(crate::specs::Specifiers::open_body))]
fn braced(
    alloc: Global,
    limit: u16,
    frames: Vec<Frame>,
    part: TagPart,
    tag: Option<Name>,
) -> Result<Step, AllocError>
    ensures { IfOk result (λ n. next_of n ≡ open_body limit (tag_part_of part) tag (stack_of frames.items)) }
{
    if matches!(part.word, TagWord::Enum) {
        let part = part.into_enum(alloc, tag);
        return Ok(go(frames, Held::Enumerator(part)));
    }
    if !has_room(limit, &frames, 2) {
        return Ok(Step::deep((frames, part)));
    }
    let body = part.into_body(alloc, tag);
    let listing = Listing::new(alloc, false);
    enter(frames, Frame::Members(body), Held::Specifiers(listing))
}

/// Behind a structure's, a union's or an enumeration's word.
#[tactic(auto, unfolding(crate::specs::Specifiers::tag_step))]
pub fn tag(
    alloc: Global,
    limit: u16,
    frames: Vec<Frame>,
    part: TagPart,
    sign: Sign,
) -> Result<Step, AllocError>
    ensures { IfOk result (λ n. next_of n ≡ tag_step limit (tag_part_of part) (stack_of frames.items) sign) }
{
    match sign {
        Sign::Name(name, _) => Ok(go(frames, Held::TagName(part, name))),
        Sign::OpenBrace => braced(alloc, limit, frames, part, None),
        _ => Ok(Step::fail((frames, part))),
    }
}

/// Behind that word and a tag.
#[tactic(auto, unfolding(crate::specs::Specifiers::tag_name_step))]
pub fn tag_name(
    alloc: Global,
    limit: u16,
    frames: Vec<Frame>,
    part: TagPart,
    name: Name,
    pos: Pos,
    sign: Sign,
) -> Result<Step, AllocError>
    ensures { IfOk result (λ n. next_of n ≡ tag_name_step limit (tag_part_of part) name (stack_of frames.items) pos sign) }
{
    match sign {
        Sign::OpenBrace => braced(alloc, limit, frames, part, Some(name)),
        _ => {
            let listing = part.end(name)?;
            specifiers(alloc, limit, frames, listing, pos, sign)
        }
    }
}

/// Behind a declaration of members.
#[tactic(auto, unfolding(crate::specs::Specifiers::more_members_step))]
pub fn more_members(
    alloc: Global,
    limit: u16,
    frames: Vec<Frame>,
    body: Body,
    pos: Pos,
    sign: Sign,
) -> Result<Step, AllocError>
    ensures { IfOk result (λ n. next_of n ≡ more_members_step limit (body_of body) (stack_of frames.items) pos sign) }
{
    match sign {
        Sign::CloseBrace => {
            let listing = body.end()?;
            Ok(go(frames, Held::Specifiers(listing)))
        }
        _ => {
            let frames = with_frame(frames, Frame::Members(body))?;
            let listing = Listing::new(alloc, false);
            specifiers(alloc, limit, frames, listing, pos, sign)
        }
    }
}

/// An enumerator is needed.
#[tactic(auto, unfolding(crate::specs::Specifiers::enumerator_step))]
pub fn enumerator(frames: Vec<Frame>, part: EnumPart, pos: Pos, sign: Sign) -> Step
    ensures { next_of result ≡ enumerator_step (enum_part_of part) (stack_of frames.items) pos sign }
{
    match sign {
        Sign::Name(name, _) => go(frames, Held::EnumeratorName(part, name, pos)),
        _ => Step::fail((frames, part)),
    }
}

/// Behind an enumerator's name.
#[tactic(auto, unfolding(crate::specs::Specifiers::enumerator_name_step))]
pub fn enumerator_name(
    limit: u16,
    frames: Vec<Frame>,
    part: EnumPart,
    name: Name,
    pos: Pos,
    sign: Sign,
) -> Result<Step, AllocError>
    ensures { IfOk result (λ n. next_of n ≡ enumerator_name_step limit (enum_part_of part) name pos (stack_of frames.items) sign) }
{
    match sign {
        Sign::Infix(Infix::Assign(None)) => {
            if has_room(limit, &frames, 2) {
                enter(frames, Frame::Value(part, name, pos), Held::Operand)
            } else {
                Ok(Step::deep((frames, part)))
            }
        }
        _ => {
            let part = part.with_name(name, pos)?;
            after_enumerator(frames, part, name, sign)
        }
    }
}

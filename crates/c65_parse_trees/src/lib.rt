//! What a parser joins: tokens by what they may do, operators by how tightly they hold, and trees
//! with their depth beside them.
#![tactic(auto)]

mod declarator;
mod expression;
mod listing;
mod measured;
mod members;
mod operator;
mod params;
mod sign;
mod typename;

pub use measured::{
    EnumeratorList, Listing, MeasuredDeclarator, MeasuredExpr, MeasuredExprs, MeasuredParams,
    MeasuredSpecifiers, MeasuredType, MemberDecls, MemberList, ParamList,
};
pub use operator::{Infix, Prefix};
pub use sign::{Sign, TagWord, Word};

// Where a parser stands.
ghost use Rattle.std.specs.Prelude.{◌<◌, length};

use c65_parse_names::Scope;
use c65_scan::Token;
use std::alloc::Global;

/// The greatest depth of a tree: the number of `Size::Depth`, as the contracts say.
pub const DEPTH: u16 = 256;

/// Tokens that are being read, and the names that are types there.
#[derive(Drop)]
pub struct Parser<'a> {
    pub(crate) tokens: &'a [Token],
    pub(crate) at: usize,
    pub(crate) scope: Scope,
    pub(crate) alloc: Global,
    ghost inside: { at < length tokens.now },
}

// Specifiers that are being read.
ghost use Rattle.std.specs.Prelude.{◌≡◌, IfOk, min, nat_eq};
ghost use Rattle.c65_tree.specs.Trees.{no_specifiers};
ghost use Rattle.c65_tree.specs.Depth.{specifier_list_depth, specifier_depth, specifiers_depth};
ghost use Rattle.c65_tree.specs.View.{specifier_of, specifiers_of, specifiers_from};
ghost use Rattle.c65_parse_trees.specs.Listings;
ghost use Rattle.c65_parse_trees.specs.Listings.{nothing_listed, list_with, with_storage, with_word, with_typedef_name, ended};
ghost use Rattle.c65_parse_trees.specs.Lists.{listing_of, listed_of};

use crate::measured::{Listing, MeasuredSpecifiers};
use crate::sign::Word;
use c65_base::{Name, Pos};
use c65_tree::{Specifier, Specifiers, Storage, with_specifier};
use std::alloc::{AllocError, Global};

impl Listing {
    pub fn new(alloc: Global, takes_storage: bool) -> Listing
        ensures { listing_of result ≡ nothing_listed takes_storage }
    {
        Listing {
            first: None,
            items: Vec::new(alloc),
            depth: 0,
            has_type: false,
            is_typedef: false,
            takes_storage,
        }
    }

    /// With one more specifier, of this depth.
    pub fn with(
        self,
        pos: Pos,
        specifier: Specifier,
        depth: u32,
        is_type: bool,
        is_typedef: bool,
    ) -> Result<Listing, AllocError>
        requires { depth ≡ min (specifier_depth (specifier_of specifier)) 4294967295 }
        ensures { IfOk result (λ r. listing_of r ≡ list_with (listing_of self) pos (specifier_of specifier) is_type is_typedef) }
    {
        let depth = self.depth.max(depth);
        let items = with_specifier(self.items, specifier)?;
        Ok(Listing {
            first: Some(self.first.unwrap_or(pos)),
            items,
            depth,
            has_type: self.has_type || is_type,
            is_typedef: self.is_typedef || is_typedef,
            takes_storage: self.takes_storage,
        })
    }

    pub fn with_storage(self, pos: Pos, storage: Storage) -> Result<Listing, AllocError>
        ensures { IfOk result (λ r. listing_of r ≡ with_storage (listing_of self) pos storage) }
    {
        let is_typedef = matches!(storage, Storage::Typedef);
        self.with(pos, Specifier::storage(pos, storage), 1, false, is_typedef)
    }

    pub fn with_word(self, pos: Pos, word: Word) -> Result<Listing, AllocError>
        ensures { IfOk result (λ r. listing_of r ≡ with_word (listing_of self) pos word) }
    {
        self.with(pos, word.specifier(pos), 1, word.is_type(), false)
    }

    pub fn with_typedef_name(self, pos: Pos, name: Name) -> Result<Listing, AllocError>
        ensures { IfOk result (λ r. listing_of r ≡ with_typedef_name (listing_of self) pos name) }
    {
        self.with(pos, Specifier::typedef_name(pos, name), 1, true, false)
    }

    /// The specifiers, before a token at this place.
    pub fn end(self, pos: Pos) -> MeasuredSpecifiers
        ensures { listed_of result ≡ ended (listing_of self) pos }
    {
        let first = self.first.unwrap_or(pos);
        MeasuredSpecifiers {
            specifiers: Specifiers::new(first, self.items),
            depth: self.depth,
            has_type: self.has_type,
            is_typedef: self.is_typedef,
        }
    }
}

impl MeasuredSpecifiers {
    /// Whether there are none.
    pub fn is_empty(&self) -> bool
        ensures { result ≡ nat_eq (specifiers_depth (specifiers_of self.now.specifiers)) 0 }
    {
        self.depth == 0
    }
}

// The lists of initialisers that are open (C90 6.5.7).
ghost use Rattle.std.specs.Prelude.{◌≡◌, ◌∷◌, IfOk};
ghost use Rattle.c65_tree.specs.View.{init_of};
ghost use Rattle.c65_parse_frames.specs.Lists;
ghost use Rattle.c65_parse_frames.specs.Views.{list_of, lists_of};

use c65_base::Pos;
use c65_tree::{Initialiser, push_last, with_init};
use std::alloc::AllocError;

/// A list whose initialisers are being read. Each is one level of depth.
#[derive(Drop)]
pub struct InitList {
    pub pos: Pos,
    pub items: Vec<Initialiser>,
}

/// Where a reading of an initialiser stands: at its end, or where one more is needed.
#[derive(Drop)]
pub enum Listed {
    Whole(Initialiser),
    Open(Vec<InitList>),
}

/// One more list.
pub fn enter_list(lists: Vec<InitList>, list: InitList) -> Result<Vec<InitList>, AllocError>
    ensures { IfOk result (λ r. lists_of r.items ≡ list_of list ∷ lists_of lists.items) }
{
    let mut lists = lists;
    push_last(&mut lists, list)?;
    Ok(lists)
}

/// A list with one more initialiser.
pub fn with_initialiser(list: InitList, init: Initialiser) -> Result<InitList, AllocError>
    ensures { IfOk result (λ r. list_of r ≡ Lists.with_initialiser (list_of list) (init_of init)) }
{
    let pos = list.pos;
    let items = with_init(list.items, init)?;
    Ok(InitList { pos, items })
}

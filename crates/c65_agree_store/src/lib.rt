//! How the store of the meaning stands in the memory of the machine on lines.
#![tactic(auto)]

mod laws;

pub use laws::{
    areas_are_read, blocks_begin, blocks_end, cells_are_laid, free_bytes_change, numbers_are_read,
    places_are_read, stores_go_on_standing, unset_blocks_begin,
};

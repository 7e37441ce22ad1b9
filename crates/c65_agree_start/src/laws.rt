// The law of the first store, the contract of a function that does nothing.
ghost use Rattle.c65_agree_start.specs.Laws.{TheFirstStoreStands};

/// Each block that there is before main stands where main begins.
pub fn the_first_store_stands()
    ensures { TheFirstStoreStands }
{}

// Laws, each the contract of a function that does nothing.
ghost use Rattle.c65_rtl_law_products.specs.Rows.{WordsAreMultiplied};

/// Wherever the lines of `tosmulax` and `popax` stand under their numbers, each call of `tosmulax` that its row admits does what
/// the row says: it comes back with the product of both words in 16 bits, in fewer instructions than the row costs.
pub fn words_are_multiplied()
    ensures { WordsAreMultiplied }
{}

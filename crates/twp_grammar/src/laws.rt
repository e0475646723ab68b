//! Laws of tokens, sentences, and items that follow from their definitions. Each law is a contract,
//! and its function does nothing.
ghost use Rattle.twp_grammar.specs.Laws.{HasTokenList, OneTokenList, OneItemList, OneDerivation};
ghost use Rattle.twp_grammar.specs.Laws.{SeveralAreEntries};

/// Every list of bytes can be split into tokens.
pub fn has_token_list()
    ensures { HasTokenList }
{}

/// Bytes can be split into tokens in only one way.
pub fn one_token_list()
    ensures { OneTokenList }
{}

/// A list of tokens is read as only one list of items.
pub fn one_item_list()
    ensures { OneItemList }
{}

/// A sentence of the grammar has only one derivation.
pub fn one_derivation()
    ensures { OneDerivation }
{}

/// Several entries are entries that are not one number alone.
pub fn several_are_entries()
    ensures { SeveralAreEntries }
{}

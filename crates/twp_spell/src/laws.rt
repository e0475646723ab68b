//! Laws of the texts that land is written as. Each law is a contract, and its function does
//! nothing.
ghost use Rattle.twp_spell.specs.SpellingLaws.{OneListOfParts, WrittenPartsAreApart};
ghost use Rattle.twp_spell.specs.SpellingLaws.{WrittenPartsHoldAll, FinerPlacesSameParts};
ghost use Rattle.twp_spell.specs.SpellingLaws.{OneCanonicalText, EmptyLandHasEmptyText};
ghost use Rattle.twp_spell.specs.ReadBack.{CanonicalTextNamesItsLand, CanonicalTextIsReadBack};
ghost use Rattle.twp_spell.specs.ReadBack.{OneTextForEachLand, CanonicalTextStaysTheSame};

/// The land in a section is written as only one list of parts, which are squares and halves of
/// squares.
pub fn one_list_of_parts()
    ensures { OneListOfParts }
{}

/// No place lies in two written parts.
pub fn written_parts_are_apart()
    ensures { WrittenPartsAreApart }
{}

/// A place is in the land exactly if it is in a written part.
pub fn written_parts_hold_all()
    ensures { WrittenPartsHoldAll }
{}

/// If each place is divided into four, the written parts are the same.
pub fn finer_places_same_parts()
    ensures { FinerPlacesSameParts }
{}

/// Land in a township has exactly one canonical text.
pub fn one_canonical_text()
    ensures { OneCanonicalText }
{}

/// The canonical text of empty land is empty.
pub fn empty_land_has_empty_text()
    ensures { EmptyLandHasEmptyText }
{}

/// The canonical text of land that is not empty is a sentence that lies on the plat without
/// overlapping and names that land.
pub fn canonical_text_names_its_land()
    ensures { CanonicalTextNamesItsLand }
{}

/// If the canonical text of land that is not empty is no longer than descriptions can be, it is
/// read as items whose land is that land.
pub fn canonical_text_is_read_back()
    ensures { CanonicalTextIsReadBack }
{}

/// Two sets of land in one township have the same canonical text exactly if they are the same set.
pub fn one_text_for_each_land()
    ensures { OneTextForEachLand }
{}

/// If a canonical text is read, the canonical text of the land that was read is the same text.
pub fn canonical_text_stays_the_same()
    ensures { CanonicalTextStaysTheSame }
{}

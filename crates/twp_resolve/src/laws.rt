//! Laws of the places that items name. Each law is a contract, and its function does nothing.
ghost use Rattle.twp_resolve.specs.Laws.{OnPlatHasNoFault, OnePlaceAnswer};
ghost use Rattle.twp_resolve.specs.DescribedLand.{DescribedLandIsOfTownship};
ghost use Rattle.twp_resolve.specs.DescribedLand.{DescriptionNamesSomePlace, SameLandOnEachPlat};

/// Items that lie on the plat without overlapping have no fault.
pub fn on_plat_has_no_fault()
    ensures { OnPlatHasNoFault }
{}

/// Items have either one set of land or one first fault, and not both.
pub fn one_place_answer()
    ensures { OnePlaceAnswer }
{}

/// The land of a description, if its items lie on the plat without overlapping, is land of the
/// township: it contains only places of its sections, and each lot wholly or not at all.
pub fn described_land_is_of_township()
    ensures { DescribedLandIsOfTownship }
{}

/// A description whose items lie on the plat without overlapping names at least one place.
pub fn description_names_some_place()
    ensures { DescriptionNamesSomePlace }
{}

/// A description that names neither a lot nor a whole section means the same places on each plat on which it
/// is accepted.
pub fn same_land_on_each_plat()
    ensures { SameLandOnEachPlat }
{}

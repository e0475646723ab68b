//! Laws of answers that follow from their definitions. Each law is a contract, and its function
//! does nothing. The laws of areas are in `twp_plat`.
ghost use Rattle.twp_answers.specs.TractLaws.{RestAddsUp, TractsAddUp, OneReportAnswer};
ghost use Rattle.twp_answers.specs.Laws.{OneAnswer, OneAnswerOfLand, OnePlatAnswer, OneNormalAnswer};
ghost use Rattle.twp_answers.specs.Laws.{OneAnswerBy};
ghost use Rattle.twp_answers.specs.OnPlatLaws.{AcresOnAreOfNotes, NormalOnIsOfNotes, OneAreaOn};
ghost use Rattle.twp_answers.specs.OnPlatLaws.{TextOfPlatIsOfNotes, RefusalOnIsOfNotes};
ghost use Rattle.twp_answers.specs.OnPlatLaws.{AnsweredOrRefusedOn};
ghost use Rattle.twp_answers.specs.OnLandLaws.{AcresOnAreOfLand, TextOfLandIsItsDescription};
ghost use Rattle.twp_answers.specs.NormalLaws.{NormalTextIsItsOwn, LongNormalTextIsRefused};
ghost use Rattle.twp_answers.specs.FinerPlaces.{FinerPlacesKeepAll, FinerPlacesKeepPlatAreas};
ghost use Rattle.twp_answers.specs.FinerPlaces.{ThirtySecondsKeepAll};

/// The area of a set of places and the area of all others add up exactly to the township's.
pub fn rest_adds_up()
    ensures { RestAddsUp }
{}

/// The area of all places in at least one tract of a list is exactly the sum of the tracts' areas.
pub fn tracts_add_up()
    ensures { TractsAddUp }
{}

/// The same two texts, the field notes and the description, always have one answer and one verdict.
pub fn one_answer()
    ensures { OneAnswer }
{}

/// So they do by either account.
pub fn one_answer_by()
    ensures { OneAnswerBy }
{}

/// Two descriptions of the same land have the same answer with the same notes, however the land is
/// described.
pub fn one_answer_of_land()
    ensures { OneAnswerOfLand }
{}

/// The same field notes always have one printed plat and one verdict.
pub fn one_plat_answer()
    ensures { OnePlatAnswer }
{}

/// The same field notes and description always have one canonical text and one verdict.
pub fn one_normal_answer()
    ensures { OneNormalAnswer }
{}

/// The canonical text of a description, if it is no longer than descriptions can be, is its own
/// canonical text: as a description with the same notes, its answer is the text itself.
pub fn normal_text_is_its_own()
    ensures { NormalTextIsItsOwn }
{}

/// A canonical text that is longer than descriptions can be is refused for its length when it is
/// used as a description.
pub fn long_normal_text_is_refused()
    ensures { LongNormalTextIsRefused }
{}

/// The acreage on a plat is that of any notes that make the plat, with the description.
pub fn acres_on_are_of_notes()
    ensures { AcresOnAreOfNotes }
{}

/// So is the canonical text on the plat.
pub fn normal_on_is_of_notes()
    ensures { NormalOnIsOfNotes }
{}

/// And so is the text of the plat.
pub fn text_of_plat_is_of_notes()
    ensures { TextOfPlatIsOfNotes }
{}

/// A description is refused on the plat exactly as it is with the notes.
pub fn refusal_on_is_of_notes()
    ensures { RefusalOnIsOfNotes }
{}

/// A description that has an area on a plat is not refused there.
pub fn answered_or_refused_on()
    ensures { AnsweredOrRefusedOn }
{}

/// A description has only one area on a plat by each account.
pub fn one_area_on()
    ensures { OneAreaOn }
{}

/// The acreage of a description on a plat is that of its land.
pub fn acres_on_are_of_land()
    ensures { AcresOnAreOfLand }
{}

/// If land is not empty, and its canonical text is no longer than descriptions can be, the text is
/// a description of that land.
pub fn text_of_land_is_its_description()
    ensures { TextOfLandIsItsDescription }
{}

/// The same field notes and list of tracts always have one account and one verdict.
pub fn one_report_answer()
    ensures { OneReportAnswer }
{}

/// If each place is divided into four, descriptions mean the same as before: items that lie on the
/// plat without overlapping still do, and name the same land, with the same exact area and the same
/// canonical text. The sum over the smaller places is four times the sum over the larger ones.
pub fn finer_places_keep_all()
    ensures { FinerPlacesKeepAll }
{}

/// So do plat areas, if the nominal share of a place is a whole number of units.
pub fn finer_places_keep_plat_areas()
    ensures { FinerPlacesKeepPlatAreas }
{}

/// From places of 2.5 acres, whose side is a sixteenth of a section's, to places of 5/8 of an acre,
/// everything stays the same, including plat areas.
pub fn thirty_seconds_keep_all()
    ensures { ThirtySecondsKeepAll }
{}

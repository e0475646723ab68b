//! The functions of the library for C. Plats and answers are plain data, and texts are written to the
//! caller's memory. `township_answer_many` returns the acres and the canonical text of many descriptions,
//! and whether there is a note on each. `include/township.h` documents the functions; `twp_c` exports them.
#![tactic(auto)]

mod account;
mod account_call;
mod answer;
mod answer_many;
mod answering;
mod basis;
mod combining;
mod designation;
mod designation_call;
mod designation_mark;
mod designation_parts;
mod designation_reading;
mod designation_stage;
mod designation_text;
mod each_call;
mod explaining;
mod explaining_by_lots;
mod explaining_lists_by_lots;
mod explaining_lots;
mod explaining_texts;
mod explanation;
mod figures;
mod fraction;
mod full_answer;
mod land;
mod land_answers;
mod land_end;
mod land_parts;
pub mod laws;
mod lot_answers;
mod lot_lands;
mod lots;
mod lots_answer_many;
mod lots_each_call;
mod lots_many;
mod lots_overlaps_call;
mod lots_plain;
mod lots_report_call;
mod many;
mod name;
mod next_heading;
mod overlaps_call;
mod plat;
mod reading;
mod setting_aside;
mod split;
mod suggesting;
mod suggesting_by_lots;
mod suggestion;
mod text;
mod unread;
mod verdict;
mod version;
mod which_plat;
mod writing;

pub use account_call::{TownshipTotals, TownshipTract, township_account};
pub use answer::TownshipAnswer;
pub use answer_many::township_answer_many;
pub use answering::{
    township_acres, township_area, township_normal, township_print, township_read, township_report,
};
pub use combining::{township_land_combine, township_land_compare};
pub use designation::TownshipDesignation;
pub use designation_call::{township_designation_read, township_designation_text};
pub use each_call::{TownshipTractAnswer, township_report_each};
pub use explaining::{
    township_explain_description_parts, township_explain_list_parts, township_explain_notes_parts,
    township_version,
};
pub use explaining_by_lots::{
    township_lots_explain_description, township_lots_explain_description_parts,
};
pub use explaining_lists_by_lots::{township_lots_explain_list, township_lots_explain_list_parts};
pub use explaining_lots::{
    township_explain_lacking, township_explain_lacking_parts, township_explain_lots,
    township_explain_lots_parts,
};
pub use explaining_texts::{
    township_explain_description, township_explain_list, township_explain_notes,
};
pub use explanation::TownshipExplanation;
pub use figures::{TownshipPlatFigures, township_figures};
pub use fraction::TownshipFraction;
pub use full_answer::TownshipFullAnswer;
pub use land::TownshipLand;
pub use land_answers::{
    township_land_acres, township_land_area, township_land_read, township_land_text,
};
pub use land_parts::{TownshipPart, township_land_parts};
pub use lot_answers::{township_lots_acres, township_lots_area, township_lots_read};
pub use lot_lands::{
    township_lots_land_acres, township_lots_land_area, township_lots_land_read,
    township_lots_land_text,
};
pub use lots::TownshipLots;
pub use lots_answer_many::township_lots_answer_many;
pub use lots_each_call::township_lots_report_each;
pub use lots_many::township_lots_acres_many;
pub use lots_overlaps_call::{TownshipLotsOverlap, township_lots_overlaps};
pub use lots_plain::township_lots_plain;
pub use lots_report_call::township_lots_report;
pub use many::township_acres_many;
pub use overlaps_call::{TownshipOverlap, township_overlaps};
pub use plat::TownshipPlat;
pub use setting_aside::township_set_aside;
pub use split::township_split;
pub use suggesting::township_suggest;
pub use suggesting_by_lots::township_lots_suggest;
pub use suggestion::{TownshipChange, TownshipReading, TownshipSuggestion};
pub use unread::{TownshipStretch, township_unread};
pub use writing::township_write_notes;

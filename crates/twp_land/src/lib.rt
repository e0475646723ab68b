//! Land: sets of places in a township. The trait `PlaceSet` says what each such set does, `GrowingSet` what a set does to
//! which places are added, and `Land` what else a set does that has room for all sections. `Grid` stores a test for each
//! place, and `Lanes` a bit. `OneLanes` has room for the places of one section, and `WholeSections` is made of whole sections.
#![tactic(auto)]

mod comparing;
mod dividing;
mod growing_set;
mod land;
mod land_rows;
mod lanes;
pub mod laws;
mod lot_map;
mod lot_marks;
mod lots;
mod lotting;
mod one_section;
mod place_set;
mod plat_lots;
mod plot;
mod relation;
mod row;
mod row_combining;
mod row_comparing;
mod rows;
mod sections;
mod whole_lots;
mod whole_sections;

pub use comparing::{Comparison, compare};
pub use dividing::map_of_marks;
pub use growing_set::GrowingSet;
pub use land::Land;
pub use land_rows::LandRows;
pub use lanes::{LaneRows, Lanes};
pub use lot_map::{DIVIDED_BYTES, LotMap, POSITION_BYTES};
pub use lot_marks::LotMarks;
pub use lots::{holds_of_lot, lots_whole};
pub use lotting::{Lotting, StandardLots};
pub use one_section::{OneLanes, OneSection};
pub use place_set::PlaceSet;
pub use plat_lots::PlatLots;
pub use plot::Plot;
pub use row_combining::{write_difference, write_intersection, write_union};
pub use row_comparing::compare_rows;
pub use rows::{Grid, Rows};
pub use sections::Sections;
pub use whole_lots::has_whole_lots_on;
pub use whole_sections::WholeSections;

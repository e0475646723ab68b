//! The plat of a township: which returned lengths make one, the closing quarters of its lines, and
//! the exact areas of its sections' positions, of its sections, and of the township, as fractions;
//! and the areas of land on it, also as fractions: exact, or with the acreage that the plat shows for
//! whole lots. Also the other way, field notes that make a plat. If there are no field notes, a lot
//! table gives the acreage that the approved plat returns for each lot (`lots`): a second basis of
//! the same areas.
#![tactic(auto)]

mod fault;
mod land_area;
pub mod laws;
mod lot_figure;
mod lots;
mod piece;
mod plat;
mod writing;

pub use fault::{HalfMile, PlatFault};
pub use land_area::{Account, area_by, area_of, plat_area_of};
pub use lots::{
    BOUNDS, FIGURE_MOST, LOT_MOST, LOTS, LackingLot, LotTable, LotsFault, RETURNED_MOST,
    ReturnedLots, area_by_lots, plain_table,
};
pub use plat::{CLOSING_LEAST, CLOSING_MOST, HALF_LEAST, HALF_MOST, Plat, QUARTER_MILE};
pub use writing::notes_text;

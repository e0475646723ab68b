//! Lot tables: the acreage that the approved plat returns for the lots of a township, read from
//! bytes or refused for their first fault; and the area of land by it.

mod area;
mod date;
mod fault;
mod heading;
mod lacking;
mod land_entries;
mod land_parsing;
mod land_record;
mod land_row;
mod land_rows;
mod land_text;
mod land_unfilled;
mod parsing;
mod plat_record;
mod reading;
mod record;
mod returned;
mod sheet;
mod table;

pub use area::area_by_lots;
pub use fault::LotsFault;
pub use lacking::LackingLot;
pub use returned::{BOUNDS, FIGURE_MOST, LOT_MOST, LOTS, RETURNED_MOST, ReturnedLots};
pub use sheet::plain_table;
pub use table::LotTable;

//! The answers on a plat: the acres, the area, and the canonical text of a description, the printed
//! plat, and the accounts of lists of tracts, by a plat or by a lot table. The runs (`runs`) read
//! texts, find the answer, and write it. The areas of land come from `twp_plat`.
#![tactic(auto)]

mod account_figures;
mod each_tract;
mod earlier_tracts;
pub mod laws;
mod lot_account;
mod measuring;
mod names;
mod on_plat;
mod overlaps;
mod plat_text;
mod running_account;
mod runs;
mod stop;
mod totals;
mod tract;
mod tract_fault;
mod tracts;

pub use account_figures::{AccountFigures, TractFigure, figure_of, figures_on};
pub use each_tract::{TractAnswer, each_by_lots, each_on};
pub use earlier_tracts::EarlierTracts;
pub use lot_account::account_by_lots;
pub use on_plat::{
    account_on, acres_of, acres_on, area_described, area_on, land_of, normal_described, normal_on,
    read_noting, read_plat, write_acres_line,
};
pub use overlaps::{TractOverlap, overlaps_by_lots, overlaps_on};
pub use plat_text::print_plat;
pub use runs::{
    Ran, run_acres, run_acres_as, run_acres_noting, run_normal, run_normal_noting, run_plat,
    run_report, run_report_noting,
};
pub use stop::{RunFault, Stop, Verdict};
pub use tract::is_heading;
pub use tract_fault::{TRACTS_LIMIT, TRACTS_MOST, TractFault};
pub use tracts::{FIRST_TRACT, ListAccount, account_of as account_of_tracts};
pub use twp_plat::Account;

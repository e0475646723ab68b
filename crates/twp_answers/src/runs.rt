//! The runs: each reads field notes, and for most runs a second text, finds the answer, and writes
//! it.

mod acres_answer;
mod answer;
mod normal_answer;
mod plat_answer;
mod report_answer;
mod running;

pub use answer::Ran;
pub use running::{
    run_acres, run_acres_as, run_acres_noting, run_normal, run_normal_noting, run_plat, run_report,
    run_report_noting,
};

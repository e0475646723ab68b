//! The exports of the library for C and for the languages that call C. `include/township.h` documents
//! them. Each passes its arguments to the function of the same name in `twp_calls`.
#![tactic(auto)]

mod designations;
mod explaining;
mod explaining_lots;
mod explanation_parts;
mod exports;
mod figures;
mod land;
mod lists;
mod lots;
mod lots_lists;
mod splitting;
mod suggesting;

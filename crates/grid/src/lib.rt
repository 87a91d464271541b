//! A terminal that keeps its screen in given cells.
#![tactic(auto)]

mod acting;
mod cells;
mod creating;
mod erasing;
mod full;
pub mod grid;
mod parsing;
mod putting;
mod reading;
mod row;
pub mod writing;

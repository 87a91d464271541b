//! Where a text ends on rows of columns.
#![tactic(auto)]

pub mod block;
pub mod layout;
pub mod measure;

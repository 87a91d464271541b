//! The renderer: what draws a block, erases it and moves the cursor, on any terminal.
#![tactic(auto)]

pub mod block;
pub mod notice;
pub mod renderer;
pub mod update;
pub mod writing;

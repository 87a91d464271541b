//! A terminal by the screen that it means, and how bytes are written to one.
#![tactic(auto)]

pub mod pacer;
pub mod record;
pub mod recording;
pub mod size;
pub mod terminal;
pub mod writing;

//! A prepared caption, held against the screen that it will be typed on.
#![tactic(auto)]

pub mod preview;

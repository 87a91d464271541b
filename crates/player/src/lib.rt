//! Scripts of acts, played on a grid and told act by act.
#![tactic(auto)]

mod act_report;
pub mod byte_report;
pub mod ending;
pub mod fault;
pub mod play;
pub mod screen_report;
pub mod visible;
pub mod watcher;

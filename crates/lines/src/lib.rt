//! The texts of a session: its line, its prompt and a stored note, each in a table of its own.
#![tactic(auto)]

pub mod line_buffer;
pub mod note;
pub mod notice;
pub mod prompt;

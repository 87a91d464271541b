//! Bytes at the front of a fixed memory.
#![tactic(auto)]

pub mod buffer;

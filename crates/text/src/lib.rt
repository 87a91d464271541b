//! Texts as bytes: UTF-8, controls, good texts, style sequences and visible text.
#![tactic(auto)]

pub mod decode;
pub mod lines;
pub mod refusal;
pub mod styled;
pub mod texts;

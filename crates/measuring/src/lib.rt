//! Where the parts of a block end: prompt, line and note measured one behind the other, each once.
#![tactic(auto)]

pub mod measuring;

//! Byte strings, and what the byte rules make of them.
#![tactic(auto)]

#[cfg(test)]
mod damage;
#[cfg(test)]
mod deaf;
#[cfg(test)]
mod drawing;
#[cfg(test)]
mod seeing;
#[cfg(test)]
mod sequences;
#[cfg(test)]
mod writing;

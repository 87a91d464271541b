//! Tests of texts as bytes. What is expected follows from the rules of UTF-8, of controls and of style sequences.
#![tactic(auto)]

#[cfg(test)]
mod damage;
#[cfg(test)]
mod edges;
#[cfg(test)]
mod lines;
#[cfg(test)]
mod styles;

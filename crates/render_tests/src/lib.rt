//! Tests of the renderer: the bytes of its calls.
#![tactic(auto)]

#[cfg(test)]
mod drawing;
#[cfg(test)]
mod moving;
#[cfg(test)]
mod notices;
#[cfg(test)]
mod seeing;

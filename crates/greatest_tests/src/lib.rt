//! The greatest drawing, by a highlighter whose every answer is as long as one may be.
#![tactic(auto)]

#[cfg(test)]
mod greatest;
#[cfg(test)]
mod verbose;

//! Examples of measured texts, apart from the crate `layout` so that its proof stays short.
#![tactic(auto)]

#[cfg(test)]
mod tests;

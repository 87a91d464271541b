//! Tests of the buffers. What is expected follows from the rules: a change is made where there is room, and else nothing is altered.
#![tactic(auto)]

#[cfg(test)]
mod changes;

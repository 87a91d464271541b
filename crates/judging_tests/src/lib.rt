//! Tests of measuring and judging: where the parts of a block end, which hints fit, and which refusal comes first.
#![tactic(auto)]

#[cfg(test)]
mod judgements;
#[cfg(test)]
mod places;

// Widths, configurations and wide masks: the bits that every level of a style set is made of.
#![tactic(auto)]

pub mod config;
pub mod mask;
pub mod ones;

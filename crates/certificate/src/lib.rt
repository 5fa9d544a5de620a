// The accessible-EPUB certificate: the runs of a style, and the conditions that two styles keep.
#![tactic(auto)]

pub mod complement;
pub mod conditions;
pub mod runs;

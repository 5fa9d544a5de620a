// Images of version 3: their layout, what they store, and their fields.
#![tactic(auto)]

pub mod body;
pub mod error;
pub mod fields;
pub mod layout;
pub mod write;

// The command language: the words of a line, its operands, and the command that it is.
#![tactic(auto)]

pub mod command;
pub mod error;
pub mod line;
pub mod operand;
pub mod options;
pub mod verb;

// The refusals of the library, which are answers, and what else keeps a command from being carried out.
use commands::error::LineError;
use draft::DraftError;
use immutable_bitset::error::{FillError, SerializeError};
use serialization::error::{AccessError, Rule};
use std::alloc::AllocError;
use std::fmt;
use thiserror::Error;

// A refused filling as it is printed: why bytes are no image without a name around it, and a rule by its number.
#[derive(Clone, Copy)]
struct FillText(FillError);

impl fmt::Display for FillText {
    // The name of the refusal.
    fn fmt<W: fmt::Write>(&self, f: &mut fmt::Formatter<W>) -> fmt::Result {
        match self.0 {
            FillError::Access(AccessError::Broken(rule, place)) => {
                write!(f, "Broken({}, {place})", rule_number(rule))
            }
            FillError::Access(error) => write!(f, "{error:?}"),
            error => write!(f, "{error:?}"),
        }
    }
}

// The number of a rule of images.
fn rule_number(rule: Rule) -> u8 {
    match rule {
        Rule::Level1Count => 1,
        Rule::Level0Start => 2,
        Rule::Level1Mask => 3,
        Rule::Level1Start => 4,
        Rule::DataCount => 5,
        Rule::DataBlock => 6,
    }
}

// What the library refused, printed by its name.
#[derive(Clone, Copy, PartialEq, Eq, Debug, Error)]
pub enum Refusal {
    #[error("{0:?}")]
    Draft(#[from] DraftError),
    #[error("{}", FillText(*.0))]
    Fill(#[from] FillError),
    #[error("{0:?}")]
    Serialize(#[from] SerializeError),
    // a layer over unequal sets, or a rule on them
    #[error("Void")]
    Void,
}

// Why a command was not carried out.
#[derive(Clone, Copy, Debug, Error)]
pub enum Declined<'a> {
    // the library refused, and the script goes on
    #[error(transparent)]
    Refused(#[from] Refusal),
    // the line is no command, memory ran out, or a file was not written, and the script ends
    #[error(transparent)]
    BadLine(#[from] LineError<'a>),
}

impl<'a> From<AllocError> for Declined<'a> {
    // Want of memory is told as a bad line is. Two steps, where a derive makes one.
    fn from(error: AllocError) -> Declined<'a> {
        Declined::BadLine(LineError::from(error))
    }
}

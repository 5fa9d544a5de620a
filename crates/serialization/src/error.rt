// Why bytes are not taken as an image.
ghost use Rattle.std.specs.Prelude.{◌≡◌};
ghost use Rattle.serialization.specs.declared.error.AccessError.TheVariants.{IOError};

use reader::fault::ReadFault;

// The rules that an image keeps.
#[derive(Clone, Copy, PartialEq, Eq, Debug)]
pub enum Rule {
    // n counts the raised bits of the level-0 mask
    Level1Count,
    // each level-0 start is as defined
    Level0Start,
    // no level-1 mask is zero
    Level1Mask,
    // each level-1 start is as defined
    Level1Start,
    // d counts the raised level-1 bits
    DataCount,
    // no data block is zero
    DataBlock,
}

#[derive(Clone, Copy, PartialEq, Eq, Debug)]
pub enum AccessError {
    // the bytes end before the image does
    UnexpectedEof,
    // the version that was found
    FormatMismatch(u16),
    // the reader refused
    IOError(ReadFault),
    // a rule fails, first at this place
    Broken(Rule, usize),
}

impl From<ReadFault> for AccessError {
    ghost from_gives = { λ e r. r ≡ IOError e };

    // A reader's fault is carried whole. By hand, since a clause names the error.
    fn from(fault: ReadFault) -> AccessError {
        AccessError::IOError(fault)
    }
}

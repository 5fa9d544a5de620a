// Why a blank is not filled, and why a set is not written.
ghost use Rattle.std.specs.Prelude.{◌≡◌};
ghost use Rattle.immutable_bitset.specs.declared.error.FillError.TheVariants.{Access};
ghost use Rattle.serialization.specs.declared.error.AccessError.TheVariants.{IOError};

use reader::fault::ReadFault;
use serialization::error::AccessError;

#[derive(Clone, Copy, PartialEq, Eq, Debug)]
pub enum FillError {
    // the source is void
    Void,
    // so many words are needed, and fewer were lent
    NoMemory(usize),
    // the bytes are no image
    Access(AccessError),
}

impl From<AccessError> for FillError {
    ghost from_gives = { λ e r. r ≡ Access e };

    // Why the bytes are no image is carried whole. By hand, since a clause names the error.
    fn from(error: AccessError) -> FillError {
        FillError::Access(error)
    }
}

impl From<ReadFault> for FillError {
    ghost from_gives = { λ e r. r ≡ Access (IOError e) };

    // A reader's fault too.
    fn from(fault: ReadFault) -> FillError {
        FillError::Access(AccessError::IOError(fault))
    }
}

#[derive(Clone, Copy, PartialEq, Eq, Debug)]
pub enum SerializeError {
    // the set is void
    Void,
    // the image is longer than the buffer
    NoRoom,
}

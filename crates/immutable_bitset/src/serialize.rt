// Writing a set as an image.
ghost use Rattle.std.specs.Prelude.{◌≡◌, length};
ghost use Rattle.immutable_bitset.specs.Images.{unwritten, serialize_refusal, Writes};

use crate::ImmutableBitset;
use crate::error::SerializeError;
use serialization::write::write_image;

impl ImmutableBitset<'_> {
    // Writes the image of the set from the buffer's start, and answers its length. Refused, it writes nothing.
    pub fn serialize(&self, buffer: &mut [u8]) -> Result<usize, SerializeError>
        ensures refused { serialize_refusal result ≡ unwritten self.now.blank.numbers (length buffer.old) }
        ensures writes { Writes self.now.blank.numbers self.now.blank.words.now result buffer.old buffer.new }
    {
        let numbers = self.blank.numbers.as_ref().ok_or(SerializeError::Void)?;
        write_image(buffer, numbers, self.blank.words).ok_or(SerializeError::NoRoom)
    }
}

// Reading the fields of an image, each by one request.
ghost use Rattle.std.specs.Prelude.{◌≡◌, [], ◌∷◌, length, take, map, slice_index};
ghost use Rattle.reader.specs.Fields.{Took, Gives, faulted, one, many};
ghost use Rattle.reader.specs.LittleEndian.{value, numbers};
ghost use Rattle.reader.specs.Streams.{after};
ghost use Rattle.serialization.specs.Faults.{accessed};
ghost use Rattle.serialization.specs.Fieldwise.{mask_in, four_of, least, Starts16, TopIn};
ghost use Rattle.serialization.specs.Image.{n_in, d_in};
ghost use Rattle.serialization.specs.Layout.{size, padding, top_fields};
ghost use Rattle.serialization.specs.Outcomes.{headed};

use crate::error::AccessError;
use crate::layout::{HEADER_SIZE, Offsets, mask_size, padding_for};
use bit_block::config::{Config, Width};
use bit_block::mask::Mask;
use packing::Numbers;
use packing::start_words::pack_starts;
use reader::Reader;
use reader::fault::ReadFault;
use reader::little_endian::LittleEndian;

// The version that is written and read.
pub const FORMAT_VERSION: u16 = 3;

// A number of N bytes.
pub fn read_number<R: Reader, const N: usize, T: LittleEndian<N>>(
    reader: &mut R,
) -> Result<T, ReadFault>
    ensures took { Took (one N ∷ []) (R.Reader.means reader.old) (faulted result) (R.Reader.means reader.new) }
    ensures gives { Gives result (λ x. T.number x ≡ value (take N (R.Reader.means reader.old).front.bytes)) }
{
    let mut bytes = [0; N];
    reader.read_exact(&mut bytes)?;
    Ok(T::from_le_bytes(&bytes))
}

// A number of one byte.
pub fn read_u8<R: Reader>(reader: &mut R) -> Result<u8, ReadFault>
    ensures took { Took (one 1 ∷ []) (R.Reader.means reader.old) (faulted result) (R.Reader.means reader.new) }
    ensures gives { Gives result (λ x. x ≡ slice_index (R.Reader.means reader.old).front.bytes 0) }
{
    read_number(reader) // a byte is its own number
}

// A number of two bytes.
pub fn read_u16<R: Reader>(reader: &mut R) -> Result<u16, ReadFault>
    ensures took { Took (one 2 ∷ []) (R.Reader.means reader.old) (faulted result) (R.Reader.means reader.new) }
    ensures gives { Gives result (λ x. x ≡ value (take 2 (R.Reader.means reader.old).front.bytes)) }
{
    read_number(reader) // two bytes, the least significant first
}

// A number of four bytes.
pub fn read_u32<R: Reader>(reader: &mut R) -> Result<u32, ReadFault>
    ensures took { Took (one 4 ∷ []) (R.Reader.means reader.old) (faulted result) (R.Reader.means reader.new) }
    ensures gives { Gives result (λ x. x ≡ value (take 4 (R.Reader.means reader.old).front.bytes)) }
{
    read_number(reader) // four bytes, the least significant first
}

// As many numbers as there is room for, each a field of N bytes.
fn read_numbers<R: Reader, const N: usize, T: LittleEndian<N>>(
    reader: &mut R,
    room: &mut [T],
) -> Result<(), ReadFault>
    ensures took { Took (many (length room.old) N ∷ []) (R.Reader.means reader.old) (faulted result) (R.Reader.means reader.new) }
    ensures gives { Gives result (λ _. map T.number room.new ≡ numbers N (length room.old) (R.Reader.means reader.old).front.bytes) }
    ensures long { length room.new ≡ length room.old }
{
    for number in room.iter_mut() {
        *number = read_number(reader)?;
    }
    Ok(())
}

// The four words of 32 bytes.
fn words_of(bytes: &[u8; 32]) -> [u64; 4]
    ensures { result ≡ numbers 8 4 bytes.now }
{
    let (chunks, _) = bytes.as_chunks();
    let mut words = [0; 4];
    for (q, word) in words.iter_mut().enumerate() {
        *word = u64::from_le_bytes(chunks[q]);
    }
    words
}

// A mask.
pub fn read_mask<R: Reader>(reader: &mut R, width: Width) -> Result<Mask, ReadFault>
    ensures took { Took (one (size width) ∷ []) (R.Reader.means reader.old) (faulted result) (R.Reader.means reader.new) }
    ensures gives { Gives result (λ m. m.words ≡ mask_in width (R.Reader.means reader.old).front.bytes) }
{
    let mut bytes = [0; 32]; // room for the widest mask: no heap
    reader.read_exact(&mut bytes[..mask_size(width)])?;
    Ok(Mask {
        words: words_of(&bytes),
    })
}

// The padding from a place to the next that is a multiple of a mask's size. It is not looked at.
pub fn skip_padding<R: Reader>(reader: &mut R, width: Width, at: usize) -> Result<(), ReadFault>
    ensures { Took (one (padding (size width) at) ∷ []) (R.Reader.means reader.old) (faulted result) (R.Reader.means reader.new) }
{
    let mut bytes = [0; 32]; // room for the widest mask: no heap
    reader.read_exact(&mut bytes[..padding_for(width, at)])
}

// The eight level-0 starts, each a field of one byte.
pub fn read_starts<R: Reader>(reader: &mut R) -> Result<[u8; 8], ReadFault>
    ensures took { Took (many 8 1 ∷ []) (R.Reader.means reader.old) (faulted result) (R.Reader.means reader.new) }
    ensures gives { Gives result (λ x. x ≡ take 8 (R.Reader.means reader.old).front.bytes) }
{
    let mut starts = [0; 8];
    read_numbers(reader, &mut starts)?;
    Ok(starts)
}

// What an image declares: how many level-1 masks and how many blocks.
#[derive(Clone, Copy)]
pub struct Header {
    pub n: u16,
    pub d: u32,
}

// The header: the version is looked at as soon as it is read.
pub fn read_header<R: Reader>(reader: &mut R) -> Result<Header, AccessError>
    ensures refused { accessed result ≡ (headed (R.Reader.means reader.old)).refusal }
    ensures left { R.Reader.means reader.new ≡ after (headed (R.Reader.means reader.old)).taken (R.Reader.means reader.old) }
    ensures rows { Gives result (λ h. h.n ≡ n_in (R.Reader.means reader.old).front.bytes) }
    ensures blocks { Gives result (λ h. h.d ≡ d_in (R.Reader.means reader.old).front.bytes) }
{
    let version = read_u16(reader)?;
    if version != FORMAT_VERSION {
        return Err(AccessError::FormatMismatch(version));
    }
    let n = read_u16(reader)?;
    let d = read_u32(reader)?;
    Ok(Header { n, d })
}

// Level 0, with the paddings on either side: the numbers of a set.
pub fn read_top<R: Reader>(
    reader: &mut R,
    config: Config,
    header: Header,
) -> Result<Numbers, ReadFault>
    ensures took { Took (top_fields config) (R.Reader.means reader.old) (faulted result) (R.Reader.means reader.new) }
    ensures gives { Gives result (TopIn config header (R.Reader.means reader.old).front.bytes) }
{
    skip_padding(reader, config.level0, HEADER_SIZE)?;
    let level0 = read_mask(reader, config.level0)?;
    let starts = read_starts(reader)?;
    let end = Offsets::new(config, header.n, header.d).level0_starts + 8;
    skip_padding(reader, config.level1, end)?;
    Ok(Numbers {
        config,
        level0,
        starts,
        n: header.n,
        d: header.d,
    })
}

// The word of four starts; each is a number of 16 bits.
fn word_of_starts(starts: [u16; 4]) -> u64
    ensures word { result ≡ four_of starts }
    ensures small { Starts16 starts }
{
    pack_starts(starts)
}

// The word of up to four starts, the first in the most significant bits; a field without a start is 0.
pub fn read_start_word<R: Reader>(reader: &mut R, count: usize) -> Result<u64, ReadFault>
    ensures took { Took (many (least count 4) 2 ∷ []) (R.Reader.means reader.old) (faulted result) (R.Reader.means reader.new) }
    ensures gives { Gives result (λ w. w ≡ four_of (numbers 2 (least count 4) (R.Reader.means reader.old).front.bytes)) }
    ensures small { Gives result (λ _. Starts16 (numbers 2 (least count 4) (R.Reader.means reader.old).front.bytes)) }
{
    let mut starts = [0; 4];
    read_numbers(reader, &mut starts[..count.min(4)])?;
    Ok(word_of_starts(starts))
}

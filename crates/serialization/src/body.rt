// Reading what stands behind level 0 into lent words.
ghost use Rattle.std.specs.Prelude.{◌≡◌, ◌+◌, ◌*◌, ◌≤◌, true, [], ◌∷◌, length, drop};
ghost use Rattle.packing.specs.Meaning.{kdof, len_of};
ghost use Rattle.packing.specs.Packed.{quarter};
ghost use Rattle.packing.specs.Wrote.{Wrote};
ghost use Rattle.reader.specs.Fields.{Took, Gives, faulted, many};
ghost use Rattle.reader.specs.LittleEndian.{numbers};
ghost use Rattle.serialization.specs.Bodies.{masks_in, MasksRead, start_words_in, needed_of, level1_fields, block_fields, level1_in, blocks_in, starts_in, suffice, body_fields, BodyRead};
ghost use Rattle.serialization.specs.Fieldwise.{least, Starts16};
ghost use Rattle.serialization.specs.Layout.{size, padding, starts1_end};

use crate::fields::{read_mask, read_start_word, skip_padding};
use crate::layout::Offsets;
use bit_block::config::Width;
use packing::{Numbers, words_needed};
use reader::Reader;
use reader::fault::ReadFault;

// As many masks as there is room for, each a field, into the words in order.
pub fn read_masks<R: Reader>(reader: &mut R, width: Width, out: &mut [u64]) -> Result<(), ReadFault>
    ensures took { Took (many (masks_in width (length out.old)) (size width) ∷ []) (R.Reader.means reader.old) (faulted result) (R.Reader.means reader.new) }
    ensures gives { Gives result (λ _. MasksRead width (R.Reader.means reader.old).front.bytes out.old out.new) }
{
    let k = width.bits() / 64;
    for q in 0..out.len() / k {
        let mask = read_mask(reader, width)?;
        out[q * k..q * k + k].copy_from_slice(&mask.words[..k]);
    }
    Ok(())
}

// As many of `count` starts as there is room for, each a field of two bytes, four to a word.
pub fn read_start_words<R: Reader>(
    reader: &mut R,
    count: usize,
    out: &mut [u64],
) -> Result<(), ReadFault>
    ensures took { Took (many (least count (4 * length out.old)) 2 ∷ []) (R.Reader.means reader.old) (faulted result) (R.Reader.means reader.new) }
    ensures gives { Gives result (λ _. out.new ≡ start_words_in count (R.Reader.means reader.old).front.bytes (length out.old)) }
    ensures small { Gives result (λ _. Starts16 (numbers 2 (least count (4 * length out.old)) (R.Reader.means reader.old).front.bytes)) }
{
    let mut left = count;
    for word in out.iter_mut() {
        *word = read_start_word(reader, left)?;
        left = left.saturating_sub(4);
    }
    Ok(())
}

// The level-1 masks, and the words of their starts behind them.
fn read_level1<R: Reader>(
    reader: &mut R,
    numbers: Numbers,
    words: &mut [u64],
) -> Result<(), ReadFault>
    requires { needed_of numbers ≤ length words.old }
    ensures took { Took (level1_fields numbers) (R.Reader.means reader.old) (faulted result) (R.Reader.means reader.new) }
    ensures gives { Gives result (λ _. Wrote words.old words.new 0 (level1_in numbers (R.Reader.means reader.old).front.bytes) (len_of numbers + quarter (len_of numbers))) }
    ensures small { Gives result (λ _. Starts16 (starts_in numbers (R.Reader.means reader.old).front.bytes)) }
{
    let len = numbers.level1_len();
    read_masks(reader, numbers.config.level1, &mut words[..len])?;
    read_start_words(reader, len, &mut words[len..numbers.data_start()])
}

// The blocks, behind the padding before them.
fn read_blocks<R: Reader>(
    reader: &mut R,
    numbers: Numbers,
    words: &mut [u64],
) -> Result<(), ReadFault>
    requires { needed_of numbers ≤ length words.old }
    ensures took { Took (block_fields numbers) (R.Reader.means reader.old) (faulted result) (R.Reader.means reader.new) }
    ensures gives { Gives result (λ _. Wrote words.old words.new (len_of numbers + quarter (len_of numbers)) (blocks_in numbers (drop (padding (size numbers.config.«data») (starts1_end numbers.config numbers.n)) (R.Reader.means reader.old).front.bytes)) (needed_of numbers)) }
{
    let config = numbers.config;
    let offsets = Offsets::new(config, numbers.n, numbers.d);
    skip_padding(reader, config.data, offsets.level1_starts_end)?;
    let start = numbers.data_start();
    let end = start + numbers.d as usize * numbers.data_words();
    read_masks(reader, config.data, &mut words[start..end])
}

// The fields behind level 0 of the image of a set with these numbers, into words as a set has them; words that do not
// suffice stay as they are, and nothing is read.
pub fn read_body<R: Reader>(
    reader: &mut R,
    numbers: &Numbers,
    words: &mut [u64],
) -> Result<(), ReadFault>
    ensures took { Took (body_fields numbers.now (length words.old)) (R.Reader.means reader.old) (faulted result) (R.Reader.means reader.new) }
    ensures gives { Gives result (λ _. BodyRead numbers.now (R.Reader.means reader.old).front.bytes words.old words.new) }
    ensures small { Gives result (λ _. suffice numbers.now (length words.old) ≡ true → Starts16 (starts_in numbers.now (R.Reader.means reader.old).front.bytes)) }
{
    if words.len() < words_needed(numbers.config, numbers.n, numbers.d) {
        return Ok(());
    }
    read_level1(reader, *numbers, words)?;
    read_blocks(reader, *numbers, words)
}

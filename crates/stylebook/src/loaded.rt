// Loading an image from bytes.
use crate::refusal::{Declined, Refusal};
use crate::sets::{Positions, zero_words};
use bit_block::config::Config;
use commands::options::LoadOptions;
use immutable_bitset::Blank;
use immutable_bitset::error::FillError;
use packing::most_words;
use reader::{Device, Limit, Reader};
use std::alloc::{AllocError, Global};

// A set that was loaded: its numbers and its positions.
#[derive(Drop)]
pub struct Loaded {
    pub n: u16,
    pub d: u32,
    pub positions: Positions,
}

// What loading gives: a set, or why the bytes are none, and how many bytes are then still to come.
#[derive(Drop)]
pub struct Loading {
    pub set: Result<Loaded, Refusal>,
    pub left: usize,
}

// The value of a hex digit.
fn digit_value(digit: u8) -> u8 {
    char::from(digit).to_digit(16).unwrap_or(0) as u8
}

// The bytes that hex digits give, two a byte.
pub fn bytes_of(heap: Global, digits: &[u8]) -> Result<Vec<u8>, AllocError> {
    let (pairs, _) = digits.as_chunks::<2>();
    pairs
        .iter()
        .map(|pair| digit_value(pair[0]) << 4 | digit_value(pair[1]))
        .collect(heap)
}

// Fills a blank from a reader, of which the next `limit` bytes can be read.
fn fill<R: Reader>(
    blank: &mut Blank<'_>,
    config: Config,
    reader: &mut R,
    limit: Option<usize>,
) -> Result<(), FillError> {
    match limit {
        Some(limit) => blank.deserialize(config, &mut Limit::new(reader, limit)),
        None => blank.deserialize(config, reader),
    }
}

// Fills a blank from bytes, and tells how many of them are still to come.
fn fill_from(
    blank: &mut Blank<'_>,
    config: Config,
    bytes: &[u8],
    options: LoadOptions,
) -> (Result<(), FillError>, usize) {
    match options.device {
        Some(code) => {
            let mut reader = Device::new(bytes, code);
            let filled = fill(blank, config, &mut reader, options.limit);
            (filled, reader.rest().len())
        }
        None => {
            let mut reader = bytes;
            let filled = fill(blank, config, &mut reader, options.limit);
            (filled, reader.len())
        }
    }
}

// Loads a set from bytes, into so many words, or as many as the largest set of its configuration takes.
pub fn load<'n>(
    heap: Global,
    config: Config,
    bytes: &[u8],
    options: LoadOptions,
) -> Result<Loading, Declined<'n>> {
    let mut words = zero_words(heap, options.words.unwrap_or(most_words(config)))?;
    let mut blank = Blank::new(words.as_mut_slice());
    let (filled, left) = fill_from(&mut blank, config, bytes, options);
    if let Err(error) = filled {
        return Ok(Loading {
            set: Err(Refusal::from(error)),
            left,
        });
    }
    let set = blank.finish();
    let positions = Positions::of(heap, &set)?;
    let loaded = Loaded {
        n: set.n(),
        d: set.d(),
        positions,
    };
    Ok(Loading {
        set: Ok(loaded),
        left,
    })
}

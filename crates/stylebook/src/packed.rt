// Packing a named set into a blank, and its image.
ghost use Rattle.std.specs.Prelude.{IfOk};
ghost use Rattle.stylebook.specs.Images.{PackedIn, ImageOf};

use crate::refusal::{Declined, Refusal};
use crate::sets::zero_words;
use bitset_interface::LevelMasks;
use immutable_bitset::{Blank, ImmutableBitset};
use packing::{most_words, words_needed};
use serialization::layout::Offsets;
use std::alloc::{AllocError, Global};

// What packing gives: the numbers of the set and the words that it fills.
#[derive(Drop)]
pub struct Packed {
    pub n: u16,
    pub d: u32,
    pub words: Vec<u64>,
}

// Words for a source to be packed into: so many, or as many as the largest set of its configuration takes.
fn words_for<S: LevelMasks>(
    heap: Global,
    source: &S,
    words: Option<usize>,
) -> Result<Vec<u64>, AllocError> {
    let most = source.config().map_or(0, most_words);
    zero_words(heap, words.unwrap_or(most))
}

// The set that a source packs to, in those words.
fn set_in<'w, 'n, S: LevelMasks>(
    words: &'w mut [u64],
    source: &S,
) -> Result<ImmutableBitset<'w>, Declined<'n>>
    ensures { IfOk result (λ set. PackedIn (S.LevelMasks.means source.now) set.blank.numbers words.old set.blank.words.now) }
{
    let mut blank = Blank::new(words);
    blank.materialize(source).map_err(Refusal::from)?;
    Ok(blank.finish())
}

// Packs a source into a blank of so many words, or of as many as the largest set of its configuration takes.
pub fn pack<'n, S: LevelMasks>(
    heap: Global,
    source: &S,
    words: Option<usize>,
) -> Result<Packed, Declined<'n>> {
    let mut words = words_for(heap, source, words)?;
    let set = set_in(words.as_mut_slice(), source)?;
    let (n, d) = (set.n(), set.d());
    let used = set.config().map_or(0, |config| words_needed(config, n, d));
    words.truncate(used);
    Ok(Packed { n, d, words })
}

// The image of the set that a source packs to.
pub fn image<'n, S: LevelMasks>(heap: Global, source: &S) -> Result<Vec<u8>, Declined<'n>>
    ensures { IfOk result (λ bytes. ImageOf (S.LevelMasks.means source.now) bytes.items) }
{
    let mut words = words_for(heap, source, None)?;
    let set = set_in(words.as_mut_slice(), source)?;
    let config = set.config().ok_or(Refusal::Void)?;
    let mut bytes = vec![in heap; 0u8; Offsets::new(config, set.n(), set.d()).len]?;
    set.serialize(bytes.as_mut_slice()).map_err(Refusal::from)?;
    Ok(bytes)
}

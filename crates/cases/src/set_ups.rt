// What several tests begin with: drafts and packed sets over lent words.
use bit_block::config::Config;
use bitset_interface::LevelMasks;
use draft::Draft;
use immutable_bitset::{Blank, ImmutableBitset};
use std::test::Fail;

// A small draft of the positions from..to of each range.
pub fn marked<'w, const N: usize>(
    words: &'w mut [u64],
    ranges: [(usize, usize); N],
) -> Result<Draft<'w>, Fail> {
    let mut draft = Draft::new(words, Config::SMALL);
    for (from, to) in ranges {
        draft.mark(from, to)?;
    }
    Ok(draft)
}

// A small draft of 3, 64, 70 and 4,096.
pub fn marked_four(words: &mut [u64]) -> Result<Draft<'_>, Fail> {
    marked(words, [(3, 4), (64, 65), (70, 71), (4_096, 4_097)])
}

// The set that a source packs to.
pub fn packed<'w, S: LevelMasks>(
    words: &'w mut [u64],
    source: &S,
) -> Result<ImmutableBitset<'w>, Fail> {
    let mut blank = Blank::new(words);
    blank.materialize(source)?;
    Ok(blank.finish())
}

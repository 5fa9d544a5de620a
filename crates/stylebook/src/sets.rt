// The sets that a script has named.
use crate::refusal::{Declined, Refusal};
use bit_block::config::Config;
use bitset_interface::LevelMasks;
use certificate::runs::mark_all;
use commands::error::LineError;
use draft::{Draft, DraftView, words_needed};
use std::alloc::{AllocError, Global};
use std::collections::BTreeMap;

// More words than this, one gibibyte, are refused as want of memory before any is written.
const MOST_WORDS: usize = 134_217_728;

// So many words of zero.
pub fn zero_words(heap: Global, count: usize) -> Result<Vec<u64>, AllocError> {
    if count > MOST_WORDS {
        return Err(AllocError);
    }
    vec![in heap; 0; count]
}

// Words that hold one bit a position.
#[derive(Drop)]
pub struct Positions {
    config: Config,
    words: Vec<u64>,
}

impl Positions {
    // No position, in so many words; void where they are too few.
    pub fn none(heap: Global, config: Config, count: usize) -> Result<Positions, AllocError> {
        let mut words = zero_words(heap, count)?;
        let _ = Draft::new(words.as_mut_slice(), config);
        Ok(Positions { config, words })
    }

    // The positions of a source as they are now.
    pub fn of<'n, S: LevelMasks>(heap: Global, source: &S) -> Result<Positions, Declined<'n>> {
        let config = source.config().ok_or(Refusal::Void)?;
        let mut positions = Positions::none(heap, config, words_needed(config))?;
        mark_all(source, &mut positions.open()).map_err(Refusal::from)?;
        Ok(positions)
    }

    // The positions to be read.
    pub fn view(&self) -> DraftView<'_> {
        DraftView::new(self.words.as_slice(), self.config)
    }

    // The positions to be marked and cleared.
    pub fn open(&mut self) -> Draft<'_> {
        Draft::reopen(self.words.as_mut_slice(), self.config)
    }
}

// Whether a set can still be changed.
#[derive(Clone, Copy, PartialEq, Eq, Debug)]
pub enum Kind {
    // a draft, which can
    Draft,
    // the positions that a layer had when it was made, or that a loaded set holds
    Layer,
}

// What a name stands for.
#[derive(Drop)]
struct NamedSet {
    kind: Kind,
    positions: Positions,
}

// The sets by their names, and the memory that they are kept in.
#[derive(Drop)]
pub struct Sets {
    pub heap: Global,
    by_name: BTreeMap<String, NamedSet>,
}

impl Sets {
    // No set yet.
    pub fn new(heap: Global) -> Sets {
        Sets {
            heap,
            by_name: BTreeMap::new(heap),
        }
    }

    // The set of a name, to be read.
    pub fn view<'n>(&self, name: &'n str) -> Result<DraftView<'_>, LineError<'n>> {
        let set = self.by_name.get(name).ok_or(LineError::NoSuchSet(name))?;
        Ok(set.positions.view())
    }

    // The draft of a name, to be changed.
    pub fn draft<'n>(&mut self, name: &'n str) -> Result<Draft<'_>, LineError<'n>> {
        let set = self
            .by_name
            .get_mut(name)
            .ok_or(LineError::NoSuchSet(name))?;
        match set.kind {
            Kind::Draft => Ok(set.positions.open()),
            Kind::Layer => Err(LineError::NotDraft(name)),
        }
    }

    // Puts positions under a name, in place of what the name stood for.
    pub fn put(&mut self, name: &str, kind: Kind, positions: Positions) -> Result<(), AllocError> {
        let key = String::from_str(self.heap, name)?;
        self.by_name.insert(key, NamedSet { kind, positions })?;
        Ok(())
    }
}

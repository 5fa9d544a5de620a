// A draft: one bit a position in lent words, to be marked and cleared while a style is still being set.
#![tactic(auto)]

ghost use Rattle.std.specs.Prelude.{◌≡◌, ℕ, ◌+◌, ◌*◌, ◌/◌, ◌%◌, ◌^◌, ◌<◌, ◌≤◌, Bool, true, false, ◌&&◌, length, if◌then◌else◌, nat_le, nat_lt, slice_index};
ghost use Rattle.bit_block.specs.Bit.{bit_of};
ghost use Rattle.bit_block.specs.Raised.{raised};
ghost use Rattle.bit_block.specs.Widths.{bits, capacity};
ghost use Rattle.bitset_interface.specs.Source.{Source, Lawful, holds};
ghost use Rattle.draft.specs.Drafts.{stored, draft_words, fitting, draft, draft_lawful, cleared, Spanned, Sets, good_range};
ghost use Rattle.bitset_interface.specs.Refusals.{unless};
ghost use Rattle.draft.specs.Refusals.{refusal, bad_range, no_words};

use bit_block::config::{Config, Width};
use bit_block::mask::Mask;
use bitset_interface::LevelMasks;
use bitset_interface::spread::{every_level0, every_level1};
use bitset_interface::walk::capacity_of;
use std::convert::AsSlice;

// Why a draft declines a call.
#[derive(Clone, Copy, PartialEq, Eq, Debug)]
pub enum DraftError {
    // from exceeds to, or to exceeds the capacity
    BadRange,
    // fewer words than the draft takes
    NoWords,
}

// How many words a draft of a configuration takes: one bit a position.
pub fn words_needed(config: Config) -> usize
    ensures { result ≡ draft_words config }
{
    config.capacity() / 64
}

// A draft over lent words, one bit a position. Over fewer words than it takes it is void.
#[derive(Clone, Copy, Drop)]
pub struct DraftOver<W> {
    config: Config,
    words: W,
}

// A draft that is only read.
pub type DraftView<'a> = DraftOver<&'a [u64]>;

// A draft that is marked and cleared.
pub type Draft<'a> = DraftOver<&'a mut [u64]>;

impl<W: AsSlice<u64>> LevelMasks for DraftOver<W> {
    ghost means = { λ s. draft s.config (W.AsSlice.items s.words) };

    ghost lawful = { λ s. draft_lawful s.config (W.AsSlice.items s.words) };

    #[inline(always)]
    fn config(&self) -> Option<Config> {
        let there = self.words.as_slice().len();
        (words_needed(self.config) <= there).then_some(self.config)
    }

    fn trusted(&self) -> bool {
        false
    }

    fn level0_mask(&self) -> Mask {
        every_level0(self.config())
    }

    fn level1_mask(&self, i: usize) -> Mask {
        every_level1(self.config(), i)
    }

    #[inline(always)]
    fn data_mask(&self, i: usize, j: usize) -> Mask {
        let Some(c) = self.config() else {
            return Mask::zero();
        };
        if i < c.level0.bits() && j < c.level1.bits() {
            let at = (i * c.level1.bits() + j) * (c.data.bits() / 64);
            Mask::from_words(self.words.as_slice(), at, c.data)
        } else {
            Mask::zero()
        }
    }
}

impl<W: AsSlice<u64>> DraftOver<W> {
    // The draft that the words are already; nothing is written.
    pub fn reopen(words: W, config: Config) -> DraftOver<W>
        ensures words { result.words ≡ words }
        ensures config { result.config ≡ config }
        ensures held { (p : ℕ) → holds (draft config (W.AsSlice.items words)) p ≡ (nat_lt p (capacity (fitting config (length (W.AsSlice.items words)))) && stored (W.AsSlice.items words) p) }
    {
        DraftOver { config, words }
    }
}

impl<'a> DraftView<'a> {
    // The draft that the words are: it holds the positions below its capacity whose bits are set in them.
    pub fn new(words: &'a [u64], config: Config) -> DraftView<'a>
        ensures words { result.words.now ≡ words.now }
        ensures config { result.config ≡ config }
        ensures held { (p : ℕ) → holds (draft result.config result.words.now) p ≡ (nat_lt p (capacity (fitting config (length words.now))) && stored words.now p) }
    {
        DraftOver::reopen(words, config) // read only
    }
}

// The word whose bits below n are raised.
fn low_bits(n: usize) -> u64
    ensures { (k : ℕ) → k < 64 → bit_of result k ≡ nat_lt k n }
{
    if n < 64 { (1 << n) - 1 } else { u64::MAX }
}

// The part of from..to that lies in word w.
fn span(w: usize, from: usize, to: usize) -> u64
    requires { w * 64 < 2 ^ 64 }
    ensures { (k : ℕ) → k < 64 → bit_of result k ≡ (nat_le from (w * 64 + k) && nat_lt (w * 64 + k) to) }
{
    let low = low_bits(from.saturating_sub(w * 64));
    let high = low_bits(to.saturating_sub(w * 64));
    high & !low
}

// The word with the bits that `part` raises set to `on`. It is the value that the bits get, and the contract needs that
// value: a closure for each of the two would have to be given it as well.
fn splice(word: u64, part: u64, on: bool) -> u64
    ensures { (k : ℕ) → k < 64 → bit_of result k ≡ (if bit_of part k then on else bit_of word k) }
{
    if on { word | part } else { word & !part }
}

// Sets the bits of from..to, word by word.
fn write_span(words: &mut [u64], from: usize, to: usize, on: bool)
    requires within { to ≤ length words.old * 64 }
    requires small { to < 2 ^ 32 }
    requires order { from ≤ to }
    ensures { Spanned on from to words.old words.new }
{
    let first = from / 64;
    let last = to.div_ceil(64);
    for (q, word) in words[first..last].iter_mut().enumerate() {
        *word = splice(*word, span(first + q, from, to), on);
    }
}

impl<'a> Draft<'a> {
    ghost use Rattle.draft.specs.Puts.{Puts};

    // Whether so many words are enough for a draft.
    pub fn check(words: usize, config: Config) -> Result<(), DraftError>
        ensures { refusal result ≡ unless (nat_le (draft_words config) words) no_words }
    {
        if words < words_needed(config) {
            Err(DraftError::NoWords)
        } else {
            Ok(())
        }
    }

    // A new draft, with no position marked. Over too few words it is void, and no word is written.
    pub fn new(words: &'a mut [u64], config: Config) -> Draft<'a>
        ensures words { result.words.now ≡ cleared config words.old }
        ensures config { result.config ≡ config }
        ensures lender { result.words.ghost_name ≡ words.entry.ghost_name }
    {
        let n = words_needed(config);
        if n <= words.len() {
            words[0..n].fill(0);
        }
        DraftOver::reopen(words, config)
    }

    // The draft to be read.
    pub fn view(&self) -> DraftView<'_>
        ensures words { result.words.now ≡ self.now.words.now }
        ensures config { result.config ≡ self.now.config }
    {
        DraftView::new(self.words, self.config)
    }

    // Sets the bits of from..to, where that is a range of the draft. The two stay numbers: each clause takes them apart.
    fn put(&mut self, from: usize, to: usize, on: bool) -> Result<(), DraftError>
        ensures { Puts on from to self.old result self.new }
    {
        let end = capacity_of(&self.view());
        if from > to || to > end {
            return Err(DraftError::BadRange);
        }
        write_span(self.words, from, to, on);
        Ok(())
    }

    // Marks the positions from..to.
    pub fn mark(&mut self, from: usize, to: usize) -> Result<(), DraftError>
        ensures { Puts true from to self.old result self.new }
    {
        self.put(from, to, true)
    }

    // Clears the positions from..to.
    pub fn clear(&mut self, from: usize, to: usize) -> Result<(), DraftError>
        ensures { Puts false from to self.old result self.new }
    {
        self.put(from, to, false)
    }
}

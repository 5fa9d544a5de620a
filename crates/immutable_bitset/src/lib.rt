// Packed sets over lent words: a blank is filled, a finished set is read.
#![tactic(auto)]

mod deserialize;
pub mod error;
mod fill;
mod loaded;
mod lookup;
mod serialize;

ghost use Rattle.std.specs.Prelude.{◌≡◌, ℕ, None, MatchOption};
ghost use Rattle.std.specs.Option.{ForSome};
ghost use Rattle.bit_block.specs.Raised.{raised};
ghost use Rattle.packing.specs.Meaning.{Sound};
ghost use Rattle.packing.specs.Views.{set_source, set_lawful};

use crate::lookup::Filled;
use bit_block::config::Config;
use bit_block::mask::Mask;
use bitset_interface::LevelMasks;
use packing::Numbers;

// Lent words, to be filled with a packed set, and the numbers of the set that they hold; none where nothing is filled in.
// Its type carries that the numbers and the words keep the rules of a set.
#[derive(Drop)]
pub struct Blank<'a> {
    words: &'a mut [u64],
    numbers: Option<Numbers>,
    ghost sound: { ForSome numbers (λ m. Sound m words.now) },
}

// A finished blank: it is read, and filled no more. Void where nothing was filled in. Its type carries the same rules, so lookups test nothing.
#[derive(Drop)]
pub struct ImmutableBitset<'a> {
    blank: Blank<'a>,
}

impl<'a> Blank<'a> {
    // An unfilled blank.
    pub fn new(words: &'a mut [u64]) -> Blank<'a>
        ensures words { result.words.now ≡ words.old }
        ensures lender { result.words.ghost_name ≡ words.entry.ghost_name }
        ensures filled { result.numbers ≡ None }
    {
        Blank {
            words,
            numbers: None, // nothing is written yet
        }
    }

    // The set that was filled in; a void, empty set where nothing was.
    pub fn finish(self) -> ImmutableBitset<'a>
        ensures words { result.blank.words.now ≡ self.entry.words.now }
        ensures lender { result.blank.words.ghost_name ≡ self.entry.words.ghost_name }
        ensures numbers { result.blank.numbers ≡ self.entry.numbers }
    {
        ImmutableBitset { blank: self }
    }

    // The set that is filled in.
    fn filled(&self) -> Option<Filled<'_>>
        ensures { MatchOption result (self.now.numbers ≡ None) (λ set. (self.now.numbers ≡ Some set.numbers.now) × (set.words.now ≡ self.now.words.now)) }
    {
        let numbers = self.numbers.as_ref()?;
        Some(Filled::new(self.words, numbers))
    }
}

impl<'a> ImmutableBitset<'a> {
    // The words again, as an unfilled blank.
    pub fn release(self) -> Blank<'a>
        ensures words { result.words.now ≡ self.entry.blank.words.now }
        ensures lender { result.words.ghost_name ≡ self.entry.blank.words.ghost_name }
        ensures filled { result.numbers ≡ None }
    {
        let ImmutableBitset { mut blank } = self;
        blank.numbers = None; // what it held is given up
        blank
    }

    // How many level-1 masks are stored.
    pub fn n(&self) -> u16
        ensures { MatchOption self.now.blank.numbers (result ≡ 0) (λ m. result ≡ m.n) }
    {
        self.blank.numbers.map_or(0, |numbers| numbers.n)
    }

    // How many data blocks are stored.
    pub fn d(&self) -> u32
        ensures { MatchOption self.now.blank.numbers (result ≡ 0) (λ m. result ≡ m.d) }
    {
        self.blank.numbers.map_or(0, |numbers| numbers.d)
    }
}

impl LevelMasks for ImmutableBitset<'_> {
    ghost means = { λ s. set_source s.blank.numbers s.blank.words.now };

    ghost lawful = { λ s. set_lawful s.blank.numbers s.blank.words.now (λ m e. (s.blank.sound m e).wide) (λ m e. (s.blank.sound m e).rows_held) (λ m e. (s.blank.sound m e).blocks_held) };

    fn config(&self) -> Option<Config> {
        self.blank.numbers.map(|numbers| numbers.config)
    }

    fn trusted(&self) -> bool {
        self.blank.numbers.is_some()
    }

    fn level0_mask(&self) -> Mask {
        self.blank
            .numbers
            .map_or(Mask::zero(), |numbers| numbers.level0)
    }

    fn level1_mask(&self, i: usize) -> Mask {
        self.blank
            .filled()
            .map_or(Mask::zero(), |set| set.level1_mask(i))
    }

    fn data_mask(&self, i: usize, j: usize) -> Mask {
        self.blank
            .filled()
            .map_or(Mask::zero(), |set| set.data_mask(i, j))
    }
}

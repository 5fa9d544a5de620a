// The packed form of a set: its numbers, and the walk over a source that finds what is stored.
#![tactic(auto)]

pub mod start_words;

ghost use Rattle.std.specs.Prelude.{◌≡◌, ℕ, ◌+◌, ◌*◌, ◌/◌, slice_index};
ghost use Rattle.bit_block.specs.Raised.{raised};
ghost use Rattle.bit_block.specs.Widths.{bits};
ghost use Rattle.packing.specs.Packed.{held, quarter, needed};
ghost use Rattle.packing.specs.Measures.{Measured, NumbersFound};
ghost use Rattle.packing.specs.Meaning.{k1of, kdof, len_of};
ghost use Rattle.packing.specs.Starts0.{start0};

use bit_block::config::{Config, Width};
use bit_block::mask::Mask;
use bitset_interface::LevelMasks;
use std::array;

// The numbers of a packed set, beside its words: n counts the level-1 masks, d the data blocks, and `starts` has for
// each word of the level-0 mask the raised bits in the words before it; eight of them, as an image has them.
#[derive(Clone, Copy)]
pub struct Numbers {
    pub config: Config,
    pub level0: Mask,
    pub starts: [u8; 8],
    pub n: u16,
    pub d: u32,
}

impl Numbers {
    // How many words a level-1 mask has.
    pub fn level1_words(self) -> usize
        ensures { result ≡ k1of self }
    {
        self.config.level1.bits() / 64
    }

    // How many words a data block has.
    pub fn data_words(self) -> usize
        ensures { result ≡ kdof self }
    {
        self.config.data.bits() / 64
    }

    // How many level-1 words there are.
    pub fn level1_len(self) -> usize
        ensures { result ≡ len_of self }
    {
        self.n as usize * self.level1_words()
    }

    // The place where the data words begin, behind the level-1 words and their starts.
    pub fn data_start(self) -> usize
        ensures { result ≡ len_of self + quarter (len_of self) }
    {
        let len = self.level1_len();
        len + start_words_len(len)
    }
}

// What a walk over a source finds: which rows hold something, which blocks of each row do, and how many. A place for each
// row there may be: this crate has no heap.
#[derive(Clone, Copy)]
pub struct Found {
    pub level0: Mask,
    pub rows: [Mask; 256],
    pub n: u16,
    pub d: u32,
}

impl Found {
    // The numbers of a set of that configuration in which this was found.
    pub fn numbers(&self, config: Config) -> Numbers
        ensures { NumbersFound self.now config result }
    {
        Numbers {
            config,
            level0: self.level0,
            starts: level0_starts(self.level0, config.level0),
            n: self.n,
            d: self.d,
        }
    }
}

// How many words the starts of so many words take.
pub fn start_words_len(len: usize) -> usize
    ensures { result ≡ quarter len }
{
    len.div_ceil(4)
}

// How many words n level-1 masks, their starts and d blocks take.
pub fn words_needed(config: Config, n: u16, d: u32) -> usize
    ensures { result ≡ needed (bits config.level1 / 64) (bits config.«data» / 64) n d }
{
    let len = n as usize * (config.level1.bits() / 64);
    len + start_words_len(len) + d as usize * (config.data.bits() / 64)
}

// How many words the largest set of a configuration takes.
pub fn most_words(config: Config) -> usize
    ensures { result ≡ needed (bits config.level1 / 64) (bits config.«data» / 64) (bits config.level0) (bits config.level0 * bits config.level1) }
{
    let rows = config.level0.bits();
    words_needed(config, rows as u16, (rows * config.level1.bits()) as u32)
}

// The start of word q of a level-0 mask, 0 past its width.
fn level0_start(level0: Mask, width: Width, q: usize) -> u8
    ensures { result ≡ start0 (raised level0) (bits width) q }
{
    if q < width.bits() / 64 {
        level0.rank(q * 64) as u8
    } else {
        0
    }
}

// The starts of the words of a level-0 mask, 0 past its width.
pub fn level0_starts(level0: Mask, width: Width) -> [u8; 8]
    ensures { (q : ℕ) → slice_index result q ≡ start0 (raised level0) (bits width) q }
{
    array::from_fn(|q| level0_start(level0, width, q))
}

// Which blocks of row i hold something, each tested.
fn tested_row<S: LevelMasks>(s: &S, i: usize) -> Mask
    ensures { (t : ℕ) → raised result t ≡ held (S.LevelMasks.means s.now) i t }
{
    let mut row = Mask::zero();
    for j in s.level1_mask(i).ones() {
        if !s.data_mask(i, j).is_zero() {
            row = row.set_bit(j);
        }
    }
    row
}

// Which blocks of row i hold something. A trusted source's mask says so.
fn row_of<S: LevelMasks>(s: &S, i: usize) -> Mask
    ensures { (t : ℕ) → raised result t ≡ held (S.LevelMasks.means s.now) i t }
{
    if s.trusted() {
        s.level1_mask(i)
    } else {
        tested_row(s, i)
    }
}

// One walk over the source.
pub fn measure<S: LevelMasks>(s: &S) -> Found
    ensures { Measured (held (S.LevelMasks.means s.now)) result }
{
    let mut level0 = Mask::zero();
    let mut rows = [Mask::zero(); 256];
    let mut d = 0;
    for i in s.level0_mask().ones() {
        let row = row_of(s, i);
        rows[i] = row;
        d += row.count_ones() as u32;
        if !row.is_zero() {
            level0 = level0.set_bit(i);
        }
    }
    Found {
        level0,
        rows,
        n: level0.count_ones() as u16,
        d,
    }
}

// Lookups in packed words, by rank. What they require is what a set's type carries.
ghost use Rattle.std.specs.Prelude.{◌≡◌, ℕ, ◌+◌, ◌/◌, ◌^◌, ◌<◌, ◌≤◌, true, length, take, slice_index, IfSome, if◌then◌else◌, Some, None};
ghost use Rattle.bit_block.specs.Raised.{raised};
ghost use Rattle.bit_block.specs.Ranges.{count};
ghost use Rattle.bit_block.specs.Widths.{bits};
ghost use Rattle.packing.specs.Packed.{before};
ghost use Rattle.packing.specs.Meaning.{Sound, kdof, len_of, word_place, held_at, block_place, bit_from, up_at};

use bit_block::config::Width;
use bit_block::mask::{Mask, low_ones};
use packing::Numbers;
use packing::start_words::start_in;

// A packed set: the words that hold it, and its numbers. Its type carries that both keep the rules of a set.
#[derive(Clone, Copy)]
pub(crate) struct Filled<'a> {
    words: &'a [u64],
    numbers: &'a Numbers,
    ghost fits: { (t : ℕ) → slice_index words.now t < 2 ^ 64 },
    ghost sound: { Sound numbers.now words.now },
}

impl<'a> Filled<'a> {
    // The set of those words and numbers.
    pub(crate) fn new(words: &'a [u64], numbers: &'a Numbers) -> Filled<'a>
        requires { Sound numbers.now words.now }
        ensures words { result.words.now ≡ words.now }
        ensures numbers { result.numbers.now ≡ numbers.now }
    {
        Filled { words, numbers }
    }

    // The mask whose words stand from place `at` on.
    fn read_mask(&self, at: usize, width: Width) -> Mask
        requires { at + bits width / 64 ≤ length self.now.words.now }
        ensures { (t : ℕ) → raised result t ≡ bit_from self.now.words.now at (bits width / 64) t }
    {
        let words = self.words;
        match width {
            Width::W64 => Mask {
                words: [words[at], 0, 0, 0],
            },
            Width::W128 => Mask {
                words: [words[at], words[at + 1], 0, 0],
            },
            Width::W256 => Mask {
                words: [words[at], words[at + 1], words[at + 2], words[at + 3]],
            },
        }
    }

    // The rank of row i: its word's start and the raised bits below it.
    fn row_rank(&self, i: usize) -> usize
        requires { raised self.now.numbers.now.level0 i ≡ true }
        ensures { result ≡ count (raised self.now.numbers.now.level0) i }
    {
        let numbers = self.numbers;
        numbers.starts[i / 64] as usize + low_ones(numbers.level0.words[i / 64], i % 64)
    }

    // The place of the level-1 word that has bit j of row i.
    fn word_place(&self, i: usize, j: usize) -> usize
        requires row { raised self.now.numbers.now.level0 i ≡ true }
        requires wide { j < bits self.now.numbers.now.config.level1 }
        ensures is { result ≡ word_place self.now.numbers.now i j }
        ensures within { result < len_of self.now.numbers.now }
    {
        self.row_rank(i) * self.numbers.level1_words() + j / 64
    }

    // The start of level-1 word m.
    fn start_at(&self, m: usize) -> usize
        requires { m < len_of self.now.numbers.now }
        ensures is { result ≡ before (take (len_of self.now.numbers.now) self.now.words.now) m }
        ensures small { result < 65536 }
    {
        let word = self.words[self.numbers.level1_len() + m / 4];
        usize::from(start_in(word, m))
    }

    // The place of the words of block (i, j), where it is stored.
    fn place_of(&self, i: usize, j: usize) -> Option<usize>
        ensures fits { IfSome result (λ at. at + kdof self.now.numbers.now ≤ length self.now.words.now) }
        ensures is { result ≡ (if held_at self.now.numbers.now self.now.words.now i j then Some (block_place self.now.numbers.now self.now.words.now i j) else None) }
    {
        let numbers = self.numbers;
        if !numbers.level0.get_bit(i) {
            return None;
        }
        if j >= numbers.config.level1.bits() {
            return None;
        }
        let m = self.word_place(i, j);
        let word = self.words[m];
        if (word >> (j % 64)) & 1 != 1 {
            return None;
        }
        let rank = self.start_at(m) + low_ones(word, j % 64);
        Some(numbers.data_start() + rank * numbers.data_words())
    }

    // The blocks that row i stores.
    pub(crate) fn level1_mask(&self, i: usize) -> Mask
        ensures { (t : ℕ) → raised result t ≡ held_at self.now.numbers.now self.now.words.now i t }
    {
        if !self.numbers.level0.get_bit(i) {
            return Mask::zero();
        }
        let at = self.word_place(i, 0);
        self.read_mask(at, self.numbers.config.level1)
    }

    // Block (i, j).
    pub(crate) fn data_mask(&self, i: usize, j: usize) -> Mask
        ensures { (t : ℕ) → raised result t ≡ up_at self.now.numbers.now self.now.words.now i j t }
    {
        match self.place_of(i, j) {
            Some(at) => self.read_mask(at, self.numbers.config.data),
            None => Mask::zero(),
        }
    }
}

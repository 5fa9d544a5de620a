// Filling a blank with what a source holds.
ghost use Rattle.std.specs.Prelude.{◌≡◌, ℕ, ◌+◌, ◌*◌, ◌<◌, ◌≤◌, Bool, length, take, is_ok, is_some};
ghost use Rattle.bit_block.specs.Raised.{raised};
ghost use Rattle.bit_block.specs.Ranges.{count};
ghost use Rattle.packing.specs.Gathered.{words_of};
ghost use Rattle.packing.specs.Packed.{held, chosen, data_words, before, start, four, quarter, start_words};
ghost use Rattle.packing.specs.Fills.{all_words};
ghost use Rattle.packing.specs.Wrote.{Wrote};
ghost use Rattle.packing.specs.Measures.{Measured};
ghost use Rattle.packing.specs.Packs.{Alike, NumbersOf, WordsOf};
ghost use Rattle.immutable_bitset.specs.Refusals.{refusal, unpacked};
ghost use Rattle.immutable_bitset.specs.Fillings.{HaveBits, Packs};

use crate::Blank;
use crate::error::FillError;
use bit_block::mask::Mask;
use bitset_interface::LevelMasks;
use packing::start_words::pack_starts;
use packing::{Found, Numbers, measure, start_words_len, words_needed};

// Writes the first k words of a mask from place `at` on, and answers the place after them. k stays a number, as the
// definitions have it.
fn put_mask(words: &mut [u64], at: usize, mask: Mask, k: usize) -> usize
    requires small { k ≤ 4 }
    requires fits { at + k ≤ length words.old }
    ensures { Wrote words.old words.new at (words_of k (raised mask)) result }
{
    words[at..at + k].copy_from_slice(&mask.words[..k]);
    at + k
}

// Writes the first k words of the masks that `mask_of` gives for the raised bits of `which`, in order, from place `at` on,
// and answers the place after them.
fn put_masks<F: Fn(usize) -> Mask>(
    words: &mut [u64],
    at: usize,
    which: Mask,
    k: usize,
    mask_of: F,
) -> usize
    requires small { k ≤ 4 }
    requires fits { at + count (raised which) 256 * k ≤ length words.old }
    requires callable { (i : ℕ) → i < 256 → F.pre mask_of i }
    ensures { (bits : ℕ → ℕ → Bool) → HaveBits (raised which) (F.post mask_of) bits → Wrote words.old words.new at (chosen k (raised which) bits 256) result }
{
    let mut next = at;
    for i in which.ones() {
        next = put_mask(words, next, mask_of(i), k);
    }
    next
}

// The start of word m, 0 past the last, where `sum` raised bits stand before it; and how many stand before the next.
fn next_start(level1: &[u64], m: usize, sum: u32) -> (u16, u32)
    requires few { length level1.now ≤ 1024 }
    requires sum { sum ≡ before level1.now m }
    requires near { m ≤ 2048 }
    ensures start { result.0 ≡ start level1.now m }
    ensures next { result.1 ≡ before level1.now (m + 1) }
{
    match level1.get(m) {
        Some(word) => (sum as u16, sum + word.count_ones()),
        None => (0, sum),
    }
}

// The word of the four starts from word m on; and how many raised bits stand before word m + 4.
fn start_word(level1: &[u64], m: usize, sum: u32) -> (u64, u32)
    requires few { length level1.now ≤ 1024 }
    requires here { m < length level1.now }
    requires sum { sum ≡ before level1.now m }
    ensures word { result.0 ≡ four level1.now m }
    ensures next { result.1 ≡ before level1.now (m + 4) }
{
    let (a, sum) = next_start(level1, m, sum);
    let (b, sum) = next_start(level1, m + 1, sum);
    let (c, sum) = next_start(level1, m + 2, sum);
    let (d, sum) = next_start(level1, m + 3, sum);
    (pack_starts([a, b, c, d]), sum)
}

// Writes the starts of the first `len` words behind them.
fn put_starts(words: &mut [u64], len: usize) -> usize
    requires few { len ≤ 1024 }
    requires fits { len + quarter len ≤ length words.old }
    ensures { Wrote words.old words.new len (start_words (take len words.old)) result }
{
    let mut sum = 0;
    let count = start_words_len(len);
    // one slice, written behind `len` and read before it: cut in two, it would have two names, and `Wrote` is of the whole
    for q in 0..count {
        let (word, next) = start_word(&words[..len], 4 * q, sum);
        words[len + q] = word;
        sum = next;
    }
    len + count
}

// Writes the blocks that were found in s, k words to a block, and answers the place after them.
fn put_data<S: LevelMasks>(words: &mut [u64], at: usize, s: &S, found: &Found, k: usize) -> usize
    requires small { k ≤ 4 }
    requires measured { Measured (held (S.LevelMasks.means s.now)) found.now }
    requires fits { at + found.now.d * k ≤ length words.old }
    ensures { Wrote words.old words.new at (data_words k (S.LevelMasks.means s.now)) result }
{
    let mut next = at;
    for i in found.level0.ones() {
        next = put_masks(words, next, found.rows[i], k, |j| s.data_mask(i, j));
    }
    next
}

// Writes the words of a set of those numbers, where they were found in s.
fn put_all<S: LevelMasks>(words: &mut [u64], s: &S, found: &Found, numbers: Numbers)
    requires numbers { NumbersOf (S.LevelMasks.means s.now) numbers }
    requires measured { Measured (held (S.LevelMasks.means s.now)) found.now }
    requires fits { all_words (S.LevelMasks.means s.now) ≤ length words.old }
    ensures { WordsOf (S.LevelMasks.means s.now) words.old words.new }
{
    let len = put_masks(
        words,
        0,
        found.level0,
        numbers.level1_words(),
        |i| found.rows[i],
    );
    let at = put_starts(words, len);
    put_data(words, at, s, found, numbers.data_words());
}

impl Blank<'_> {
    // Fills the words with what the source holds. Refused, it leaves the words as they were; the blank is then unfilled.
    pub fn materialize<S: LevelMasks>(&mut self, source: &S) -> Result<(), FillError>
        ensures refused { refusal result ≡ unpacked (S.LevelMasks.means source.now) (length self.old.words.now) }
        ensures filled { is_some self.new.numbers ≡ is_ok result }
        ensures packs { Packs (S.LevelMasks.means source.now) self.new.numbers self.old.words.now self.new.words.now }
        ensures alike { Alike (S.LevelMasks.means source.now) }
        ensures lender { self.new.words.ghost_name ≡ self.old.words.ghost_name }
    {
        self.numbers = None;
        let config = source.config().ok_or(FillError::Void)?;
        let found = measure(source);
        let all = words_needed(config, found.n, found.d);
        if all > self.words.len() {
            return Err(FillError::NoMemory(all));
        }
        let numbers = found.numbers(config);
        let words = &mut *self.words;
        put_all(words, source, &found, numbers);
        self.numbers = Some(numbers);
        Ok(())
    }
}

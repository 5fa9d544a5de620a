// A mask of up to 256 bits: an array of words that is passed and returned by value, four of them whatever the width, since
// this crate has no heap.
ghost use Rattle.std.specs.Prelude.{◌≡◌, ℕ, ◌+◌, ◌*◌, ◌/◌, ◌%◌, ◌^◌, ◌<◌, ◌≤◌, Bool, true, false, not, ◌&&◌, ◌||◌, ◌==◌, nat_lt, slice_index, length, sum_by, count_ones, position, drop};
ghost use Rattle.bit_block.specs.Bit.{bit_of, exclusive, Least};
ghost use Rattle.bit_block.specs.Ranges.{count};
ghost use Rattle.bit_block.specs.Raised.{raised};
ghost use Rattle.bit_block.specs.Widths.{bits};

use crate::config::Width;
use crate::ones::Ones;
use std::array;

#[derive(Clone, Copy)]
pub struct Mask {
    pub words: [u64; 4],
}

// How many bits of a word below bit k are raised; all of them where k is 64 or more.
pub fn low_ones(word: u64, k: usize) -> usize
    ensures { result ≡ count (bit_of word) k }
{
    if k < 64 {
        (word & ((1 << k) - 1)).count_ones() as usize
    } else {
        word.count_ones() as usize
    }
}

// How many bits of some words are raised.
fn ones_in(words: &[u64]) -> usize
    requires { length words.now ≤ 4 }
    ensures { result ≡ sum_by count_ones words.now }
{
    words.iter().map(|word| word.count_ones()).sum::<u32>() as usize
}

// What stands in a slice from a place on: nothing past the slice's end.
fn onward(words: &[u64], at: usize) -> &[u64]
    ensures { result.now ≡ drop at words.now }
{
    words.get(at..).unwrap_or(&[])
}

// How far behind a place the first word stands that is not 0.
fn first_word(words: &[u64], from: usize) -> Option<usize>
    ensures { result ≡ position (λ word. not (word == 0)) (drop from words.now) }
{
    onward(words, from).iter().position(|word| *word != 0)
}

impl Mask {
    // No bit.
    pub fn zero() -> Mask
        ensures { (t : ℕ) → raised result t ≡ false }
    {
        Mask { words: [0; 4] }
    }

    // Every bit below the width.
    #[inline(always)]
    pub fn full(width: Width) -> Mask
        ensures { (t : ℕ) → raised result t ≡ nat_lt t (bits width) }
    {
        let count = width.bits() / 64;
        Mask {
            words: array::from_fn(|q| if q < count { u64::MAX } else { 0 }),
        }
    }

    // The mask whose words are the first of a slice; a word past the slice's end is 0.
    fn of_first(there: &[u64], width: Width) -> Mask
        ensures { (t : ℕ) → raised result t ≡ (nat_lt t (bits width) && bit_of (slice_index there.now (t / 64)) (t % 64)) }
    {
        let count = there.len().min(width.bits() / 64);
        Mask {
            words: array::from_fn(|q| if q < count { there[q] } else { 0 }),
        }
    }

    // The mask whose words stand in a slice from place `at` on; a word past the slice's end is 0.
    #[inline(always)]
    pub fn from_words(words: &[u64], at: usize, width: Width) -> Mask
        ensures { (t : ℕ) → raised result t ≡ (nat_lt t (bits width) && bit_of (slice_index words.now (at + t / 64)) (t % 64)) }
    {
        match (width, onward(words, at)) {
            (Width::W64, [a, ..]) => Mask {
                words: [*a, 0, 0, 0],
            },
            (Width::W128, [a, b, ..]) => Mask {
                words: [*a, *b, 0, 0],
            },
            (Width::W256, [a, b, c, d, ..]) => Mask {
                words: [*a, *b, *c, *d],
            },
            (_, there) => Mask::of_first(there, width), // some are missing
        }
    }

    // Whether bit t is raised.
    pub fn get_bit(self, t: usize) -> bool
        ensures { result ≡ raised self t }
    {
        t < 256 && (self.words[t / 64] >> (t % 64)) & 1 == 1
    }

    // The mask with bit t raised as well; the same mask where t is 256 or more.
    pub fn set_bit(self, t: usize) -> Mask
        ensures { (u : ℕ) → raised result u ≡ ((u == t && nat_lt t 256) || raised self u) }
    {
        if t >= 256 {
            return self;
        }
        let mut words = self.words;
        words[t / 64] |= 1 << (t % 64);
        Mask { words }
    }

    // The mask whose words are those of two masks, joined word by word.
    #[inline(always)]
    fn zip<F: Fn(u64, u64) -> u64>(self, other: Mask, join: F) -> Mask
        requires { F.IsAlwaysCallable join }
        ensures { (q : ℕ) → q < 4 → F.post join (slice_index self.words q) (slice_index other.words q) (slice_index result.words q) }
    {
        Mask {
            words: array::from_fn(|q| join(self.words[q], other.words[q])),
        }
    }

    // The bits in both.
    #[inline(always)]
    pub fn and(self, other: Mask) -> Mask
        ensures { (t : ℕ) → raised result t ≡ (raised self t && raised other t) }
    {
        self.zip(other, |a, b| a & b)
    }

    // The bits in at least one.
    #[inline(always)]
    pub fn or(self, other: Mask) -> Mask
        ensures { (t : ℕ) → raised result t ≡ (raised self t || raised other t) }
    {
        self.zip(other, |a, b| a | b)
    }

    // The bits in just one of the two.
    #[inline(always)]
    pub fn xor(self, other: Mask) -> Mask
        ensures { (t : ℕ) → raised result t ≡ exclusive (raised self t) (raised other t) }
    {
        self.zip(other, |a, b| a ^ b)
    }

    // The bits in the first only.
    #[inline(always)]
    pub fn without(self, other: Mask) -> Mask
        ensures { (t : ℕ) → raised result t ≡ (raised self t && not (raised other t)) }
    {
        self.zip(other, |a, b| a & !b)
    }

    // Whether no bit is raised.
    #[inline(always)]
    pub fn is_zero(self) -> bool
        ensures none { result ≡ true → (t : ℕ) → raised self t ≡ false }
        ensures some { result ≡ false → (t : ℕ) × (raised self t ≡ true) }
    {
        self.first_from(0).is_none()
    }

    // How many bits are raised.
    pub fn count_ones(self) -> usize
        ensures { result ≡ count (raised self) 256 }
    {
        ones_in(&self.words)
    }

    // How many bits strictly below t are raised; all of them where t is 256 or more.
    pub fn rank(self, t: usize) -> usize
        ensures { result ≡ count (raised self) t }
    {
        if t >= 256 {
            return self.count_ones();
        }
        ones_in(&self.words[..t / 64]) + low_ones(self.words[t / 64], t % 64)
    }

    // The least raised bit at or above k.
    pub fn first_from(self, k: usize) -> Option<usize>
        ensures { Least (raised self) k result }
    {
        let at = k / 64;
        let rest = self.words.get(at)? >> (k % 64);
        if rest != 0 {
            return Some(k + rest.trailing_zeros() as usize);
        }
        let next = at + 1;
        let w = next + first_word(&self.words, next)?;
        Some(w * 64 + self.words[w].trailing_zeros() as usize)
    }

    // The raised bits at or above k, in order.
    pub fn ones_from(self, k: usize) -> Ones
        ensures mask { result.mask ≡ self }
        ensures at { result.at ≡ k }
    {
        Ones { mask: self, at: k }
    }

    // The raised bits, in order.
    pub fn ones(self) -> Ones
        ensures mask { result.mask ≡ self }
        ensures at { result.at ≡ 0 }
    {
        self.ones_from(0)
    }
}

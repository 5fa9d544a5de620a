// What was read into words, part by part.
ghost use Rattle.std.specs.Prelude.{◌≡◌, ℕ, ◌^◌, ◌<◌, ◌≤◌, length, slice_index};
ghost use Rattle.serialization.specs.Bodies.{needed_of};
ghost use Rattle.serialization.specs.Stored.{stored};

use bit_block::config::Config;
use bit_block::mask::Mask;
use packing::Numbers;
use packing::start_words::start_in;
use vetting::Parts;

// Numbers, and as many words as a set of these numbers needs, of which no rule is known yet.
#[derive(Clone, Copy)]
pub(crate) struct Loaded<'a> {
    numbers: &'a Numbers,
    words: &'a [u64],
    ghost fits: { (t : ℕ) → slice_index words.now t < 2 ^ 64 },
    ghost all: { needed_of numbers.now ≤ length words.now },
}

impl<'a> Loaded<'a> {
    // These numbers and these words.
    pub(crate) fn new(numbers: &'a Numbers, words: &'a [u64]) -> Loaded<'a>
        requires { needed_of numbers.now ≤ length words.now }
        ensures numbers { result.numbers.now ≡ numbers.now }
        ensures words { result.words.now ≡ words.now }
    {
        Loaded { numbers, words }
    }
}

impl Parts for Loaded<'_> {
    ghost conf = { λ s. s.numbers.now.config };

    ghost parts = { λ s. stored s.numbers.now s.words.now };

    fn config(&self) -> Config {
        self.numbers.config
    }

    fn n(&self) -> u16 {
        self.numbers.n
    }

    fn d(&self) -> u32 {
        self.numbers.d
    }

    fn level0(&self) -> Mask {
        Mask::from_words(&self.numbers.level0.words, 0, self.numbers.config.level0)
    }

    fn level0_start(&self, q: usize) -> u8 {
        self.numbers.starts.get(q).copied().unwrap_or(0)
    }

    fn level1_word(&self, m: usize) -> u64 {
        if m < self.numbers.level1_len() {
            self.words[m]
        } else {
            0
        }
    }

    fn level1_start(&self, m: usize) -> u16 {
        let len = self.numbers.level1_len();
        if m < len {
            start_in(self.words[len + m / 4], m)
        } else {
            0
        }
    }

    fn data_word(&self, w: usize) -> u64 {
        let numbers = self.numbers;
        if w < numbers.d as usize * numbers.data_words() {
            self.words[numbers.data_start() + w]
        } else {
            0
        }
    }
}

// Writing an image into lent bytes.
ghost use Rattle.std.specs.Prelude.{◌≡◌, ◌+◌, ◌*◌, ◌≤◌, [], ◌∷◌, ◌++◌, length, take, drop, replicate, is_some, IsSome, IfSome, ◌↔◌, if◌then◌else◌, Some, None};
ghost use Rattle.packing.specs.Gathered.{gather};
ghost use Rattle.packing.specs.Meaning.{k1of, kdof, len_of};
ghost use Rattle.packing.specs.Packed.{needed, quarter};
ghost use Rattle.reader.specs.LittleEndian.{bytes as bytes_of, laid};
ghost use Rattle.serialization.specs.Image.{version, level0_part, level1_part, data_part};
ghost use Rattle.serialization.specs.Layout.{size, padding, header_size, starts0_end, starts1_end};
ghost use Rattle.serialization.specs.Stored.{field_at, stored};
ghost use Rattle.serialization.specs.Writing.{writable, length_of, Puts, Written, image_of};

use crate::fields::FORMAT_VERSION;
use crate::layout::{Offsets, padding_for};
use bit_block::config::Width;
use packing::start_words::start_in;
use packing::{Numbers, words_needed};
use reader::little_endian::LittleEndian;

// The numbers of a set, with all the words that they declare.
#[derive(Clone, Copy)]
struct Packed<'a> {
    numbers: Numbers,
    words: &'a [u64],
    ghost all: { needed (k1of numbers) (kdof numbers) numbers.n numbers.d ≤ length words.now },
}

impl<'a> Packed<'a> {
    // The set, where the words are all there.
    fn new(numbers: Numbers, words: &'a [u64]) -> Option<Packed<'a>>
        ensures there { IsSome result ↔ (needed (k1of numbers) (kdof numbers) numbers.n numbers.d ≤ length words.now) }
        ensures parts { IfSome result (λ set. (set.numbers ≡ numbers) × (set.words.now ≡ words.now)) }
    {
        if words.len() < words_needed(numbers.config, numbers.n, numbers.d) {
            return None;
        }
        Some(Packed { numbers, words })
    }

    // The words of the level-1 masks.
    fn mask_words(&self) -> &'a [u64]
        ensures is { result.now ≡ take (len_of self.now.numbers) self.now.words.now }
        ensures long { length result.now ≡ len_of self.now.numbers }
    {
        &self.words[..self.numbers.level1_len()]
    }

    // The words behind those: first their starts, four to a word.
    fn start_words(&self) -> &'a [u64]
        ensures { result.now ≡ drop (len_of self.now.numbers) self.now.words.now }
    {
        &self.words[self.numbers.level1_len()..]
    }

    // The words of the blocks.
    fn block_words(&self) -> &'a [u64]
        ensures long { length result.now ≡ self.now.numbers.d * kdof self.now.numbers }
        ensures is { result.now ≡ take (self.now.numbers.d * kdof self.now.numbers) (drop (len_of self.now.numbers + quarter (len_of self.now.numbers)) self.now.words.now) }
    {
        let start = self.numbers.data_start();
        let count = self.numbers.d as usize * self.numbers.data_words();
        &self.words[start..start + count]
    }
}

// Lent bytes that are written from their start up to a place.
#[derive(Drop)]
struct Cursor<'a> {
    buffer: &'a mut [u8],
    at: usize,
}

impl Cursor<'_> {
    // Writes bytes.
    fn put_bytes(&mut self, bytes: &[u8])
        requires { self.old.at + length bytes.now ≤ length self.old.buffer.now }
        ensures { Puts self.old self.new bytes.now }
    {
        let end = self.at + bytes.len();
        self.buffer[self.at..end].copy_from_slice(bytes);
        self.at = end;
    }

    // Writes a number.
    fn put_number<const N: usize, T: LittleEndian<N>>(&mut self, number: T)
        requires { self.old.at + N ≤ length self.old.buffer.now }
        ensures { Puts self.old self.new (bytes_of N (T.number number)) }
    {
        self.put_bytes(&number.to_le_bytes());
    }

    // Writes the zeros up to the next multiple of a mask's size.
    fn put_padding(&mut self, width: Width)
        requires { self.old.at + padding (size width) self.old.at ≤ length self.old.buffer.now }
        ensures { Puts self.old self.new (replicate (padding (size width) self.old.at) 0) }
    {
        let zeros = [0; 32]; // as many as the widest mask has: no heap
        self.put_bytes(&zeros[..padding_for(width, self.at)]);
    }

    // Writes words.
    fn put_words(&mut self, words: &[u64])
        requires { self.old.at + length words.now * 8 ≤ length self.old.buffer.now }
        ensures { Puts self.old self.new (laid 8 words.now) }
    {
        for word in words {
            self.put_number(*word);
        }
    }

    // Writes so many of the starts that stand four to a word.
    fn put_starts(&mut self, words: &[u64], count: usize)
        requires all { count ≤ 4 * length words.now }
        requires fits { self.old.at + count * 2 ≤ length self.old.buffer.now }
        ensures { Puts self.old self.new (laid 2 (gather (λ q. field_at words.now q ∷ []) count)) }
    {
        // q is both the place of the word and that of the start in it
        for q in 0..count {
            self.put_number(start_in(words[q / 4], q));
        }
    }

    // Writes the version, n and d.
    fn put_header(&mut self, n: u16, d: u32)
        requires { self.old.at + 8 ≤ length self.old.buffer.now }
        ensures { Puts self.old self.new (bytes_of 2 version ++ bytes_of 2 n ++ bytes_of 4 d) }
    {
        self.put_number(FORMAT_VERSION);
        self.put_number(n);
        self.put_number(d);
    }

    // Writes level 0 behind the header: padding, the mask and its starts.
    fn put_level0(&mut self, numbers: Numbers)
        requires place { self.old.at ≡ header_size }
        requires fits { starts0_end numbers.config ≤ length self.old.buffer.now }
        ensures puts { Puts self.old self.new (level0_part numbers.config (stored numbers [])) }
        ensures end { self.new.at ≡ starts0_end numbers.config }
    {
        self.put_padding(numbers.config.level0);
        let top = numbers.config.level0.bits() / 64;
        self.put_words(&numbers.level0.words[..top]);
        self.put_bytes(&numbers.starts);
    }

    // Writes level 1 from the end of level 0 on: padding, the masks, and one start for each of their words.
    fn put_level1(&mut self, set: &Packed)
        requires place { self.old.at ≡ starts0_end set.now.numbers.config }
        requires fits { starts1_end set.now.numbers.config set.now.numbers.n ≤ length self.old.buffer.now }
        ensures puts { Puts self.old self.new (level1_part set.now.numbers.config (stored set.now.numbers set.now.words.now)) }
        ensures end { self.new.at ≡ starts1_end set.now.numbers.config set.now.numbers.n }
    {
        self.put_padding(set.numbers.config.level1);
        self.put_words(set.mask_words());
        self.put_starts(set.start_words(), set.numbers.level1_len());
    }

    // Writes the blocks from the end of level 1 on, behind padding.
    fn put_blocks(&mut self, set: &Packed)
        requires place { self.old.at ≡ starts1_end set.now.numbers.config set.now.numbers.n }
        requires fits { length_of set.now.numbers ≤ length self.old.buffer.now }
        ensures puts { Puts self.old self.new (data_part set.now.numbers.config (stored set.now.numbers set.now.words.now)) }
        ensures end { self.new.at ≡ length_of set.now.numbers }
    {
        self.put_padding(set.numbers.config.data);
        self.put_words(set.block_words());
    }
}

// Writes the image of a set of these numbers and words from the buffer's start, and answers its length; none, and nothing
// written, where the words are fewer than the numbers declare or the image does not fit.
pub fn write_image(buffer: &mut [u8], numbers: &Numbers, words: &[u64]) -> Option<usize>
    ensures answer { result ≡ (if writable numbers.now words.now (length buffer.old) then Some (length_of numbers.now) else None) }
    ensures wrote { Written (is_some result) (image_of numbers.now words.now) (length_of numbers.now) buffer.old buffer.new }
{
    let set = Packed::new(*numbers, words)?;
    let offsets = Offsets::new(numbers.config, numbers.n, numbers.d);
    if buffer.len() < offsets.len {
        return None;
    }
    let mut cursor = Cursor { buffer, at: 0 };
    cursor.put_header(numbers.n, numbers.d);
    cursor.put_level0(*numbers);
    cursor.put_level1(&set);
    cursor.put_blocks(&set);
    Some(cursor.at)
}

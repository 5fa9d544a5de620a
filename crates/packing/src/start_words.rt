// Starts as they stand in a set's words: four to a word, the first in the most significant bits.
ghost use Rattle.std.specs.Prelude.{◌≡◌};
ghost use Rattle.packing.specs.StartWords.{four_of, field_in};

// The word of four starts.
pub fn pack_starts(starts: [u16; 4]) -> u64
    ensures { result ≡ four_of starts }
{
    let [a, b, c, d] = starts.map(u64::from);
    ((a * 65536 + b) * 65536 + c) * 65536 + d
}

// Start m, from the word that has it.
pub fn start_in(word: u64, m: usize) -> u16
    ensures { result ≡ field_in word m }
{
    ((word >> (48 - 16 * (m % 4))) & 65535) as u16
}

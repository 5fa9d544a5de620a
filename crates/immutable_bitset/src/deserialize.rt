// Loading an image into lent words.
ghost use Rattle.std.specs.Prelude.{◌≡◌, length, is_ok, is_some};
ghost use Rattle.packing.specs.Meaning.{Sound};
ghost use Rattle.reader.specs.Fields.{Gives};
ghost use Rattle.reader.specs.Streams.{after};
ghost use Rattle.vetting.specs.Outcomes.{outcome};
ghost use Rattle.immutable_bitset.specs.Loads.{LoadedAs, Loads};
ghost use Rattle.immutable_bitset.specs.Refusals.{refusal};

use crate::Blank;
use crate::error::FillError;
use crate::loaded::Loaded;
use bit_block::config::Config;
use packing::{Numbers, words_needed};
use reader::Reader;
use serialization::body::read_body;
use serialization::fields::{read_header, read_top};
use vetting::rules::vet;

// Reads an image into the words, and tests its rules; refused, it may leave anything in them.
fn load<R: Reader>(config: Config, reader: &mut R, words: &mut [u64]) -> Result<Numbers, FillError>
    ensures refused { refusal result ≡ (outcome config (length words.old) (R.Reader.means reader.old)).refusal }
    ensures left { R.Reader.means reader.new ≡ after (outcome config (length words.old) (R.Reader.means reader.old)).taken (R.Reader.means reader.old) }
    ensures loads { Gives result (λ m. LoadedAs config (R.Reader.means reader.old).front.bytes m words.old words.new) }
    ensures sound { Gives result (λ m. Sound m words.new) }
{
    let header = read_header(reader)?;
    let all = words_needed(config, header.n, header.d);
    if words.len() < all {
        return Err(FillError::NoMemory(all));
    }
    let numbers = read_top(reader, config, header)?;
    read_body(reader, &numbers, words)?;
    vet(&Loaded::new(&numbers, words))?;
    Ok(numbers)
}

impl Blank<'_> {
    // Fills the words with the set whose image the reader gives. Refused, it leaves each word 0 and the blank unfilled, and the
    // reader behind the last field that was read whole.
    pub fn deserialize<R: Reader>(
        &mut self,
        config: Config,
        reader: &mut R,
    ) -> Result<(), FillError>
        ensures refused { refusal result ≡ (outcome config (length self.old.words.now) (R.Reader.means reader.old)).refusal }
        ensures left { R.Reader.means reader.new ≡ after (outcome config (length self.old.words.now) (R.Reader.means reader.old)).taken (R.Reader.means reader.old) }
        ensures filled { is_some self.new.numbers ≡ is_ok result }
        ensures loads { Loads config (R.Reader.means reader.old).front.bytes self.new.numbers self.old.words.now self.new.words.now }
        ensures lender { self.new.words.ghost_name ≡ self.old.words.ghost_name }
    {
        self.numbers = None;
        let words = &mut *self.words;
        match load(config, reader, words) {
            Ok(numbers) => {
                self.numbers = Some(numbers);
                Ok(())
            }
            Err(error) => {
                words.fill(0); // nothing of the image stays
                Err(error)
            }
        }
    }
}

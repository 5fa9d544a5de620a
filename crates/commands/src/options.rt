// The options of a command that loads: words, a limit and a device's code, each behind its key.
ghost use Rattle.std.specs.Prelude.{◌≡◌, ◌≢◌, ◌++◌, List, ℕ, MatchOption, MatchResult, codes};
ghost use Rattle.commands.specs.declared.options.LoadOptions.{LoadOptions};
ghost use Rattle.commands.specs.Options.{Adds, AddsWords, AddsLimit, AddsDevice, SpellsOptions, no_options};

use crate::error::LineError;
use crate::operand;

// How the bytes of an image are read.
#[derive(Clone, Copy, PartialEq, Eq, Debug)]
pub struct LoadOptions {
    // the words that are lent
    pub words: Option<usize>,
    // how many bytes can be read
    pub limit: Option<usize>,
    // the code of the device's fault behind them
    pub device: Option<u16>,
}

impl LoadOptions {
    // Nothing is asked for.
    pub const NONE: LoadOptions = LoadOptions {
        words: None,
        limit: None,
        device: None,
    };

    // These options with the one that a word gives.
    fn with<'a>(self, word: &'a [u8]) -> Result<LoadOptions, LineError<'a>>
        ensures { MatchResult result (Adds self word.now) (λ _. (o : LoadOptions) → Adds self word.now o → ⊥) }
    {
        if let Some(digits) = behind(b"words=", word) {
            return self.with_words(word, digits);
        }
        if let Some(digits) = behind(b"limit=", word) {
            return self.with_limit(word, digits);
        }
        match behind(b"device=", word) {
            Some(digits) => self.with_device(word, digits),
            None => Err(LineError::UnknownOption(word)),
        }
    }

    // These options with a number of words.
    fn with_words<'a>(self, word: &'a [u8], digits: &'a [u8]) -> Result<LoadOptions, LineError<'a>>
        ensures { MatchResult result (AddsWords self digits.now) (λ _. (o : LoadOptions) → AddsWords self digits.now o → ⊥) }
    {
        match self.words {
            Some(_) => Err(LineError::OptionTwice(word)),
            None => Ok(LoadOptions {
                words: Some(operand::number(digits)?),
                ..self
            }),
        }
    }

    // These options with a limit.
    fn with_limit<'a>(self, word: &'a [u8], digits: &'a [u8]) -> Result<LoadOptions, LineError<'a>>
        ensures { MatchResult result (AddsLimit self digits.now) (λ _. (o : LoadOptions) → AddsLimit self digits.now o → ⊥) }
    {
        match self.limit {
            Some(_) => Err(LineError::OptionTwice(word)),
            None => Ok(LoadOptions {
                limit: Some(operand::number(digits)?),
                ..self
            }),
        }
    }

    // These options with a device's code.
    fn with_device<'a>(self, word: &'a [u8], digits: &'a [u8]) -> Result<LoadOptions, LineError<'a>>
        ensures { MatchResult result (AddsDevice self digits.now) (λ _. (o : LoadOptions) → AddsDevice self digits.now o → ⊥) }
    {
        match self.device {
            Some(_) => Err(LineError::OptionTwice(word)),
            None => Ok(LoadOptions {
                device: Some(operand::code(digits)?),
                ..self
            }),
        }
    }
}

// What stands behind a key in a word that begins with it.
fn behind<'a>(key: &[u8], word: &'a [u8]) -> Option<&'a [u8]>
    ensures { MatchOption result ((rest : List ℕ) → word.now ≢ key.now ++ rest) (λ rest. word.now ≡ key.now ++ rest.now) }
{
    word.strip_prefix(key)
}

// The options that words give on top of others. No option is given twice, so this goes three words deep at most.
pub fn more_options<'a>(
    options: LoadOptions,
    words: &[&'a [u8]],
) -> Result<LoadOptions, LineError<'a>>
    ensures { MatchResult result (SpellsOptions options words.now) (λ _. (o : LoadOptions) → SpellsOptions options words.now o → ⊥) }
{
    match words {
        [] => Ok(options),
        [word, rest @ ..] => more_options(options.with(word)?, rest),
    }
}

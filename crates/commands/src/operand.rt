// The operands of commands: numbers, names, files, configurations and bytes.
ghost use Rattle.std.specs.Prelude.{◌≡◌, ◌^◌, ◌<◌, MatchBool, MatchOption, MatchResult, ◌≢◌, IsUtf8, ℕ, List};
ghost use Rattle.std.specs.Result.{OkIff};
ghost use Rattle.commands.specs.Operands.{Decimal, decimal_value, Name, width_text, config_text, Spells, Hex, HexDigits};

use crate::error::LineError;
use bit_block::config::{Config, Width};

// Whether a word is one or more decimal digits.
fn is_decimal(word: &[u8]) -> bool
    ensures { MatchBool result (Decimal word.now) (Decimal word.now → ⊥) }
{
    !word.is_empty() && word.iter().all(|b| b.is_ascii_digit())
}

// A decimal number of at most 64 bits. Inlined, as an error is large to hand on.
#[inline(always)]
pub fn number<'a>(word: &'a [u8]) -> Result<usize, LineError<'a>>
    ensures { OkIff result (Decimal word.now × (decimal_value word.now < 2 ^ 64)) (decimal_value word.now) }
{
    if !is_decimal(word) {
        return Err(LineError::NotNumber(word));
    }
    let digits = std::str::from_utf8(word).unwrap();
    let Ok(value) = digits.parse() else {
        return Err(LineError::NumberTooLarge(word));
    };
    Ok(value)
}

// A decimal number of at most 16 bits.
pub fn code<'a>(word: &'a [u8]) -> Result<u16, LineError<'a>>
    ensures { OkIff result (Decimal word.now × (decimal_value word.now < 2 ^ 16)) (decimal_value word.now) }
{
    let code = number(word).map_err(|_| LineError::NotCode(word))?;
    u16::try_from(code).map_err(|_| LineError::NotCode(word))
}

// Whether a word is one or more letters, digits, hyphens and underscores.
fn is_name(word: &[u8]) -> bool
    ensures { MatchBool result (Name word.now) (Name word.now → ⊥) }
{
    !word.is_empty()
        && word
            .iter()
            .all(|b| b.is_ascii_alphanumeric() || matches!(b, b'-' | b'_'))
}

// The name of a set. Inlined, as an error is large to hand on.
#[inline(always)]
pub fn name<'a>(word: &'a [u8]) -> Result<&'a str, LineError<'a>>
    ensures { MatchResult result (λ s. (s.now ≡ word.now) × Name word.now) (λ _. Name word.now → ⊥) }
{
    if !is_name(word) {
        return Err(LineError::NotName(word));
    }
    Ok(std::str::from_utf8(word).unwrap())
}

// The path of a file: any word that is text.
pub fn file<'a>(word: &'a [u8]) -> Result<&'a str, LineError<'a>>
    ensures { MatchResult result (λ s. (s.now ≡ word.now) × IsUtf8 word.now) (λ _. IsUtf8 word.now → ⊥) }
{
    std::str::from_utf8(word).map_err(|_| LineError::NotText(word))
}

// The width that a word spells.
fn width(word: &[u8]) -> Option<Width>
    ensures { MatchOption result ((w : Width) → word.now ≢ width_text w) (λ w. word.now ≡ width_text w) }
{
    match word {
        b"64" => Some(Width::W64),
        b"128" => Some(Width::W128),
        b"256" => Some(Width::W256),
        _ => None,
    }
}

// The configuration that three widths with slashes between them are.
fn three_widths(text: &[u8]) -> Option<Config>
    ensures { MatchOption result ((c : Config) → text.now ≢ config_text c) (λ c. text.now ≡ config_text c) }
{
    let mut parts = text.split(|b| *b == b'/');
    let level0 = width(parts.next()?)?;
    let level1 = width(parts.next()?)?;
    let data = width(parts.next()?)?;
    parts.next().is_none().then_some(Config {
        level0,
        level1,
        data,
    })
}

// A configuration, by its name or by its three widths.
pub fn config<'a>(word: &'a [u8]) -> Result<Config, LineError<'a>>
    ensures { MatchResult result (λ c. Spells word.now c) (λ _. (c : Config) → Spells word.now c → ⊥) }
{
    match word {
        b"small" => Ok(Config::SMALL),
        b"book" => Ok(Config::BOOK),
        b"large" => Ok(Config::LARGE),
        _ => three_widths(word).ok_or(LineError::NotConfig(word)),
    }
}

// Whether a word is one or more bytes of two hex digits each.
fn is_hex(word: &[u8]) -> bool
    ensures { MatchBool result (Hex word.now) (Hex word.now → ⊥) }
{
    !word.is_empty() && word.len() % 2 == 0 && word.iter().all(|b| b.is_ascii_hexdigit())
}

// The hex digits of bytes, two a byte; a hyphen stands for none.
pub fn hex<'a>(word: &'a [u8]) -> Result<&'a [u8], LineError<'a>>
    ensures { MatchResult result (λ digits. HexDigits word.now digits.now) (λ _. (digits : List ℕ) → HexDigits word.now digits → ⊥) }
{
    match word {
        b"-" => Ok(&[]),
        _ if is_hex(word) => Ok(word),
        _ => Err(LineError::NotBytes(word)),
    }
}

// A line of a script as a command.
ghost use Rattle.std.specs.Prelude.{IfErr, IfOk, MatchResult};
ghost use Rattle.commands.specs.Commands.{SpellsCommand, SpellsDraft, SpellsPack, SpellsLayer, SpellsWrite, SpellsLoad, SpellsRead};

use crate::error::LineError;
use crate::operand;
use crate::options::{LoadOptions, more_options};
use crate::verb::{Layer, Rule, Verb};
use bit_block::config::Config;

// The positions from..to of a named set.
#[derive(Clone, Copy)]
pub struct Span<'a> {
    pub name: &'a str,
    pub from: usize,
    pub to: usize,
}

impl<'a> TryFrom<[&'a [u8]; 3]> for Span<'a> {
    ghost use Rattle.commands.specs.declared.command.Span.{Span};
    ghost use Rattle.commands.specs.Commands.{SpellsSpan};

    type Error = LineError<'a>;

    ghost try_from_gives = { λ words r. MatchResult r (SpellsSpan words) (λ _. (s : Span) → SpellsSpan words s → ⊥) };

    // A name and two numbers. Inlined, as an error is large to hand on.
    #[inline(always)]
    fn try_from([name, from, to]: [&'a [u8]; 3]) -> Result<Span<'a>, LineError<'a>> {
        Ok(Span {
            name: operand::name(name)?,
            from: operand::number(from)?,
            to: operand::number(to)?,
        })
    }
}

// A position of a named set.
#[derive(Clone, Copy)]
pub struct Place<'a> {
    pub name: &'a str,
    pub position: usize,
}

impl<'a> TryFrom<[&'a [u8]; 2]> for Place<'a> {
    ghost use Rattle.commands.specs.declared.command.Place.{Place};
    ghost use Rattle.commands.specs.Commands.{SpellsPlace};

    type Error = LineError<'a>;

    ghost try_from_gives = { λ words r. MatchResult r (SpellsPlace words) (λ _. (s : Place) → SpellsPlace words s → ⊥) };

    // A name and a number. Inlined, as an error is large to hand on.
    #[inline(always)]
    fn try_from([name, position]: [&'a [u8]; 2]) -> Result<Place<'a>, LineError<'a>> {
        Ok(Place {
            name: operand::name(name)?,
            position: operand::number(position)?,
        })
    }
}

// Two named sets.
#[derive(Clone, Copy)]
pub struct Pair<'a> {
    pub first: &'a str,
    pub second: &'a str,
}

impl<'a> TryFrom<[&'a [u8]; 2]> for Pair<'a> {
    ghost use Rattle.commands.specs.declared.command.Pair.{Pair};
    ghost use Rattle.commands.specs.Commands.{SpellsPair};

    type Error = LineError<'a>;

    ghost try_from_gives = { λ words r. MatchResult r (SpellsPair words) (λ _. (s : Pair) → SpellsPair words s → ⊥) };

    // Two names. Inlined, as an error is large to hand on.
    #[inline(always)]
    fn try_from([first, second]: [&'a [u8]; 2]) -> Result<Pair<'a>, LineError<'a>> {
        Ok(Pair {
            first: operand::name(first)?,
            second: operand::name(second)?,
        })
    }
}

// A command with its operands.
#[derive(Clone, Copy)]
pub enum Command<'a> {
    Draft {
        name: &'a str,
        config: Config,
        words: Option<usize>,
    },
    Mark(Span<'a>),
    Clear(Span<'a>),
    Layer {
        layer: Layer,
        name: &'a str,
        over: Pair<'a>,
    },
    Has(Place<'a>),
    Next(Place<'a>),
    Runs(&'a str),
    Count(&'a str),
    Pack {
        name: &'a str,
        words: Option<usize>,
    },
    Words(&'a str),
    Image(&'a str),
    Write {
        name: &'a str,
        file: &'a str,
    },
    // the image in bytes, by their hex digits, is loaded
    Load {
        name: &'a str,
        config: Config,
        bytes: &'a [u8],
        options: LoadOptions,
    },
    // or the one in a file
    Read {
        name: &'a str,
        config: Config,
        file: &'a str,
    },
    Check(Rule, Pair<'a>),
}

// The command of a word and its operands.
pub fn parse<'a>(word: &'a [u8], operands: &[&'a [u8]]) -> Result<Command<'a>, LineError<'a>>
    ensures ok { IfOk result (SpellsCommand word.now operands.now) }
    ensures err { IfErr result (λ _. (c : Command) → SpellsCommand word.now operands.now c → ⊥) }
{
    match (Verb::try_from(word)?, operands) {
        (Verb::Draft, &[name, config]) => parse_draft(name, config, None),
        (Verb::Draft, &[name, config, words]) => parse_draft(name, config, Some(words)),
        (Verb::Mark, &[name, from, to]) => Ok(Command::Mark(Span::try_from([name, from, to])?)),
        (Verb::Clear, &[name, from, to]) => Ok(Command::Clear(Span::try_from([name, from, to])?)),
        (Verb::Layer(layer), &[name, first, second]) => parse_layer(layer, name, [first, second]),
        (Verb::Has, &[name, position]) => Ok(Command::Has(Place::try_from([name, position])?)),
        (Verb::Next, &[name, position]) => Ok(Command::Next(Place::try_from([name, position])?)),
        (Verb::Runs, &[name]) => Ok(Command::Runs(operand::name(name)?)),
        (Verb::Count, &[name]) => Ok(Command::Count(operand::name(name)?)),
        (Verb::Pack, &[name]) => parse_pack(name, None),
        (Verb::Pack, &[name, words]) => parse_pack(name, Some(words)),
        (Verb::Words, &[name]) => Ok(Command::Words(operand::name(name)?)),
        (Verb::Image, &[name]) => Ok(Command::Image(operand::name(name)?)),
        (Verb::Write, &[name, file]) => parse_write(name, file),
        (Verb::Load, &[name, config, bytes, ref options @ ..]) => {
            parse_load(name, config, bytes, options)
        }
        (Verb::Read, &[name, config, file]) => parse_read(name, config, file),
        (Verb::Check(rule), &[first, second]) => {
            Ok(Command::Check(rule, Pair::try_from([first, second])?))
        }
        (verb, _) => Err(LineError::WordCount(verb)),
    }
}

// The command that makes a draft.
fn parse_draft<'a>(
    name: &'a [u8],
    config: &'a [u8],
    words: Option<&'a [u8]>,
) -> Result<Command<'a>, LineError<'a>>
    ensures ok { IfOk result (SpellsDraft name.entry config.entry words.entry) }
    ensures err { IfErr result (λ _. (c : Command) → SpellsDraft name.entry config.entry words.entry c → ⊥) }
{
    Ok(Command::Draft {
        name: operand::name(name)?,
        config: operand::config(config)?,
        words: words.map(operand::number).transpose()?,
    })
}

// The command that packs a set.
fn parse_pack<'a>(name: &'a [u8], words: Option<&'a [u8]>) -> Result<Command<'a>, LineError<'a>>
    ensures ok { IfOk result (SpellsPack name.entry words.entry) }
    ensures err { IfErr result (λ _. (c : Command) → SpellsPack name.entry words.entry c → ⊥) }
{
    Ok(Command::Pack {
        name: operand::name(name)?,
        words: words.map(operand::number).transpose()?,
    })
}

// The command that writes the image of a set into a file.
fn parse_write<'a>(name: &'a [u8], file: &'a [u8]) -> Result<Command<'a>, LineError<'a>>
    ensures ok { IfOk result (SpellsWrite name.entry file.entry) }
    ensures err { IfErr result (λ _. (c : Command) → SpellsWrite name.entry file.entry c → ⊥) }
{
    Ok(Command::Write {
        name: operand::name(name)?,
        file: operand::file(file)?,
    })
}

// The command that loads an image from bytes.
fn parse_load<'a>(
    name: &'a [u8],
    config: &'a [u8],
    bytes: &'a [u8],
    options: &[&'a [u8]],
) -> Result<Command<'a>, LineError<'a>>
    ensures ok { IfOk result (SpellsLoad name.entry config.entry bytes.entry options.now) }
    ensures err { IfErr result (λ _. (c : Command) → SpellsLoad name.entry config.entry bytes.entry options.now c → ⊥) }
{
    Ok(Command::Load {
        name: operand::name(name)?,
        config: operand::config(config)?,
        bytes: operand::hex(bytes)?,
        options: more_options(LoadOptions::NONE, options)?,
    })
}

// The command that loads an image from a file.
fn parse_read<'a>(
    name: &'a [u8],
    config: &'a [u8],
    path: &'a [u8],
) -> Result<Command<'a>, LineError<'a>>
    ensures ok { IfOk result (SpellsRead name.entry config.entry path.entry) }
    ensures err { IfErr result (λ _. (c : Command) → SpellsRead name.entry config.entry path.entry c → ⊥) }
{
    Ok(Command::Read {
        name: operand::name(name)?,
        config: operand::config(config)?,
        file: operand::file(path)?,
    })
}

// The command that lays one set over another.
fn parse_layer<'a>(
    layer: Layer,
    name: &'a [u8],
    over: [&'a [u8]; 2],
) -> Result<Command<'a>, LineError<'a>>
    ensures ok { IfOk result (SpellsLayer layer name.entry over.entry) }
    ensures err { IfErr result (λ _. (c : Command) → SpellsLayer layer name.entry over.entry c → ⊥) }
{
    Ok(Command::Layer {
        layer,
        name: operand::name(name)?,
        over: Pair::try_from(over)?,
    })
}

// Carrying out a command, and the text of its answer.
ghost use Rattle.std.specs.Prelude.{◌≡◌, IfOk};
ghost use Rattle.bitset_interface.specs.Source.{holds};
ghost use Rattle.certificate.specs.Faults.{fault};
ghost use Rattle.stylebook.specs.Listed.{AllRuns};
ghost use Rattle.stylebook.specs.Verdicts.{condition_of, Verdict};

use crate::loaded::{Loading, bytes_of, load};
use crate::packed::{Packed, image, pack};
use crate::refusal::{Declined, Refusal};
use crate::sets::{Kind, Positions, Sets};
use bit_block::config::Config;
use bitset_interface::LevelMasks;
use bitset_interface::walk::{contains, next_from};
use certificate::conditions::{Condition, comparable, faults_of};
use certificate::runs::{Run, count_held, runs_of};
use commands::command::{Command, Pair, Span};
use commands::error::LineError;
use commands::options::LoadOptions;
use commands::verb::{Layer, Rule};
use draft::{Draft, DraftView, words_needed};
use ops::{both_of, either_of, first_without, just_one_of};
use std::alloc::{AllocError, Global};
use std::rt::Files;
use std::{fmt, fs, io};

// What a command answers.
#[derive(Drop)]
pub enum Answer {
    Done,
    Refused(Refusal),
    Held(bool),
    Position(Option<usize>),
    Runs(Vec<Run>),
    Count(usize),
    // a packed set, of which the numbers are told, and how many words it fills
    Packed(Packed),
    // the words that a packed set fills
    Words(Vec<u64>),
    // the bytes of an image
    Image(Vec<u8>),
    // how many bytes were written into a file
    Wrote(usize),
    // the numbers of a set that was loaded, and how many bytes are still to come
    Loaded { n: u16, d: u32, left: usize },
    // why none was loaded, and how many bytes are still to come
    NotLoaded(Refusal, usize),
    // the runs at fault under a rule
    Faults(Rule, Vec<Run>),
}

// Carries out a command. A refusal of the library is an answer.
pub fn respond<'a>(
    files: &(impl Files + Alloc),
    sets: &mut Sets,
    command: Command<'a>,
) -> Result<Answer, LineError<'a>> {
    carry_out(files, sets, command).or_else(|declined| match declined {
        Declined::Refused(refusal) => Ok(Answer::Refused(refusal)),
        Declined::BadLine(error) => Err(error),
    })
}

// Carries out a command.
fn carry_out<'a>(
    files: &(impl Files + Alloc),
    sets: &mut Sets,
    command: Command<'a>,
) -> Result<Answer, Declined<'a>> {
    let heap = sets.heap;
    match command {
        Command::Draft {
            name,
            config,
            words,
        } => new_draft(sets, name, config, words),
        Command::Mark(Span { name, from, to }) => {
            sets.draft(name)?.mark(from, to).map_err(Refusal::from)?;
            Ok(Answer::Done)
        }
        Command::Clear(Span { name, from, to }) => {
            sets.draft(name)?.clear(from, to).map_err(Refusal::from)?;
            Ok(Answer::Done)
        }
        Command::Layer { layer, name, over } => new_layer(sets, layer, name, over),
        Command::Has(at) => Ok(Answer::Held(contains(&sets.view(at.name)?, at.position))),
        Command::Next(at) => Ok(Answer::Position(next_from(&sets.view(at.name)?, at.position))),
        Command::Runs(name) => Ok(Answer::Runs(runs(heap, &sets.view(name)?)?)),
        Command::Count(name) => Ok(Answer::Count(count_held(&sets.view(name)?))),
        Command::Pack { name, words } => {
            Ok(Answer::Packed(pack(heap, &sets.view(name)?, words)?))
        }
        Command::Words(name) => Ok(Answer::Words(pack(heap, &sets.view(name)?, None)?.words)),
        Command::Image(name) => Ok(Answer::Image(image(heap, &sets.view(name)?)?)),
        Command::Write { name, file } => {
            write_file(files, file, image(heap, &sets.view(name)?)?.as_slice())
        }
        Command::Load {
            name,
            config,
            bytes,
            options,
        } => new_loaded(
            sets,
            name,
            config,
            bytes_of(heap, bytes)?.as_slice(),
            options,
        ),
        Command::Read { name, config, file } => new_loaded(
            sets,
            name,
            config,
            read_file(files, file)?.as_slice(),
            LoadOptions::NONE,
        ),
        Command::Check(rule, Pair { first, second }) => {
            check(heap, rule, &sets.view(first)?, &sets.view(second)?)
        }
    }
}

// Makes a draft of so many words, or of as many as it takes; over too few it is void, and refused as such.
fn new_draft<'a>(
    sets: &mut Sets,
    name: &'a str,
    config: Config,
    words: Option<usize>,
) -> Result<Answer, Declined<'a>> {
    let words = words.unwrap_or(words_needed(config));
    let positions = Positions::none(sets.heap, config, words)?;
    sets.put(name, Kind::Draft, positions)?;
    Draft::check(words, config).map_err(Refusal::from)?;
    Ok(Answer::Done)
}

// Puts the positions of a layer under a name.
fn new_layer<'a>(
    sets: &mut Sets,
    layer: Layer,
    name: &'a str,
    over: Pair<'a>,
) -> Result<Answer, Declined<'a>> {
    let a = sets.view(over.first)?;
    let b = sets.view(over.second)?;
    let positions = laid(sets.heap, layer, a, b)?;
    sets.put(name, Kind::Layer, positions)?;
    Ok(Answer::Done)
}

// The positions of a layer over two sets. The arms have four types, so the choice is a match and no closure.
fn laid<'n, 'v>(
    heap: Global,
    layer: Layer,
    a: DraftView<'v>,
    b: DraftView<'v>,
) -> Result<Positions, Declined<'n>> {
    match layer {
        Layer::Both => Positions::of(heap, &both_of(a, b)),
        Layer::Either => Positions::of(heap, &either_of(a, b)),
        Layer::Without => Positions::of(heap, &first_without(a, b)),
        Layer::OneOf => Positions::of(heap, &just_one_of(a, b)),
    }
}

// Loads a set from bytes, and puts its positions under a name.
fn new_loaded<'a>(
    sets: &mut Sets,
    name: &'a str,
    config: Config,
    bytes: &[u8],
    options: LoadOptions,
) -> Result<Answer, Declined<'a>> {
    let Loading { set, left } = load(sets.heap, config, bytes, options)?;
    match set {
        Ok(set) => {
            sets.put(name, Kind::Layer, set.positions)?;
            Ok(Answer::Loaded {
                n: set.n,
                d: set.d,
                left,
            })
        }
        Err(refusal) => Ok(Answer::NotLoaded(refusal, left)),
    }
}

// The bytes of a file. Want of memory is told as that.
fn read_file<'n, R: Files + Alloc>(
    files: &R,
    file: &'n str,
) -> Result<Vec<u8, R::A>, Declined<'n>> {
    fs::read(files, file).map_err(|error| match error.kind() {
        io::ErrorKind::OutOfMemory => Declined::from(AllocError),
        _ => Declined::BadLine(LineError::NotRead { file, error }),
    })
}

// Writes bytes into a file, in place of what it had.
fn write_file<'n>(files: &impl Files, file: &'n str, bytes: &[u8]) -> Result<Answer, Declined<'n>> {
    fs::write(files, file, bytes).map_err(|error| LineError::NotWritten { file, error })?;
    Ok(Answer::Wrote(bytes.len()))
}

// The runs of a set.
fn runs<S: LevelMasks>(heap: Global, set: &S) -> Result<Vec<Run>, AllocError>
    ensures { IfOk result (λ v. AllRuns (holds (S.LevelMasks.means set.now)) 0 v.items) }
{
    runs_of(set).collect(heap)
}

// The condition that a rule puts to its two sets.
fn condition(rule: Rule) -> Condition
    ensures { result ≡ condition_of rule }
{
    match rule {
        Rule::Emphasis | Rule::Languages => Condition::Inside,
        Rule::Notes | Rule::Pages => Condition::Same,
    }
}

// The runs at which two sets break a condition.
fn faults<A: LevelMasks, B: LevelMasks>(
    heap: Global,
    condition: Condition,
    a: &A,
    b: &B,
) -> Result<Vec<Run>, AllocError>
    ensures { IfOk result (λ v. AllRuns (fault condition (A.LevelMasks.means a.now) (B.LevelMasks.means b.now)) 0 v.items) }
{
    faults_of(condition, a, b).collect(heap)
}

// Checks a rule on two sets.
fn check<'n, A: LevelMasks, B: LevelMasks>(
    heap: Global,
    rule: Rule,
    a: &A,
    b: &B,
) -> Result<Answer, Declined<'n>>
    ensures { IfOk result (λ answer. Verdict rule (A.LevelMasks.means a.now) (B.LevelMasks.means b.now) answer) }
{
    if !comparable(a, b) {
        return Err(Declined::Refused(Refusal::Void));
    }
    Ok(Answer::Faults(rule, faults(heap, condition(rule), a, b)?))
}

// Writes items with blanks between them.
fn write_joined<T, W, F>(items: &[T], f: &mut fmt::Formatter<W>, write_item: F) -> fmt::Result
where
    W: fmt::Write,
    F: Fn(&T, &mut fmt::Formatter<W>) -> fmt::Result,
    requires { F.IsAlwaysCallable write_item }
{
    for (i, item) in items.iter().enumerate() {
        if i > 0 {
            write!(f, " ")?;
        }
        write_item(item, f)?;
    }
    Ok(())
}

// Writes runs.
fn write_runs<W: fmt::Write>(runs: &[Run], f: &mut fmt::Formatter<W>) -> fmt::Result {
    write_joined(runs, f, |run, f| write!(f, "{}-{}", run.from, run.to))
}

// Writes words in hex.
fn write_words<W: fmt::Write>(words: &[u64], f: &mut fmt::Formatter<W>) -> fmt::Result {
    write_joined(words, f, |word, f| write!(f, "{word:016x}"))
}

// Writes bytes in hex, with nothing between them.
fn write_bytes<W: fmt::Write>(bytes: &[u8], f: &mut fmt::Formatter<W>) -> fmt::Result {
    for byte in bytes {
        write!(f, "{byte:02x}")?;
    }
    Ok(())
}

impl fmt::Display for Answer {
    // The line that the answer prints, without its line end.
    fn fmt<W: fmt::Write>(&self, f: &mut fmt::Formatter<W>) -> fmt::Result {
        match self {
            Answer::Done => write!(f, "ok"),
            Answer::Refused(refusal) => write!(f, "refused: {refusal}"),
            Answer::Held(true) => write!(f, "yes"),
            Answer::Held(false) => write!(f, "no"),
            Answer::Position(Some(p)) => write!(f, "{p}"),
            Answer::Position(None) => write!(f, "none"),
            Answer::Runs(runs) if runs.is_empty() => write!(f, "none"),
            Answer::Runs(runs) => write_runs(runs, f),
            Answer::Count(count) => write!(f, "{count}"),
            Answer::Packed(Packed { n, d, words }) => {
                write!(f, "packed: n {n}, d {d}, {} words", words.len())
            }
            Answer::Words(words) if words.is_empty() => write!(f, "none"),
            Answer::Words(words) => write_words(words, f),
            Answer::Image(bytes) => write_bytes(bytes, f),
            Answer::Wrote(count) => write!(f, "wrote {count} bytes"),
            Answer::Loaded { n, d, left } => write!(f, "loaded: n {n}, d {d}, left {left}"),
            Answer::NotLoaded(refusal, left) => write!(f, "refused: {refusal}, left {left}"),
            Answer::Faults(rule, faults) if faults.is_empty() => write!(f, "{rule}: holds"),
            Answer::Faults(rule, faults) => {
                write!(f, "{rule}: fails at ")?;
                write_runs(faults, f)
            }
        }
    }
}

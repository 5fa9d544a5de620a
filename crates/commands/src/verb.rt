// The commands: the word of each, what it takes and what it prints. These are matches, not tables: a match has an
// answer for each case, and a table would be searched.
ghost use Rattle.std.specs.Prelude.{◌≡◌, ◌≢◌, MatchResult};
ghost use Rattle.commands.specs.Verbs.{layer_word, rule_word, verb_word};

use crate::error::LineError;
use std::fmt;

#[derive(Clone, Copy, PartialEq, Eq, Debug)]
pub enum Layer {
    // the positions in both
    Both,
    // the positions in at least one
    Either,
    // the positions in the first only
    Without,
    // the positions in just one
    OneOf,
}

impl Layer {
    // The word that names the layer in a script.
    pub fn word(self) -> &'static str
        ensures { result.now ≡ layer_word self }
    {
        match self {
            Layer::Both => "both",
            Layer::Either => "either",
            Layer::Without => "without",
            Layer::OneOf => "oneof",
        }
    }

    // What the layer's command prints, and which positions NAME then has.
    fn prints(self) -> &'static str {
        match self {
            Layer::Both => "ok, or refused: Void; NAME then has the positions in both A and B",
            Layer::Either => "ok, or refused: Void; NAME then has the positions in A or B or both",
            Layer::Without =>
                "ok, or refused: Void; NAME then has the positions in A that are not in B",
            Layer::OneOf =>
                "ok, or refused: Void; NAME then has the positions in just one of A and B",
        }
    }
}

// What a certificate asks of two sets.
#[derive(Clone, Copy, PartialEq, Eq, Debug)]
pub enum Rule {
    // what is printed with emphasis is marked up so
    Emphasis,
    // what is in a foreign language is tagged
    Languages,
    // each note reference has its back link
    Notes,
    // each printed page break is in the page list
    Pages,
}

impl Rule {
    // The word that names the rule in a script and in its answer.
    pub fn word(self) -> &'static str
        ensures { result.now ≡ rule_word self }
    {
        match self {
            Rule::Emphasis => "emphasis",
            Rule::Languages => "languages",
            Rule::Notes => "notes",
            Rule::Pages => "pages",
        }
    }

    // The two sets that the rule compares.
    fn operands(self) -> &'static str {
        match self {
            Rule::Emphasis => "PRINTED MARKUP",
            Rule::Languages => "FOREIGN TAGGED",
            Rule::Notes => "REFERENCES BACKLINKS",
            Rule::Pages => "PRINTED LISTED",
        }
    }

    // What the rule's command prints.
    fn prints(self) -> &'static str {
        match self {
            Rule::Emphasis =>
                "emphasis: holds, or emphasis: fails at A-B .. where PRINTED is outside MARKUP, or refused: Void",
            Rule::Languages =>
                "languages: holds, or languages: fails at A-B .. where FOREIGN is outside TAGGED, or refused: Void",
            Rule::Notes =>
                "notes: holds, or notes: fails at A-B .. where the two differ, or refused: Void",
            Rule::Pages =>
                "pages: holds, or pages: fails at A-B .. where the two differ, or refused: Void",
        }
    }
}

impl fmt::Display for Rule {
    // The word that names the rule.
    fn fmt<W: fmt::Write>(&self, f: &mut fmt::Formatter<W>) -> fmt::Result {
        f.write_str(self.word())
    }
}

// What a command does, without its operands.
#[derive(Clone, Copy, PartialEq, Eq, Debug)]
pub enum Verb {
    Draft,
    Mark,
    Clear,
    Layer(Layer),
    Has,
    Next,
    Runs,
    Count,
    Pack,
    Words,
    Image,
    Write,
    Load,
    Read,
    Check(Rule),
}

impl Verb {
    pub const ALL: [Verb; 21] = [
        Verb::Draft,
        Verb::Mark,
        Verb::Clear,
        Verb::Layer(Layer::Both),
        Verb::Layer(Layer::Either),
        Verb::Layer(Layer::Without),
        Verb::Layer(Layer::OneOf),
        Verb::Has,
        Verb::Next,
        Verb::Runs,
        Verb::Count,
        Verb::Pack,
        Verb::Words,
        Verb::Image,
        Verb::Write,
        Verb::Load,
        Verb::Read,
        Verb::Check(Rule::Emphasis),
        Verb::Check(Rule::Languages),
        Verb::Check(Rule::Notes),
        Verb::Check(Rule::Pages),
    ];

    // The word that begins the command.
    pub fn word(self) -> &'static str
        ensures { result.now ≡ verb_word self }
    {
        match self {
            Verb::Draft => "draft",
            Verb::Mark => "mark",
            Verb::Clear => "clear",
            Verb::Layer(layer) => layer.word(),
            Verb::Has => "has",
            Verb::Next => "next",
            Verb::Runs => "runs",
            Verb::Count => "count",
            Verb::Pack => "pack",
            Verb::Words => "words",
            Verb::Image => "image",
            Verb::Write => "write",
            Verb::Load => "load",
            Verb::Read => "read",
            Verb::Check(rule) => rule.word(),
        }
    }

    // The words that follow it.
    pub fn operands(self) -> &'static str {
        match self {
            Verb::Draft => "NAME CONFIG [WORDS]",
            Verb::Mark | Verb::Clear => "NAME FROM TO",
            Verb::Layer(_) => "NAME A B",
            Verb::Has | Verb::Next => "NAME P",
            Verb::Runs | Verb::Count | Verb::Words | Verb::Image => "NAME",
            Verb::Pack => "NAME [WORDS]",
            Verb::Write => "NAME FILE",
            Verb::Load => "NAME CONFIG BYTES [words=W] [limit=M] [device=CODE]",
            Verb::Read => "NAME CONFIG FILE",
            Verb::Check(rule) => rule.operands(),
        }
    }

    // What the command prints.
    pub fn prints(self) -> &'static str {
        match self {
            Verb::Draft =>
                "ok, or refused: NoWords where WORDS are too few; NAME is then a void draft",
            Verb::Mark | Verb::Clear => "ok, or refused: BadRange",
            Verb::Layer(layer) => layer.prints(),
            Verb::Has => "yes or no",
            Verb::Next => "the least position held at or above P, or none",
            Verb::Runs => "the maximal runs, half open and rising, as 3-4 64-70, or none",
            Verb::Count => "how many positions",
            Verb::Pack =>
                "packed: n N, d D, W words, packed into WORDS words, or refused: Void, or refused: NoMemory(W)",
            Verb::Words =>
                "the words that packing fills, 16 hex digits each, or none, or refused: Void",
            Verb::Image => "the bytes of the image, 2 hex digits each, or refused: Void",
            Verb::Write => "wrote L bytes, or refused: Void; FILE then has the bytes of the image",
            Verb::Load =>
                "loaded: n N, d D, left K, of the image in BYTES, of which K are left, or refused: X, left K",
            Verb::Read => "as load, of the bytes of FILE",
            Verb::Check(rule) => rule.prints(),
        }
    }
}

impl<'a> TryFrom<&'a [u8]> for Verb {
    ghost use Rattle.commands.specs.declared.verb.Verb.{Verb};

    type Error = LineError<'a>;

    ghost try_from_gives = { λ word r. MatchResult r (λ verb. word.now ≡ verb_word verb) (λ _. (verb : Verb) → word.now ≢ verb_word verb) };

    // The verb that a word names.
    fn try_from(word: &'a [u8]) -> Result<Verb, LineError<'a>> {
        match word {
            b"draft" => Ok(Verb::Draft),
            b"mark" => Ok(Verb::Mark),
            b"clear" => Ok(Verb::Clear),
            b"both" => Ok(Verb::Layer(Layer::Both)),
            b"either" => Ok(Verb::Layer(Layer::Either)),
            b"without" => Ok(Verb::Layer(Layer::Without)),
            b"oneof" => Ok(Verb::Layer(Layer::OneOf)),
            b"has" => Ok(Verb::Has),
            b"next" => Ok(Verb::Next),
            b"runs" => Ok(Verb::Runs),
            b"count" => Ok(Verb::Count),
            b"pack" => Ok(Verb::Pack),
            b"words" => Ok(Verb::Words),
            b"image" => Ok(Verb::Image),
            b"write" => Ok(Verb::Write),
            b"load" => Ok(Verb::Load),
            b"read" => Ok(Verb::Read),
            b"emphasis" => Ok(Verb::Check(Rule::Emphasis)),
            b"languages" => Ok(Verb::Check(Rule::Languages)),
            b"notes" => Ok(Verb::Check(Rule::Notes)),
            b"pages" => Ok(Verb::Check(Rule::Pages)),
            _ => Err(LineError::UnknownCommand(word)),
        }
    }
}

impl fmt::Display for Verb {
    // The word that begins the command.
    fn fmt<W: fmt::Write>(&self, f: &mut fmt::Formatter<W>) -> fmt::Result {
        f.write_str(self.word())
    }
}

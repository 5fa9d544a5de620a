// What is wrong with a line of a script, or kept it from being carried out.
use crate::verb::Verb;
use std::alloc::AllocError;
use std::io;
use thiserror::Error;

#[derive(Clone, Copy, Debug, Error)]
pub enum LineError<'a> {
    #[error("unknown command '{}'", .0.escape_ascii())]
    UnknownCommand(&'a [u8]),
    // a command with too few or too many words
    #[error("{0} takes {operands}", operands = .0.operands())]
    WordCount(Verb),
    #[error("'{}' is not a number", .0.escape_ascii())]
    NotNumber(&'a [u8]),
    #[error("'{}' passes 64 bits", .0.escape_ascii())]
    NumberTooLarge(&'a [u8]),
    #[error("'{}' is not a CONFIG (small, book, large or W0/W1/WD)", .0.escape_ascii())]
    NotConfig(&'a [u8]),
    #[error("'{}' is not a NAME (letters, digits, '-' and '_')", .0.escape_ascii())]
    NotName(&'a [u8]),
    #[error("'{}' is not a FILE (text in UTF-8)", .0.escape_ascii())]
    NotText(&'a [u8]),
    #[error("'{}' is not BYTES (hex digits, two a byte, or '-' for none)", .0.escape_ascii())]
    NotBytes(&'a [u8]),
    #[error("'{}' is not a CODE (a number of at most 16 bits)", .0.escape_ascii())]
    NotCode(&'a [u8]),
    #[error("'{}' is not an option (words=W, limit=M or device=CODE)", .0.escape_ascii())]
    UnknownOption(&'a [u8]),
    #[error("'{}' gives an option again", .0.escape_ascii())]
    OptionTwice(&'a [u8]),
    #[error("no set is named '{0}'")]
    NoSuchSet(&'a str),
    #[error("'{0}' is not a draft")]
    NotDraft(&'a str),
    #[error("{file}: {error}")]
    NotWritten { file: &'a str, error: io::Error },
    #[error("{file}: {error}")]
    NotRead { file: &'a str, error: io::Error },
    #[error("out of memory")]
    OutOfMemory(#[from(alloc)] AllocError),
}

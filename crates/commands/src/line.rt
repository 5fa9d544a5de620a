// Cutting a line of a script into its words.
ghost use Rattle.std.specs.Prelude.{◌≡◌, IfOk, map};
ghost use Rattle.commands.specs.Lines.{command_bytes, words_of};

use std::alloc::{AllocError, Global};

// The part of a line that is read: without its line end, a carriage return before that, and a comment.
pub fn command_part(line: &[u8]) -> &[u8]
    ensures { result.now ≡ command_bytes line.now }
{
    let line = line.strip_suffix(b"\n").unwrap_or(line);
    let line = line.strip_suffix(b"\r").unwrap_or(line);
    let end = line.iter().position(|b| *b == b'#').unwrap_or(line.len());
    &line[..end]
}

// The words of a text, in order: what stands between blanks and tabs.
pub fn words<'a>(heap: Global, text: &'a [u8]) -> Result<Vec<&'a [u8]>, AllocError>
    ensures { IfOk result (λ v. map (λ w. w.now) v.items ≡ words_of text.now) }
{
    let mut found = Vec::new(heap);
    let mut rest = text;
    while let Some(start) = rest.iter().position(|b| !matches!(b, b' ' | b'\t')) {
        let word = &rest[start..];
        let end = word
            .iter()
            .position(|b| matches!(b, b' ' | b'\t'))
            .unwrap_or(word.len());
        found.push(&word[..end])?;
        rest = &word[end..];
    }
    Ok(found)
}

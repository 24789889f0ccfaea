//! The position at which the reader stops in a text that isn't JSON.

ghost use Rattle.std.specs.Prelude.{◌≡◌, IfOk};
ghost use Rattle.std.specs.List.{after_first};
ghost use Rattle.subst_json.specs.Stop.{HasOffset, is_line_feed, line_start};

use std::alloc::{AllocError, Global};

/// The position and the message of the reader's error.
#[derive(Debug, Drop)]
pub struct ReaderStop {
    /// The reader's line, from 1. Lines end at line feeds.
    pub line: usize,
    /// The reader's column, in bytes from 1. It is 0 at the end of a text after a line feed.
    pub column: usize,
    /// The byte offset in the text.
    pub offset: usize,
    /// The reader's message, without its line and column.
    pub message: String,
}

/// Returns the position and the message of the reader's error `e`. The position is computed from the line and
/// column of `e` in `source`.
///
/// # Errors
///
/// If allocation fails.
pub fn reader_stop(
    alloc: Global,
    source: &str,
    e: &serde_json::Error,
) -> Result<ReaderStop, AllocError>
    ensures place { IfOk result (λ stop. HasOffset source.now stop.line stop.column stop.offset) }
{
    let (line, column) = (e.line(), e.column());
    let said = format!(in alloc; "{e}")?;
    let place = format!(in alloc; " at line {line} column {column}")?;
    let message = said.strip_suffix(place.as_str()).unwrap_or(said.as_str());
    Ok(ReaderStop {
        line,
        column,
        offset: offset_of(source, line, column),
        message: String::from_str(alloc, message)?,
    })
}

/// Returns the byte offset of a line and column of a text: the last character boundary up to that byte.
fn offset_of(text: &str, line: usize, column: usize) -> usize
    ensures { HasOffset text.now line column result }
{
    let after = line_start(text, line).saturating_add(column);
    text.floor_char_boundary(after.saturating_sub(1))
}

/// Returns the byte offset at which a line begins. Lines are counted from 1 and end at line feeds.
fn line_start(text: &str, line: usize) -> usize
    ensures { result ≡ line_start text.now line }
{
    let mut rest = text;
    let mut left = line.saturating_sub(1);
    while left > 0 {
        rest = after_line_feed(rest);
        left -= 1;
    }
    text.len().saturating_sub(rest.len())
}

/// Returns the text after the first line feed, or an empty text if there is none.
fn after_line_feed(text: &str) -> &str
    ensures { result.now ≡ after_first is_line_feed text.now }
{
    match text.split_once('\n') {
        Some((_, after)) => after,
        None => "",
    }
}

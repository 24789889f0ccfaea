//! Spans of parts of a string in its TOML document. Each span is confirmed by the reader before it is
//! returned.

ghost use Rattle.std.specs.Prelude.{◌≡◌, ◌≤◌, ◌++◌, IfOk, IfSome, IsTrue, map, string_bytes};
ghost use Rattle.toml.specs.Parse.{parse_document};
ghost use Rattle.toml.specs.View.{view, table_view};
ghost use Rattle.subst_error.specs.Range.{IsRangeIn};
ghost use Rattle.subst_document.specs.Paths.{step_of};
ghost use Rattle.subst_toml.specs.Paths.{Leads};
ghost use Rattle.subst_toml.specs.Places.{part_at, quotes_of, BeginsWith, IsTokenOf, IsInNewline, IsPlaceIn};

use std::alloc::{AllocError, Global};
use std::ops::Range;
use subst_document::{PathStep, slice};
use toml::{Table, Value};
use toml_parser::bytes::byte_at;

pub(crate) mod spelling;

/// Returns the byte range in `source`, a TOML document, that spells a range of one of its strings. `token` is
/// the byte range in `source` of the string with its quotes, as returned by [`strings`](crate::strings).
/// `range` is in byte offsets of the string.
///
/// The span begins at the spelling of the character at `range.start`, or at the closing quotes if the string
/// ends there. Its beginning skips the newline after the opening quotes of a multi-line string. The beginning
/// also skips a backslash at a line's end, with the white space and newlines after it. The span ends after
/// the spelling of the last character. If that character is a carriage return before a line feed, neither
/// escaped, the span ends after both. The span of an empty range is empty.
///
/// The result is `None` if the token isn't a string, or if an offset is past the string's end or inside a
/// character. It is also `None` if the range begins between a carriage return and a line feed, neither
/// escaped, since no document can separate the two.
///
/// # Errors
///
/// If allocation fails.
pub fn place_in(
    alloc: Global,
    source: &str,
    token: Range<usize>,
    range: Range<usize>,
) -> Result<Option<Range<usize>>, AllocError>
    ensures place { IfOk result (λ place. IfSome place (IsPlaceIn source.now token range)) }
{
    let Some(text) = slice(source, &token) else {
        return Ok(None);
    };
    let Some(whole) = string_of(alloc, text)? else {
        return Ok(None);
    };
    let Some(quotes) = quotes(text) else {
        return Ok(None);
    };
    let Some(place) = spelling::place(text, quotes.len(), &token, &range) else {
        return Ok(None);
    };
    let Some(start) = read_up_to(alloc, source, &(token.start..place.start), quotes)? else {
        return Ok(None);
    };
    let Some(end) = read_up_to(alloc, source, &(token.start..place.end), quotes)? else {
        return Ok(None);
    };
    if place.start <= place.end
        && place.end <= token.end
        && range.end <= whole.len()
        && begins_with(&whole, &start)
        && begins_with(&whole, &end)
        && start.len() == range.start
        && (end.len() == range.end || is_in_newline(end.as_bytes(), range.end))
    {
        Ok(Some(place))
    } else {
        Ok(None)
    }
}

/// Returns the string that the text at `range` in `source` spells once `quotes` are appended. The result is
/// `None` if `range` isn't within `source`, or if the text with `quotes` spells no string.
pub(crate) fn read_up_to(
    alloc: Global,
    source: &str,
    range: &Range<usize>,
    quotes: &str,
) -> Result<Option<String>, AllocError>
    ensures { IfOk result (λ read. IfSome read (λ text.
        (range.now.start ≤ range.now.end) × IsRangeIn source.now range.now
        × IsTokenOf (part_at source.now range.now ++ quotes.now) (string_bytes text))) }
{
    let Some(before) = slice(source, range) else {
        return Ok(None);
    };
    let mut closed = String::from_str(alloc, before)?;
    closed.push_str(quotes)?;
    string_of(alloc, closed.as_str())
}

/// Returns the opening quotes of a token: three if it begins with the same byte thrice, and otherwise one.
pub(crate) fn quotes(token: &str) -> Option<&str>
    ensures { IfSome result (λ quotes. quotes.now ≡ quotes_of token.now) }
{
    let bytes = token.as_bytes();
    let quote = byte_at(bytes, 0);
    if byte_at(bytes, 1) == quote && byte_at(bytes, 2) == quote {
        token.get(..3)
    } else {
        token.get(..1)
    }
}

/// Returns whether `whole` begins with `read`.
fn begins_with(whole: &str, read: &str) -> bool
    ensures { IsTrue result → BeginsWith whole.now read.now }
{
    match slice(whole, &(0..read.len())) {
        Some(beginning) => read == beginning,
        None => false,
    }
}

/// Returns whether `string` ends with a carriage return and a line feed, and `offset` is between the two.
fn is_in_newline(string: &[u8], offset: usize) -> bool
    ensures { IsTrue result → IsInNewline string.now offset }
{
    offset > 0
        && offset < string.len()
        && string.len() - offset == 1
        && byte_at(string, offset - 1) == b'\r'
        && byte_at(string, offset) == b'\n'
}

/// Returns the string that a text spells, or `None` if the text isn't a TOML string.
pub(crate) fn string_of(alloc: Global, token: &str) -> Result<Option<String>, AllocError>
    ensures { IfOk result (λ read. IfSome read (λ text. IsTokenOf token.now (string_bytes text))) }
{
    let value = match Value::from_str(alloc, token) {
        Ok(value) => value,
        Err(e) if e.is_memory() => return Err(AllocError),
        Err(_) => return Ok(None),
    };
    match value {
        Value::String(text) => Ok(Some(text)),
        _other => Ok(None),
    }
}

/// Returns the table of a document, or `None` if `source` isn't a document.
pub(crate) fn table_of(alloc: Global, source: &str) -> Result<Option<Table>, AllocError>
    ensures { IfOk result (λ read. IfSome read
        (λ members. parse_document source.now ≡ Some (table_view members))) }
{
    match toml::table_from_str(alloc, source) {
        Ok(members) => Ok(Some(members)),
        Err(e) if e.is_memory() => Err(AllocError),
        Err(_) => Ok(None),
    }
}

/// Returns the string to which `steps` lead in `tree`, or `None` if they lead to no string.
pub(crate) fn string_at<'t>(tree: &'t Value, steps: &[PathStep]) -> Option<&'t str>
    ensures { IfSome result (λ text. Leads (map step_of steps.now) (view tree.now) text.now) }
{
    match steps {
        [] => tree.as_str(),
        [PathStep::Key(key), rest @ ..] => string_at(tree.get(key.as_str())?, rest),
        [PathStep::Index(index), rest @ ..] => string_at(tree.get(*index)?, rest),
    }
}

//! Spells values whose old tokens have several lines. Such a value keeps its lines if each line can be filled
//! in by itself.
//!
//! No contract states how tokens are spelled. A token that is filled in line by line is used only if reading
//! it back gives the value. The whole output is read again too: apart from the values that are filled in, it
//! must equal the source.

use crate::change::{Change, change_of, string_of};
use crate::spell::{
    Place, append_lines, append_value, append_words, fits_block, fits_plain, has_printable_lines,
    line_end_of, quote_of,
};
use crate::token::line_of;
use std::alloc::{AllocError, Global};
use std::str::from_utf8;
use subst_document::Fill;
use subst_error::Error;
use subst_yaml_reader::Style;

/// Returns a new token for `value`. It is the old token at `place` with each line filled in, if that is
/// allowed there and is read as `value`. Otherwise it is `value` spelled as a whole.
///
/// # Errors
///
/// If allocation fails.
pub(crate) fn spelled<F: Fill>(
    alloc: Global,
    place: Place<'_>,
    value: &str,
    filler: &F,
) -> Result<Vec<u8>, AllocError> {
    if let Some(token) = filled_by_lines(alloc, place, filler)?
        && fits_lines(place, value, &token)
        && is_read_as(alloc, place, &token, value)?
    {
        return Ok(token);
    }
    let mut token = Vec::new(alloc);
    append_value(&mut token, place, value)?;
    Ok(token)
}

/// Returns whether a token in the style of `place` is read as `value`.
fn is_read_as(
    alloc: Global,
    place: Place<'_>,
    token: &[u8],
    value: &str,
) -> Result<bool, AllocError> {
    match string_of(alloc, place.style, place.indent, token)? {
        Some(string) => Ok(string.as_str() == value),
        None => Ok(false),
    }
}

/// Returns whether a token has a line, other than its first, that begins with `---`, `...` or `%`. Such a
/// line may end a document. Also returns `true` if the token isn't UTF-8.
fn has_mark(token: &[u8]) -> bool {
    match from_utf8(token) {
        Ok(token) => ["\n---", "\n...", "\n%"]
            .iter()
            .any(|mark| token.contains(*mark)),
        Err(_) => true,
    }
}

/// Returns whether `place` allows `token` as a spelling of `value`. `token` has the style of `place` and
/// several lines.
fn fits_lines(place: Place<'_>, value: &str, token: &[u8]) -> bool {
    match place.style {
        Style::Plain => {
            has_printable_lines(value) && fits_plain(value, place.in_flow) && !has_mark(token)
        }
        Style::Single => has_printable_lines(value) && !has_mark(token),
        Style::Double => !has_mark(token),
        Style::Folded => fits_block(value, place.token),
        Style::Literal | Style::Alias => false,
    }
}

/// Returns the token at `place` with each line filled in by itself. The result is `None` if the token has
/// only one line or the style `|`, or if a line can't be filled in by itself.
fn filled_by_lines<F: Fill>(
    alloc: Global,
    place: Place<'_>,
    filler: &F,
) -> Result<Option<Vec<u8>>, AllocError> {
    if !place.token.contains(&b'\n') {
        return Ok(None);
    }
    match place.style {
        Style::Plain | Style::Single | Style::Double => filled_words(alloc, place, filler),
        Style::Folded => filled_block(alloc, place, filler),
        Style::Literal | Style::Alias => Ok(None),
    }
}

/// Returns the change of the text `words` of a line when it is filled in by itself, or `None` if `filler`
/// refuses it.
fn change_in_line<F: Fill>(
    alloc: Global,
    style: Style,
    words: &str,
    filler: &F,
) -> Result<Option<Change>, AllocError> {
    let mut token = Vec::new(alloc);
    token.extend_from_slice(quote_of(style).as_bytes())?;
    token.extend_from_slice(words.as_bytes())?;
    token.extend_from_slice(quote_of(style).as_bytes())?;
    match change_of(alloc, style, 0, &token, filler) {
        Ok(change) => Ok(Some(change)),
        Err(Error::OutOfMemory(e)) => Err(e),
        Err(_) => Ok(None),
    }
}

/// Returns the quoted or unquoted token at `place` with each line filled in. Returns `None` if a line can't
/// be filled in by itself, if the token isn't UTF-8, or if a quoted token lacks a quote.
fn filled_words<F: Fill>(
    alloc: Global,
    place: Place<'_>,
    filler: &F,
) -> Result<Option<Vec<u8>>, AllocError> {
    let quote = quote_of(place.style);
    let Some(text) = between(place.token, quote) else {
        return Ok(None);
    };
    let mut token = Vec::new(alloc);
    token.extend_from_slice(quote.as_bytes())?;
    let mut is_next = false;
    for line in text.split('\n') {
        if is_next {
            token.push(b'\n')?;
        }
        is_next = true;
        if !append_line(alloc, &mut token, place.style, line, filler)? {
            return Ok(None);
        }
    }
    token.extend_from_slice(quote.as_bytes())?;
    Ok(Some(token))
}

/// Returns a token without `quote` at its ends, or `None` if it isn't UTF-8 or has no such quotes.
fn between<'t>(token: &'t [u8], quote: &str) -> Option<&'t str> {
    let text = from_utf8(token).ok()?;
    text.strip_prefix(quote)?.strip_suffix(quote)
}

/// Returns the text of a line without the white space at its end. In double quotes, a backslash that escapes
/// this white space or the line end is removed too.
fn words_of(style: Style, text: &str) -> &str {
    let words = text.trim_ascii_end();
    let backslashes = words
        .as_bytes()
        .iter()
        .rev()
        .take_while(|b| **b == b'\\')
        .count();
    if matches!(style, Style::Double) && backslashes % 2 == 1 {
        words.strip_suffix('\\').unwrap_or(words)
    } else {
        words
    }
}

/// Appends a line of a quoted or unquoted token, with its words filled in, and white space around the words
/// kept. Returns `false` if `filler` refuses the words.
fn append_line<F: Fill>(
    alloc: Global,
    token: &mut Vec<u8>,
    style: Style,
    line: &str,
    filler: &F,
) -> Result<bool, AllocError> {
    let text = line.trim_ascii_start();
    let words = words_of(style, text);
    token.extend_from_slice(line.strip_suffix(text).unwrap_or("").as_bytes())?;
    match change_in_line(alloc, style, words, filler)? {
        Some(Change::Kept) => token.extend_from_slice(words.as_bytes())?,
        Some(Change::Replaced(value)) => append_words(token, style, value.as_str())?,
        None => return Ok(false),
    }
    token.extend_from_slice(text.strip_prefix(words).unwrap_or("").as_bytes())?;
    Ok(true)
}

/// Returns the token at `place`, which has the style `>`, with each line filled in. Returns `None` if a line
/// can't be filled in by itself or isn't UTF-8, or if the token doesn't end with a line feed.
fn filled_block<F: Fill>(
    alloc: Global,
    place: Place<'_>,
    filler: &F,
) -> Result<Option<Vec<u8>>, AllocError> {
    let header = line_of(place.token);
    let (Some(body), true) = (
        place.token.strip_prefix(header),
        place.token.ends_with(b"\n"),
    ) else {
        return Ok(None);
    };
    let Ok(body) = from_utf8(body) else {
        return Ok(None);
    };
    let mut token = Vec::new(alloc);
    token.extend_from_slice(header)?;
    let line_end = line_end_of(header);
    for line in body.strip_suffix('\n').unwrap_or(body).split('\n') {
        let text = text_of_line(line, place.indent);
        match change_in_line(alloc, Style::Plain, text, filler)? {
            Some(Change::Kept) => {
                token.extend_from_slice(line.as_bytes())?;
                token.push(b'\n')?;
            }
            Some(Change::Replaced(value)) => append_lines(
                &mut token,
                place,
                line_end,
                value.as_str(),
            )?,
            None => return Ok(None),
        }
    }
    Ok(Some(token))
}

/// Returns the text of a line of a value in the style `>`, without its indentation and its line end.
fn text_of_line(line: &str, indent: usize) -> &str {
    let text = line.get(indent..).unwrap_or("");
    text.strip_suffix('\r').unwrap_or(text)
}

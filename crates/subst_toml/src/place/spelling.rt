//! The spelling of a string in its token, in pieces. Each piece spells a character, a newline of two bytes,
//! or nothing.

ghost use Rattle.std.specs.Prelude.{◌<◌, ◌≤◌, IfSome, length};

use std::ops::Range;
use toml_parser::text::{first, skip, skip_blank, skip_ws, starts_newline};

/// A piece of a token, and the text after it.
#[derive(Clone, Copy, Drop)]
struct Piece<'s> {
    /// The number of bytes of the string that the piece spells, which may be 0.
    len: usize,
    /// The text after the piece.
    rest: &'s str,
}

/// The kind of string that a token spells.
#[derive(Clone, Copy)]
pub(crate) struct Style {
    /// Whether a backslash begins an escape.
    has_escapes: bool,
    /// Whether the string may span several lines.
    is_multi_line: bool,
}

impl Style {
    /// Returns the style of a token with these quotes.
    pub(crate) fn of(quotes: &str) -> Self {
        Style {
            has_escapes: first(quotes) == b'"',
            is_multi_line: quotes.len() == 3,
        }
    }
}

/// Returns the span of the document that spells `range`, a range of a string. `text` is the string's token,
/// which is at `token` in the document and has `quotes` quotes at each end. The span is right only if `range`
/// starts and ends between characters.
pub(super) fn place(
    text: &str,
    quotes: usize,
    token: &Range<usize>,
    range: &Range<usize>,
) -> Option<Range<usize>> {
    let style = Style::of(text.get(..quotes)?);
    let content = text.get(quotes..text.len().checked_sub(quotes)?)?;
    let start = after_left_out(
        after_spelling(without_newline(content, style), range.start, style)?,
        style,
    );
    let end = after_spelling(start, range.end.checked_sub(range.start)?, style)?;
    let content_end = token.end.checked_sub(quotes)?;
    Some(content_end.checked_sub(start.len())?..content_end.checked_sub(end.len())?)
}

/// Returns `content` without the newline after three opening quotes, which is no part of the string.
pub(crate) fn without_newline(content: &str, style: Style) -> &str {
    match content.strip_prefix('\n') {
        Some(rest) if style.is_multi_line => rest,
        _ => match content.strip_prefix("\r\n") {
            Some(rest) if style.is_multi_line => rest,
            _ => content,
        },
    }
}

/// Returns the rest of `text` after the spelling of the string's next `len` bytes. The result is `None` if
/// `text` ends before that, or if an escape in the spelling is invalid.
pub(crate) fn after_spelling(text: &str, len: usize, style: Style) -> Option<&str> {
    let mut rest = text;
    let mut left = len;
    'pieces: while left > 0 {
        let piece = first_piece(rest, style)?;
        left = left.saturating_sub(piece.len);
        rest = piece.rest;
    }
    Some(rest)
}

/// Returns the rest of `text` after the pieces at its start that spell nothing: backslashes at a line's end.
pub(crate) fn after_left_out(text: &str, style: Style) -> &str {
    let mut rest = text;
    'pieces: while let Some(
        Piece {
            len: 0,
            rest: after,
        },
    ) = first_piece(rest, style)
    {
        rest = after;
    }
    rest
}

/// Returns the first piece of `text`, or `None` if `text` is empty or begins with an invalid escape.
fn first_piece(text: &str, style: Style) -> Option<Piece<'_>>
    ensures shorter { IfSome result (λ piece. length piece.rest.now < length text.now) }
{
    if style.has_escapes && first(text) == b'\\' {
        escape(skip(text, 1), style.is_multi_line)
    } else if first(text) == b'\r' && starts_newline(text) {
        Some(Piece {
            len: 2,
            rest: skip(text, 2),
        })
    } else {
        character(text)
    }
}

/// Returns a `Piece` for the escape whose backslash precedes `text`. Returns `None` if `text` is empty or the
/// escape is an invalid hex escape.
fn escape(text: &str, is_multi_line: bool) -> Option<Piece<'_>>
    ensures within { IfSome result (λ piece. length piece.rest.now ≤ length text.now) }
{
    if is_multi_line && starts_newline(skip_ws(text)) {
        return Some(Piece {
            len: 0,
            rest: skip_blank(text, false),
        });
    }
    match first(text) {
        b'x' => hex_escape(skip(text, 1), 2),
        b'u' => hex_escape(skip(text, 1), 4),
        b'U' => hex_escape(skip(text, 1), 8),
        _ => character(text),
    }
}

/// Returns the piece of a hex escape whose `digits` digits are at the start of `text`, or `None` if the
/// escape is invalid.
fn hex_escape(text: &str, digits: usize) -> Option<Piece<'_>>
    ensures within { IfSome result (λ piece. length piece.rest.now ≤ length text.now) }
{
    let (number, rest) = text.split_at_checked(digits)?;
    let code = u32::from_str_radix(number, 16).ok()?;
    Some(Piece {
        len: char::from_u32(code)?.len_utf8(),
        rest,
    })
}

/// Returns the first character of `text` as a piece, which spells as many bytes as the character has. The
/// result is `None` if `text` is empty.
fn character(text: &str) -> Option<Piece<'_>>
    ensures shorter { IfSome result (λ piece. length piece.rest.now < length text.now) }
{
    let len = text.chars().next()?.len_utf8();
    let (_, rest) = text.split_at_checked(len)?;
    Some(Piece { len, rest })
}

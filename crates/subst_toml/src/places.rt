//! The spans in a TOML document that spell many ranges of one string. Each piece of the string's token is put
//! between quotes and read as a string of its own. Only spans that the reader confirms are returned.

ghost use Rattle.std.specs.Prelude.{◌≡◌, ◌++◌, ◌∷◌, [], IfOk, IfSome, IsTrue, string_bytes};
ghost use Rattle.subst_toml.specs.Places.{IsTokenOf};
ghost use Rattle.subst_toml.specs.Pieces.{ArePlacesIn, between};

use crate::document::token::Quoted;
use crate::place::spelling::{Style, after_left_out, after_spelling, without_newline};
use crate::place::{quotes, read_up_to, string_of};
use std::alloc::{AllocError, Global};
use std::ops::Range;
use subst_document::{Content, Pieces, Position, slice, spans};

/// A token of the source, with the string that it spells.
#[derive(Clone, Copy)]
struct Token<'t> {
    source: &'t str,
    /// The token's byte range in the source.
    span: &'t Range<usize>,
    quotes: &'t str,
    string: &'t str,
}

impl Token<'_> {
    /// Returns the kind of string that the token spells.
    fn style(&self) -> Style {
        Style::of(self.quotes)
    }

    /// Returns the token's content from the offset `from` in the source up to the closing quotes.
    fn content(&self, from: usize) -> Option<&str> {
        let end = self.span.end.checked_sub(self.quotes.len())?;
        self.source.get(from..end)
    }

    /// Returns the offset in the source at which `rest` begins. `rest` is a suffix of the token's content.
    fn place_of(&self, rest: &str) -> Option<usize> {
        let end = self.span.end.checked_sub(self.quotes.len())?;
        end.checked_sub(rest.len())
    }

    /// Returns the offset in the source at which the token's content begins. A newline right after three
    /// opening quotes is skipped.
    fn start(&self) -> Option<usize> {
        let opened = self.span.start.checked_add(self.quotes.len())?;
        self.place_of(without_newline(self.content(opened)?, self.style()))
    }

    /// Returns the offset in the source after the spelling of `len` bytes that begins at `from`. If
    /// `is_start`, backslashes at a line's end, which spell nothing, are skipped too.
    fn place_after(&self, from: usize, len: usize, is_start: bool) -> Option<usize> {
        let rest = after_spelling(self.content(from)?, len, self.style())?;
        if is_start {
            self.place_of(after_left_out(rest, self.style()))
        } else {
            self.place_of(rest)
        }
    }
}

impl Pieces for Token<'_> {
    type Reader = Quoted;

    ghost use Rattle.subst_toml.specs.Pieces.{IsPiece};

    ghost is_piece = { λ token.
        IsPiece token.source.now token.span.now token.quotes.now token.string.now };

    fn piece_end(
        &self,
        alloc: Global,
        _reader: &mut Quoted,
        from: Position,
        offset: usize,
        is_start: bool,
    ) -> Result<Option<Position>, AllocError> {
        let Some(string) = slice(self.string, &(from.offset..offset)) else {
            return Ok(None);
        };
        let Some(place) = self.place_after(from.place, string.len(), is_start) else {
            return Ok(None);
        };
        let Some(spelled) = slice(self.source, &(from.place..place)) else {
            return Ok(None);
        };
        if place <= self.span.end && reads_as(alloc, self.quotes, spelled, string)? {
            Ok(Some(Position { place, offset }))
        } else {
            Ok(None)
        }
    }
}

/// Returns the byte ranges in `source`, a TOML document, that spell `ranges` of one of its strings.
///
/// `token` is the byte range in `source` of the string with its quotes. `ranges` are in byte offsets of the
/// string, in order and without overlaps. Each maps to the span that `place_in` returns, but the token is
/// scanned only once. The result is `None` if the token isn't a string, or if the ranges overlap. It is also
/// `None` if an offset is past the string's end, inside a character, or between an unescaped carriage return
/// and line feed.
///
/// # Errors
///
/// If allocation fails.
pub fn places_in(
    alloc: Global,
    source: &str,
    token: Range<usize>,
    ranges: &[Range<usize>],
) -> Result<Option<Vec<Range<usize>>>, AllocError>
    ensures places { IfOk result (λ places. IfSome places
        (λ places. ArePlacesIn source.now token ranges.now places.items)) }
{
    let Some(text) = slice(source, &token) else {
        return Ok(None);
    };
    let Some(string) = string_of(alloc, text)? else {
        return Ok(None);
    };
    let Some(quotes) = quotes(text) else {
        return Ok(None);
    };
    let token = Token {
        source,
        span: &token,
        quotes,
        string: &string,
    };
    let Some(start) = token.start() else {
        return Ok(None);
    };
    let Some(empty) = read_up_to(alloc, source, &(token.span.start..start), quotes)? else {
        return Ok(None);
    };
    if !empty.is_empty() {
        return Ok(None);
    }
    let first = Position {
        place: start,
        offset: 0,
    };
    let Some(places) = spans(alloc, &token, &mut Quoted::new(), first, ranges)? else {
        return Ok(None);
    };
    Ok(Some(places))
}

/// Returns the content of `token`, with the spans that spell `ranges` of `string`. The spans are left out if
/// the content is `string` itself. The result is `None` if a span isn't found.
///
/// # Errors
///
/// If allocation fails.
pub(crate) fn content_of(
    alloc: Global,
    token: &str,
    string: &str,
    ranges: &[Range<usize>],
) -> Result<Option<Content>, AllocError> {
    let Some(quotes) = quotes(token) else {
        return Ok(None);
    };
    let whole = Token {
        source: token,
        span: &(0..token.len()),
        quotes,
        string,
    };
    let Some(start) = whole.start() else {
        return Ok(None);
    };
    let end = token.len().saturating_sub(quotes.len());
    if token.get(start..end) == Some(string) {
        let spans = None;
        return Ok(Some(Content { start, end, spans }));
    }
    let first = Position {
        place: start,
        offset: 0,
    };
    let spans = spans(alloc, &whole, &mut Quoted::new(), first, ranges)?;
    Ok(spans.map(|spans| Content {
        start,
        end,
        spans: Some(spans),
    }))
}

/// Returns whether `text`, put between `quotes`, spells `string`.
///
/// # Errors
///
/// If allocation fails.
pub(crate) fn reads_as(
    alloc: Global,
    quotes: &str,
    text: &str,
    string: &str,
) -> Result<bool, AllocError>
    ensures { IfOk result (λ is. IsTrue is → IsTokenOf (between quotes.now text.now) string.now) }
{
    let token = quoted(alloc, quotes, text)?;
    match string_of(alloc, &token)? {
        Some(read) => Ok(read.as_str() == string),
        None => Ok(false),
    }
}

/// Puts a text between quotes. Three opening quotes are followed by a newline, which isn't part of the
/// string.
fn quoted(alloc: Global, quotes: &str, text: &str) -> Result<String, AllocError>
    ensures { IfOk result (λ token. string_bytes token ≡ between quotes.now text.now) }
{
    let newline = if quotes.len() == 3 { "\n" } else { "" };
    let mut token = String::from_str(alloc, quotes)?;
    token.push_str(newline)?;
    token.push_str(text)?;
    token.push_str(quotes)?;
    Ok(token)
}

//! The spans in a JSON text that spell many ranges of one string. Each piece of the string's token is put
//! between quotes and read on its own. Only spans that the reader confirms are returned.

ghost use Rattle.std.specs.Prelude.{◌≡◌, ◌++◌, ◌∷◌, [], IfOk, IfSome, IsTrue};
ghost use Rattle.subst_json.specs.Places.{IsTokenOf};
ghost use Rattle.subst_json.specs.Pieces.{ArePlacesIn};

use crate::place::spelling_len;
use crate::tokens::JsonStrings;
use std::alloc::{AllocError, Global};
use std::ops::Range;
use subst_document::{Pieces, Position, StringFormat, slice, spans};

/// A token of the source, with the string that it spells.
#[derive(Clone, Copy)]
struct Token<'t> {
    source: &'t str,
    /// The token's byte range in the source.
    span: &'t Range<usize>,
    string: &'t str,
}

impl Pieces for Token<'_> {
    type Reader = JsonStrings;

    ghost use Rattle.subst_json.specs.Pieces.{IsPiece};

    ghost is_piece = { λ token. IsPiece token.source.now token.span.now token.string.now };

    fn piece_end(
        &self,
        alloc: Global,
        reader: &mut JsonStrings,
        from: Position,
        offset: usize,
        _is_start: bool,
    ) -> Result<Option<Position>, AllocError> {
        let Some(part) = slice(self.string, &(from.offset..offset)) else {
            return Ok(None);
        };
        let before = from.place.saturating_sub(1);
        let rest = self.source.as_bytes().get(before..).unwrap_or(&[]);
        let place = before.saturating_add(spelling_len(rest, part.len()));
        let Some(spelled) = slice(self.source, &(from.place..place)) else {
            return Ok(None);
        };
        if place < self.span.end && reads_as(alloc, reader, spelled, part)? {
            Ok(Some(Position { place, offset }))
        } else {
            Ok(None)
        }
    }
}

/// A finder of the spans that [`places_in`] returns, for many strings of one document. It keeps the reader's
/// buffers between calls. Each call takes time linear in the length of the string's token.
#[derive(Drop)]
pub struct RangeFinder {
    format: JsonStrings,
}

impl RangeFinder {
    /// Creates a finder.
    pub fn new(alloc: Global) -> RangeFinder {
        RangeFinder {
            format: JsonStrings::new(alloc),
        }
    }

    /// Returns the byte ranges in `source`, a JSON text, that spell `ranges` of one of its strings, as
    /// [`places_in`] does. The string's token is scanned once.
    ///
    /// # Errors
    ///
    /// If allocation fails.
    pub fn find(
        &mut self,
        alloc: Global,
        source: &str,
        token: Range<usize>,
        ranges: &[Range<usize>],
    ) -> Result<Option<Vec<Range<usize>>>, AllocError>
        ensures places { IfOk result (λ places. IfSome places
            (λ places. ArePlacesIn source.now token ranges.now places.items)) }
    {
        let Some(text) = slice(source, &token) else {
            return Ok(None);
        };
        let Some(string) = self.format.read(text)? else {
            return Ok(None);
        };
        let string = String::from_str(alloc, string)?;
        let first = Position {
            place: token.start + 1,
            offset: 0,
        };
        let token = Token {
            source,
            span: &token,
            string: &string,
        };
        let Some(places) = spans(alloc, &token, &mut self.format, first, ranges)? else {
            return Ok(None);
        };
        Ok(Some(places))
    }
}

/// Returns the byte ranges in `source`, a JSON text, that spell `ranges` of one of its strings.
///
/// `token` is the byte range in `source` of the string with its quotes. `ranges` are in byte offsets of the
/// string, in order and without overlaps. Each maps to the span that `place_in` returns, but the token is
/// scanned only once. The result is `None` if the token isn't a string between quotes, or if the ranges
/// overlap. It is also `None` if an end of a range is past the string's end or inside a character.
///
/// # Errors
///
/// If allocation fails.
pub fn places_in(
    alloc: Global,
    source: &str,
    token: Range<usize>,
    ranges: &[Range<usize>],
) -> Result<Option<Vec<Range<usize>>>, AllocError>
    ensures places { IfOk result (λ places. IfSome places
        (λ places. ArePlacesIn source.now token ranges.now places.items)) }
{
    RangeFinder::new(alloc).find(alloc, source, token, ranges)
}

/// Returns the spans in `token` that spell `ranges` of `string`, or `None` if a span isn't found.
///
/// # Errors
///
/// If allocation fails.
pub(crate) fn spans_of(
    alloc: Global,
    format: &mut JsonStrings,
    token: &str,
    string: &str,
    ranges: &[Range<usize>],
) -> Result<Option<Vec<Range<usize>>>, AllocError> {
    let first = Position {
        place: 1,
        offset: 0,
    };
    let whole = Token {
        source: token,
        span: &(0..token.len()),
        string,
    };
    let found = spans(alloc, &whole, format, first, ranges)?;
    Ok(found)
}

/// Returns whether `text`, put between quotes, spells `string`.
pub(crate) fn reads_as(
    alloc: Global,
    format: &mut JsonStrings,
    text: &str,
    string: &str,
) -> Result<bool, AllocError>
    ensures { IfOk result (λ is. IsTrue is → IsTokenOf (34 ∷ text.now ++ 34 ∷ []) string.now) }
{
    let mut quoted = String::with_capacity(alloc, text.len().saturating_add(2))?;
    quoted.push('"')?;
    quoted.push_str(text)?;
    quoted.push('"')?;
    format.spells(alloc, &quoted, string)
}

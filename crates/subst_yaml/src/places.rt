//! Finds the spans in a text that spell parts of a string. Each span is confirmed: a sentinel, a byte that no
//! text contains, is inserted into the token at both ends of the span. This token is then read, and the
//! resulting string has to have sentinels at both ends of the part.

ghost use Rattle.std.specs.Prelude.{◌≡◌, ◌≤◌, ◌++◌, ℕ, Bool, List, IfOk, IfSome, IsTrue, length, slice_range};
ghost use Rattle.std.specs.List.{list_all, All, AllZip, Contains};
ghost use Rattle.subst_error.specs.Range.{IsRangeIn};
ghost use Rattle.subst_yaml_reader.specs.Decoded.{value_of};
ghost use Rattle.subst_yaml.specs.Places.{is_white, up_to_range, value_at, with_sentinels, AreInOrder, ArePlacesIn, IsEventOf, IsFinderOf, IsPlaceIn, IsShortened};

use crate::change::string_of;
use crate::token::part;
use spelling::{Cursor, Found, Scalar};
use std::alloc::{AllocError, Global};
use std::ops::Range;
use subst_document::slice;
use subst_yaml_reader::{Error, Event, read, value_of};

mod spelling;

/// A byte that no text contains, since UTF-8 doesn't have it.
const SENTINEL: u8 = 255;

/// A finder of the byte ranges in one text that spell parts of its strings. The ranges are those of
/// [`places_in`], but the text is read only once. Searches are fastest in the order of the strings in the
/// text.
#[derive(Drop)]
pub struct RangeFinder {
    events: Vec<Event>,
    /// The index of the event of the string found last, where the next search begins.
    last: usize,
}

impl RangeFinder {
    /// Creates a finder for the strings of `source`. It finds nothing if the reader refuses the text.
    ///
    /// # Errors
    ///
    /// If allocation fails.
    pub fn new(alloc: Global, source: &str) -> Result<RangeFinder, AllocError>
        ensures finder { IfOk result (λ finder. IsFinderOf finder source.now) }
    {
        match read(alloc, source) {
            Ok(events) => Ok(RangeFinder { events, last: 0 }),
            Err(Error::Refused(_)) => Ok(RangeFinder {
                events: Vec::new(alloc),
                last: 0,
            }),
            Err(Error::OutOfMemory) => Err(AllocError),
        }
    }

    /// Returns the byte ranges in `source` that spell `ranges` of one of its strings, as [`places_in`] does.
    /// The finder has to be created for the same `source`.
    ///
    /// # Errors
    ///
    /// If allocation fails.
    pub fn find(
        &mut self,
        alloc: Global,
        source: &str,
        token: Range<usize>,
        ranges: &[Range<usize>],
    ) -> Result<Option<Vec<Range<usize>>>, AllocError>
        ensures places { IsFinderOf self.old source.now → IfOk result (λ places. IfSome places
            (λ places. ArePlacesIn source.now token ranges.now places.items)) }
        ensures finder { IsFinderOf self.old source.now → IsFinderOf self.new source.now }
    {
        let Some(scalar) = self.scalar_at(&token) else {
            return Ok(None);
        };
        let Some(text) = slice(source, &token) else {
            return Ok(None);
        };
        let Some(string) = string_of(alloc, scalar.style, scalar.indent, text.as_bytes())? else {
            return Ok(None);
        };
        let start = token.start;
        let mut cursor = Cursor::new(scalar, text.as_bytes(), start);
        let Some(found) = all_found(alloc, source, &string, &mut cursor, ranges)? else {
            return Ok(None);
        };
        if is_confirmed(alloc, source, &token, scalar, &string, &found)? {
            Ok(Some(found.places))
        } else {
            Ok(None)
        }
    }

    /// Returns the byte range in `source` that spells a range of one of its strings, as [`place_in`] does.
    ///
    /// # Errors
    ///
    /// If allocation fails.
    pub(crate) fn find_one(
        &mut self,
        alloc: Global,
        source: &str,
        token: Range<usize>,
        range: Range<usize>,
    ) -> Result<Option<Range<usize>>, AllocError>
        ensures place { IsFinderOf self.old source.now
            → IfOk result (λ place. IfSome place (IsPlaceIn source.now token range)) }
        ensures finder { IsFinderOf self.old source.now → IsFinderOf self.new source.now }
    {
        let Some(places) = self.find(alloc, source, token, &[range])? else {
            return Ok(None);
        };
        match places.as_slice() {
            [place] => Ok(Some(place.start..place.end)),
            _ => Ok(None),
        }
    }

    /// Returns the style and indentation of the value whose token is at a range, or `None` if there is no
    /// such value.
    fn scalar_at(&mut self, token: &Range<usize>) -> Option<Scalar>
        ensures value { (s : List ℕ) → IsFinderOf self.old s → IfSome result
            (λ scalar. (in_flow : Bool)
            × IsEventOf s (value_at token.now scalar.style in_flow scalar.indent)) }
        ensures finder { (s : List ℕ) → IsFinderOf self.old s → IsFinderOf self.new s }
    {
        let (index, scalar) = find_scalar(&self.events, self.last, token)?;
        self.last = index;
        Some(scalar)
    }
}

/// Finds the value whose token is at a range. Returns the index of the value's event, and the value's style
/// and indentation, or `None` if there is no such value. The search begins at the index `from`. If it finds
/// nothing, it is repeated from the first event.
fn find_scalar(events: &[Event], from: usize, token: &Range<usize>) -> Option<(usize, Scalar)>
    ensures { IfSome result (λ found. (in_flow : Bool)
        × Contains events.now (value_at token.now found.1.style in_flow found.1.indent)) }
{
    match scalar_from(events, from, token) {
        Some(found) => Some(found),
        None => scalar_from(events, 0, token),
    }
}

/// Searches the events, from the index `from` on, for the first value whose token is at the range `token`.
/// Returns the index of its event, and its style and indentation.
fn scalar_from(events: &[Event], from: usize, token: &Range<usize>) -> Option<(usize, Scalar)>
    ensures { IfSome result (λ found. (in_flow : Bool)
        × Contains events.now (value_at token.now found.1.style in_flow found.1.indent)) }
{
    for index in from..events.len() {
        if let Event::Value {
            style,
            span,
            indent,
            ..
        } = events[index]
            && span.start == token.start
            && span.end == token.end
        {
            return Some((index, Scalar { style, indent }));
        }
    }
    None
}

/// Spans that spell ranges of a string, not confirmed yet.
#[derive(Drop)]
struct AllFound {
    /// The byte ranges in the text, one for each range of the string.
    places: Vec<Range<usize>>,
    /// The range spelled at each place: the searched range of the string, without a line break at its end.
    short: Vec<Range<usize>>,
}

/// Returns the spans in `source` that spell `ranges` of the string, or `None` if a range isn't found.
///
/// # Errors
///
/// If allocation fails.
fn all_found(
    alloc: Global,
    source: &str,
    string: &str,
    cursor: &mut Cursor<'_>,
    ranges: &[Range<usize>],
) -> Result<Option<AllFound>, AllocError>
    ensures { IfOk result (λ found. IfSome found (λ found.
        (length found.places.items ≡ length ranges.now)
        × All (IsRangeIn source.now) found.places.items
        × AllZip (IsShortened string.now) ranges.now found.short.items)) }
{
    let mut places = Vec::with_capacity(alloc, ranges.len())?;
    let mut short = Vec::with_capacity(alloc, ranges.len())?;
    for range in ranges {
        let Some(found) = next_found(source, string, cursor, range) else {
            return Ok(None);
        };
        places.push(found.place)?;
        short.push(found.short)?;
    }
    Ok(Some(AllFound { places, short }))
}

/// Returns the span in `source`, from the cursor on, that spells a range of the string, or `None` if the
/// range isn't found.
fn next_found(
    source: &str,
    string: &str,
    cursor: &mut Cursor<'_>,
    range: &Range<usize>,
) -> Option<Found>
    ensures { IfSome result (λ found. IsRangeIn source.now found.place
        × IsShortened string.now range.now found.short) }
{
    let found = cursor.find(range)?;
    let _ = slice(source, &found.place)?;
    if is_shortened(string.as_bytes(), range, &found.short) {
        Some(found)
    } else {
        None
    }
}

/// Returns whether a byte is a blank or a line feed.
fn is_white(byte: u8) -> bool
    ensures { result ≡ is_white byte }
{
    byte == b' ' || byte == b'\t' || byte == b'\n'
}

/// Returns whether each byte is a blank or a line feed.
fn is_white_space(bytes: &[u8]) -> bool
    ensures { result ≡ list_all is_white bytes.now }
{
    bytes.iter().all(|byte| is_white(*byte))
}

/// Returns whether `short` is `range`, or `range` with white space cut off at its end. Returns `false` if
/// `range` ends past the string's end.
fn is_shortened(string: &[u8], range: &Range<usize>, short: &Range<usize>) -> bool
    ensures { IsTrue result → IsShortened string.now range.now short.now }
{
    short.start == range.start
        && short.end <= range.end
        && range.end <= string.len()
        && is_white_space(part(string, short.end, range.end))
}

/// Appends the bytes of a text from `start` to `end`, or returns `false` if the text has no such part.
///
/// # Errors
///
/// If allocation fails.
fn append_part(
    bytes: &mut Vec<u8>,
    text: &[u8],
    start: usize,
    end: usize,
) -> Result<bool, AllocError>
    ensures { IfOk result (λ is. IsTrue is → (start ≤ end) × (end ≤ length text.now)
        × (bytes.new.items ≡ bytes.old.items ++ slice_range text.now start end)) }
{
    if start > end || end > text.len() {
        return Ok(false);
    }
    bytes.extend_from_slice(&text[start..end])?;
    Ok(true)
}

/// Appends the part of a text between `from` and the end of `range`, with the sentinel at both ends of
/// `range`. Returns `false` if `range` begins before `from`, ends before it begins, or ends past the text's
/// end.
///
/// # Errors
///
/// If allocation fails.
fn append_range(
    bytes: &mut Vec<u8>,
    text: &[u8],
    from: usize,
    range: &Range<usize>,
) -> Result<bool, AllocError>
    ensures { IfOk result (λ is. IsTrue is
        → (from ≤ range.now.start) × (range.now.start ≤ range.now.end)
        × (bytes.new.items ≡ bytes.old.items ++ up_to_range text.now from range.now)) }
{
    if !append_part(bytes, text, from, range.start)? {
        return Ok(false);
    }
    bytes.push(SENTINEL)?;
    if !append_part(bytes, text, range.start, range.end)? {
        return Ok(false);
    }
    bytes.push(SENTINEL)?;
    Ok(true)
}

/// Returns the part of a text between `from` and `to`, with the sentinel at both ends of each range. The
/// result is `None` if the ranges aren't in order between `from` and `to`, or if `to` is past the text's end.
///
/// # Errors
///
/// If allocation fails.
fn with_sentinels(
    alloc: Global,
    text: &[u8],
    from: usize,
    ranges: &[Range<usize>],
    to: usize,
) -> Result<Option<Vec<u8>>, AllocError>
    ensures { IfOk result (λ marked. IfSome marked (λ marked. AreInOrder from ranges.now to
        × (marked.items ≡ with_sentinels text.now from ranges.now to))) }
{
    let mut marked = Vec::new(alloc);
    let mut passed = from;
    for range in ranges {
        if !append_range(&mut marked, text, passed, range)? {
            return Ok(None);
        }
        passed = range.end;
    }
    if append_part(&mut marked, text, passed, to)? {
        Ok(Some(marked))
    } else {
        Ok(None)
    }
}

/// Returns whether the spans in `found` spell their ranges. They do if the token, with `SENTINEL` at both
/// ends of each span, is read as `string` with `SENTINEL` at both ends of each range.
///
/// # Errors
///
/// If allocation fails.
fn is_confirmed(
    alloc: Global,
    source: &str,
    token: &Range<usize>,
    scalar: Scalar,
    string: &str,
    found: &AllFound,
) -> Result<bool, AllocError>
    ensures { IfOk result (λ is. IsTrue is
        → AreInOrder token.now.start found.now.places.items token.now.end
        × AreInOrder 0 found.now.short.items (length string.now)
        × (value_of scalar.style scalar.indent
        (with_sentinels source.now token.now.start found.now.places.items token.now.end)
        ≡ Some (with_sentinels string.now 0 found.now.short.items (length string.now)))) }
{
    let (start, end) = (token.start, token.end);
    let Some(marked) = with_sentinels(alloc, source.as_bytes(), start, &found.places, end)? else {
        return Ok(false);
    };
    let Some(wanted) = with_sentinels(alloc, string.as_bytes(), 0, &found.short, string.len())?
    else {
        return Ok(false);
    };
    match value_of(alloc, scalar.style, scalar.indent, &marked)? {
        Some(value) => Ok(value.as_slice() == wanted.as_slice()),
        None => Ok(false),
    }
}

/// Returns the byte range in `source` that spells a range of one of its strings.
///
/// `source` is a text of YAML. `token` is the byte range in `source` of the string's token with its quotes,
/// as [`strings`](crate::strings) returns it. `range` is in byte offsets of the string. The result begins
/// where the first character of the range is spelled, after the indentation of the line, and ends after the
/// last character. If a line break spells the end of `range`, the result ends before the line break.
///
/// The result is `None` if no value's token is at `token`, or if the range:
///
/// - begins or ends within a character;
/// - ends past the string's end;
/// - begins within a line break;
/// - ends before it begins.
///
/// # Errors
///
/// If allocation fails.
pub fn place_in(
    alloc: Global,
    source: &str,
    token: Range<usize>,
    range: Range<usize>,
) -> Result<Option<Range<usize>>, AllocError>
    ensures place { IfOk result (λ place. IfSome place (IsPlaceIn source.now token range)) }
{
    let mut finder = RangeFinder::new(alloc, source)?;
    finder.find_one(alloc, source, token, range)
}

/// Returns the byte ranges in `source` that spell `ranges` of one of its strings.
///
/// `source` is a text of YAML. `token` is the byte range in `source` of the string's token with its quotes.
/// `ranges` are in byte offsets of the string, in order and without overlaps. For each range the result is
/// that of [`place_in`], but the token is read only once. The result is `None` if [`place_in`] returns `None`
/// for a range, or if ranges overlap. For several strings of a text, use a [`RangeFinder`], which reads the
/// text once.
///
/// # Errors
///
/// If allocation fails.
pub fn places_in(
    alloc: Global,
    source: &str,
    token: Range<usize>,
    ranges: &[Range<usize>],
) -> Result<Option<Vec<Range<usize>>>, AllocError>
    ensures places { IfOk result (λ places. IfSome places
        (λ places. ArePlacesIn source.now token ranges.now places.items)) }
{
    let mut finder = RangeFinder::new(alloc, source)?;
    finder.find(alloc, source, token, ranges)
}

//! Common mistakes in JSON and TOML, recognized by the text or by the reader's message.

ghost use Rattle.std.specs.Prelude.{◌≡◌, ◌<◌, ◌↔◌, IfOk, IfSome, IsSome, IsTrue, drop, length, slice_index};
ghost use Rattle.std.specs.Str.{IsCharBoundary};
ghost use Rattle.json.specs.Json.{document};
ghost use Rattle.subst_expander.specs.Mistakes.{after_first, bracket_past, does_close, does_open, half_at, half_by, is_lone_at, is_surrogate_at, last_of, lone_at, mistake_at, mistake_of_toml, part_after, unread_at};
ghost use Rattle.subst_expander.specs.declared.document.mistake.Part.TheVariants as parts;

use super::format::Unfilled;
use crate::fault::Cause;
use json::{Scratch, is_valid};
use std::alloc::{AllocError, Global};
use std::fmt;
use subst::json::ReaderStop;

/// The most levels of arrays and objects that the reader of JSON accepts.
const LEVELS: u8 = 127;

/// The most levels of arrays and inline tables that the reader of TOML accepts, and the most parts of a key.
const TOML_LEVELS: u8 = 80;

/// The general message of the reader of JSON, which states no reason.
const INVALID: &str = "invalid JSON";

/// The message of the reader of TOML at one level too many.
const TOO_DEEP: &str = "cannot recurse further; max recursion depth met";

/// A mistake because of which a text isn't a document.
#[derive(Clone, Copy, PartialEq, Eq)]
pub enum Mistake {
    /// A comma before the bracket that closes an array or object.
    TrailingComma,
    /// A comment in JSON.
    Comment,
    /// A variable outside a string.
    Variable,
    /// Text after the document.
    SecondDocument,
    /// One half of a surrogate pair without the other.
    LoneSurrogate,
    /// More levels of nesting than this number.
    TooDeep(u8),
}

impl fmt::Display for Mistake {
    fn fmt<W: fmt::Write>(&self, f: &mut fmt::Formatter<W>) -> fmt::Result {
        match self {
            Mistake::TrailingComma => f.write_str("a trailing comma"),
            Mistake::Comment => f.write_str("a comment"),
            Mistake::Variable => f.write_str("a variable outside a string"),
            Mistake::SecondDocument => f.write_str("a second document"),
            Mistake::LoneSurrogate => f.write_str("a lone surrogate"),
            Mistake::TooDeep(levels) => write!(f, "nested deeper than {levels} levels"),
        }
    }
}

/// Returns the reason why a text isn't JSON: a known mistake, or else the message of the reader's stop.
///
/// # Errors
///
/// If allocation fails.
pub fn unread(alloc: Global, text: &str, stop: ReaderStop) -> Result<Unfilled, AllocError>
    requires { IsCharBoundary text.now stop.offset }
    ensures { IfOk result (λ why. why ≡ unread_at text.now stop) }
{
    let (before, rest) = text.split_at(stop.offset);
    if stop.message.as_str() == INVALID {
        let is_document = is_document(alloc, before)?;
        if let Some((mistake, offset)) = find(before.as_bytes(), rest.as_bytes(), is_document) {
            return Ok(Unfilled::Unread(offset..offset, Cause::Mistake(mistake)));
        }
    }
    let ReaderStop {
        offset,
        message,
        ..
    } = stop;
    Ok(Unfilled::Unread(offset..offset, Cause::NotADocument(message)))
}

/// Returns whether a text is a JSON document.
fn is_document(alloc: Global, text: &str) -> Result<bool, AllocError>
    ensures { IfOk result (λ is. IsTrue is ↔ IsSome (document text.now)) }
{
    is_valid(text, &mut Scratch::new(alloc))
}

/// Returns the mistake for which the reader of JSON stopped between `before` and `rest`, and its byte offset.
/// Returns `None` if no mistake is known. `is_document` is whether `before` is a JSON document.
fn find(before: &[u8], rest: &[u8], is_document: bool) -> Option<(Mistake, usize)>
    ensures { result ≡ mistake_at before.now rest.now is_document }
{
    let offset = before.len();
    if let Some(bracket) = past_levels(before) {
        return Some((Mistake::TooDeep(LEVELS), bracket));
    }
    let first = byte_at(rest, 0);
    if first == b'/' && (byte_at(rest, 1) == b'/' || byte_at(rest, 1) == b'*') {
        Some((Mistake::Comment, offset))
    } else if first == b'$' {
        Some((Mistake::Variable, offset))
    } else if (first == b']' || first == b'}') && last_byte(before) == b',' {
        Some((Mistake::TrailingComma, offset))
    } else if is_document && !rest.is_empty() {
        Some((Mistake::SecondDocument, offset))
    } else if first == b'"' {
        let half = lone_surrogate(rest)?;
        Some((Mistake::LoneSurrogate, offset + half))
    } else {
        None
    }
}

/// Returns the mistake that a message of the reader of TOML states, or `None` if no mistake is known.
pub fn of_toml(message: &str) -> Option<Mistake>
    ensures { result ≡ mistake_of_toml message.now }
{
    if message == TOO_DEEP {
        Some(Mistake::TooDeep(TOML_LEVELS))
    } else {
        None
    }
}

/// Returns the byte at an index, or 0 if there is none.
fn byte_at(bytes: &[u8], index: usize) -> u8
    ensures { result ≡ slice_index bytes.now index }
{
    match bytes.get(index) {
        Some(byte) => *byte,
        None => 0,
    }
}

/// Returns the last byte that isn't white space, or 0 if there is none.
fn last_byte(bytes: &[u8]) -> u8
    ensures { result ≡ last_of 0 bytes.now }
{
    let mut last = 0;
    for byte in bytes {
        if !byte.is_ascii_whitespace() {
            last = *byte;
        }
    }
    last
}

/// The part of JSON that a byte is in.
#[derive(Clone, Copy, PartialEq, Eq)]
enum Part {
    /// Outside of strings.
    Outside,
    /// In a string.
    Inside,
    /// In a string, directly after the backslash that begins an escape.
    Escaped,
}

impl Part {
    /// Returns the part that the byte after `byte` is in. The part of `byte` itself is `self`.
    fn after(self, byte: u8) -> Part
        ensures { result ≡ part_after self byte }
    {
        match self {
            Part::Outside if byte == b'"' => Part::Inside,
            Part::Outside => Part::Outside,
            Part::Inside if byte == b'"' => Part::Outside,
            Part::Inside if byte == b'\\' => Part::Escaped,
            Part::Inside | Part::Escaped => Part::Inside,
        }
    }

    /// Returns whether a byte in this part opens an array or object.
    fn opens(self, byte: u8) -> bool
        ensures { result ≡ does_open self byte }
    {
        matches!(self, Part::Outside) && (byte == b'[' || byte == b'{')
    }

    /// Returns whether a byte in this part closes an array or object.
    fn closes(self, byte: u8) -> bool
        ensures { result ≡ does_close self byte }
    {
        matches!(self, Part::Outside) && (byte == b']' || byte == b'}')
    }
}

/// Returns the index of the first bracket that opens one level more than [`LEVELS`], or `None` if none does.
fn past_levels(bytes: &[u8]) -> Option<usize>
    ensures { result ≡ bracket_past 0 parts.Outside 0 bytes.now }
{
    let mut part = Part::Outside;
    let mut depth = 0u8;
    for at in 0..bytes.len() {
        let byte = bytes[at];
        if part.opens(byte) {
            if depth == LEVELS {
                return Some(at);
            }
            depth += 1;
        } else if part.closes(byte) {
            depth = depth.saturating_sub(1);
        } else {
            part = part.after(byte);
        }
    }
    None
}

/// A half of a surrogate pair.
#[derive(Clone, Copy, PartialEq, Eq)]
enum SurrogateHalf {
    First,
    Second,
}

/// Returns which half of a surrogate pair is escaped at the start of the bytes, or `None` if neither is.
fn half_of(bytes: &[u8]) -> Option<SurrogateHalf>
    ensures { result ≡ half_at bytes.now }
{
    if is_surrogate(bytes) {
        half_of_digit(byte_at(bytes, 3))
    } else {
        None
    }
}

/// Returns whether bytes begin with `\uD` or `\ud`, then any byte, then two hexadecimal digits.
fn is_surrogate(bytes: &[u8]) -> bool
    ensures { result ≡ is_surrogate_at bytes.now }
{
    let digit = byte_at(bytes, 2);
    byte_at(bytes, 0) == b'\\'
        && byte_at(bytes, 1) == b'u'
        && (digit == b'd' || digit == b'D')
        && byte_at(bytes, 4).is_ascii_hexdigit()
        && byte_at(bytes, 5).is_ascii_hexdigit()
}

/// Returns the half of a surrogate pair, by the second digit of its escape (the 8 of `\ud800`). Returns
/// `None` if neither half's escape has this second digit.
fn half_of_digit(digit: u8) -> Option<SurrogateHalf>
    ensures { result ≡ half_by digit }
{
    match digit {
        b'8' | b'9' | b'a' | b'b' | b'A' | b'B' => Some(SurrogateHalf::First),
        b'c'..=b'f' | b'C'..=b'F' => Some(SurrogateHalf::Second),
        _ => None,
    }
}

/// Returns the bytes after the first six, or none if there are fewer. An escape such as `\ud800` has six
/// bytes.
fn after_escape(bytes: &[u8]) -> &[u8]
    ensures { result.now ≡ drop 6 bytes.now }
{
    match bytes.split_at_checked(6) {
        Some((_, after)) => after,
        None => &[],
    }
}

/// Returns whether bytes begin with the escape of a lone surrogate: a second half, or a first half that no
/// second half follows.
fn is_lone(bytes: &[u8]) -> bool
    ensures { result ≡ is_lone_at bytes.now }
{
    match half_of(bytes) {
        None => false,
        Some(SurrogateHalf::Second) => true,
        Some(SurrogateHalf::First) => half_of(after_escape(bytes)) != Some(SurrogateHalf::Second),
    }
}

/// Returns how many bytes to skip after the first: 11 for a surrogate pair, 1 for another escape, or else 0.
/// The bytes don't begin with a lone surrogate.
fn bytes_after(bytes: &[u8]) -> u8
    ensures { result ≡ after_first bytes.now }
{
    if byte_at(bytes, 0) != b'\\' {
        0
    } else if half_of(bytes) == Some(SurrogateHalf::First) {
        11
    } else {
        1
    }
}

/// Returns the index of the first lone surrogate (half a pair without the other half), or `None` if there is
/// none. `string` begins with its opening quote.
fn lone_surrogate(string: &[u8]) -> Option<usize>
    ensures value { result ≡ lone_at 0 1 string.now }
    ensures bound { IfSome result (λ at. at < length string.now) }
{
    let mut to_skip = 1u8;
    for at in 0..string.len() {
        let rest = &string[at..];
        if to_skip > 0 {
            to_skip -= 1;
        } else if byte_at(rest, 0) == b'"' {
            return None;
        } else if is_lone(rest) {
            return Some(at);
        } else {
            to_skip = bytes_after(rest);
        }
    }
    None
}

//! The tokens of a JSON text, with their spans.

ghost use Rattle.std.specs.Prelude.{◌≡◌, [], ◌∷◌, IfOk, IfSome, IsTrue, MatchOption, string_bytes};
ghost use Rattle.std.specs.List.{list_all};
ghost use Rattle.json.specs.Lex.{tokens};
ghost use Rattle.json.specs.Reads.{token_of};
ghost use Rattle.subst_error.specs.ErrorFault.{error_fault};
ghost use Rattle.subst_language.specs.Calls.Outcome.{OnFault};
ghost use Rattle.subst_language.specs.Language.Several.{GivesBy, RefusesFirst};
ghost use Rattle.subst_document.specs.Stays.{AreValues, SomeChanges, StatesChange};
ghost use Rattle.subst_document.specs.Texts.{HasRange};
ghost use Rattle.subst_json.specs.Filled.{is_plain, strings_of_token, strings_in, IsFilledJson, IsPartOf, IsStringToken};

use crate::places::{reads_as, spans_of};
use json::{Reader, Scratch, Token, Writer};
use serde_json::Value;
use std::alloc::{AllocError, Global};
use std::ops::Range;
use std::str::from_utf8;
use subst_document::{Content, Fill, Filled, Part, Spelled, StringFormat, Strings};
use subst_error::Error;

/// The string format of JSON.
#[derive(Drop)]
pub(crate) struct JsonStrings {
    scratch: Scratch,
}

impl JsonStrings {
    pub(crate) fn new(alloc: Global) -> JsonStrings {
        JsonStrings {
            scratch: Scratch::new(alloc),
        }
    }

    /// Returns the string that a token spells, or `None` if the token isn't a string between quotes.
    ///
    /// # Errors
    ///
    /// If allocation fails.
    pub(crate) fn read<'s>(&'s mut self, token: &'s str) -> Result<Option<&'s str>, AllocError>
        ensures { IfOk result
            (λ read. IfSome read (λ string. IsStringToken token.now string.now)) }
    {
        let [b'"', .., b'"'] = token.as_bytes() else {
            return Ok(None);
        };
        let mut reader = Reader::new(token, &mut self.scratch)?;
        let Some(Token::String(string)) = reader.next() else {
            return Ok(None);
        };
        if reader.next().is_none() {
            Ok(Some(string))
        } else {
            Ok(None)
        }
    }
}

impl StringFormat for JsonStrings {
    ghost is_token = { IsStringToken };

    ghost is_part = { IsPartOf };

    // Every value fits every token, since a JSON string can have escapes.
    ghost is_fit = { λ _ _. Unit {0} };

    fn spells(&mut self, alloc: Global, token: &str, text: &str) -> Result<bool, AllocError> {
        if is_verbatim(token, text) {
            return Ok(true);
        }
        match self.read(token)? {
            Some(read) => Ok(read == text),
            None => Ok(false),
        }
    }

    fn spells_part(
        &mut self,
        alloc: Global,
        token: &str,
        piece: &str,
        part: &str,
    ) -> Result<bool, AllocError> {
        reads_as(alloc, self, piece, part)
    }

    fn fits(&self, token: &str, value: &str) -> bool {
        true
    }

    fn content(
        &mut self,
        alloc: Global,
        token: &str,
        text: &str,
        parts: &[Range<usize>],
    ) -> Result<Option<Content>, AllocError> {
        let (start, end) = (1, token.len().saturating_sub(1));
        if token.get(start..end) == Some(text) {
            let spans = None;
            return Ok(Some(Content { start, end, spans }));
        }
        let spans = spans_of(alloc, self, token, text, parts)?;
        Ok(spans.map(|spans| Content {
            start,
            end,
            spans: Some(spans),
        }))
    }

    fn write_value(
        &mut self,
        alloc: Global,
        token: &str,
        value: &str,
        output: &mut String,
    ) -> Result<bool, AllocError> {
        if are_unescaped(value.as_bytes()) {
            output.push_str(value)?;
            return Ok(true);
        }
        let capacity = value.len().saturating_add(8);
        let mut writer = Writer::new(Vec::with_capacity(alloc, capacity)?);
        writer.string(value)?;
        let quoted = writer.into_inner();
        let spelled = from_utf8(&quoted).unwrap_or("");
        let Some(spelled) = spelled.get(1..quoted.len().saturating_sub(1)) else {
            return Ok(false);
        };
        output.push_str(spelled)?;
        Ok(true)
    }

    fn write_line_end(&mut self, output: &mut String) -> Result<bool, AllocError> {
        Ok(false)
    }

    fn write(
        &mut self,
        alloc: Global,
        token: &str,
        parts: &[Part<'_>],
    ) -> Result<String, AllocError> {
        let mut value = String::new(alloc);
        for part in parts {
            match part {
                Part::Own(text) | Part::Value(text) => value.push_str(text)?,
            }
        }
        Value::String(value).to_string(alloc)
    }
}

/// Returns whether `text` needs no escapes and `token` is `text` between quotes.
fn is_verbatim(token: &str, text: &str) -> bool
    ensures { IsTrue result → IsStringToken token.now text.now }
{
    let [b'"', content @ .., b'"'] = token.as_bytes() else {
        return false;
    };
    content == text.as_bytes() && are_unescaped(content)
}

/// Returns whether none of these bytes has to be escaped in a string.
fn are_unescaped(bytes: &[u8]) -> bool
    ensures { result ≡ list_all is_plain bytes.now }
{
    // The loop has no early exit, so that it can be vectorized.
    let mut are = true;
    for byte in bytes {
        are &= is_unescaped(*byte);
    }
    are
}

/// Returns whether a byte need not be escaped in a string.
fn is_unescaped(byte: u8) -> bool
    ensures { result ≡ is_plain byte }
{
    byte >= b' ' && byte != b'"' && byte != b'\\'
}

/// An iterator over the strings of a text.
#[derive(Drop)]
pub(crate) struct JsonTokens<'t> {
    reader: Reader<'t>,
    source: &'t str,
    /// The byte offset of the next token.
    start: usize,
}

impl<'t> JsonTokens<'t> {
    /// Creates an iterator over the strings of a text.
    ///
    /// # Errors
    ///
    /// If allocation fails.
    pub(crate) fn new(
        source: &'t str,
        scratch: &'t mut Scratch,
    ) -> Result<JsonTokens<'t>, AllocError>
        ensures { IfOk result (λ it. it.reader ≡ tokens source.now) }
    {
        let reader = Reader::new(source, scratch)?;
        let start = reader.offset();
        Ok(JsonTokens {
            reader,
            source,
            start,
        })
    }
}

impl<'t> Strings<'t> for JsonTokens<'t> {
    ghost left = { λ it. strings_in it.reader };

    fn next(&mut self) -> Option<Spelled<'t>> {
        while let Some(token) = self.reader.next() {
            let start = self.start;
            self.start = self.reader.offset();
            if let Some(text) = string_of(token) {
                let span = span_in(self.source, start..self.start);
                return Some(Spelled {
                    text,
                    start: span.start,
                    end: span.end,
                });
            }
        }
        None
    }
}

/// Returns the string of a token, or `None` if the token isn't a string. A key is no string here.
fn string_of<'t>(token: Token<'t>) -> Option<&'t str>
    ensures { MatchOption result (strings_of_token (token_of token.entry) ≡ [])
        (λ text. strings_of_token (token_of token.entry) ≡ text.now ∷ []) }
{
    match token {
        Token::String(text) => Some(text),
        Token::BeginObject
        | Token::EndObject
        | Token::BeginArray
        | Token::EndArray
        | Token::Key(_)
        | Token::Number(_)
        | Token::Bool(_)
        | Token::Null
        | Token::Bad => None,
    }
}

/// Returns a text with its strings filled in. Returns `None` if a string that changes isn't spelled at its
/// span, or if no token for its new value is found. Doesn't check that the text is JSON.
///
/// # Errors
///
/// If a string is refused, the error of the first such string. `OutOfMemory` if allocation fails.
pub(crate) fn filled_in<F: Fill>(
    alloc: Global,
    source: &str,
    filler: &F,
) -> Result<Option<Filled>, Error>
    ensures ok { IfOk result (λ filled. IfSome filled (λ filled. IsFilledJson
        (GivesBy (F.answers filler.now)) source.now (string_bytes filled.text))) }
    ensures changed { IfOk result (λ filled. MatchOption filled
        (SomeChanges (GivesBy (F.answers filler.now)) (strings_in (tokens source.now)))
        (λ filled. StatesChange (GivesBy (F.answers filler.now)) (strings_in (tokens source.now))
        source.now (string_bytes filled.text) filled.is_changed)) }
    ensures values { IfOk result (λ filled. IfSome filled
        (λ filled. AreValues (GivesBy (F.answers filler.now)) 0 (strings_in (tokens source.now))
        filled.values.list.items (string_bytes filled.values.text))) }
    ensures err { OnFault error_fault result
        (RefusesFirst (F.answers filler.now) (strings_in (tokens source.now))) }
    ensures range { OnFault error_fault result HasRange }
{
    let mut scratch = Scratch::new(alloc);
    let mut format = JsonStrings::new(alloc);
    let mut strings = JsonTokens::new(source, &mut scratch)?;
    subst_document::filled_in(alloc, source, &mut strings, &mut format, filler, true)
}

/// Returns the byte range of the string at the start of `place`, up to the last quote in `place`. White space
/// and a comma may follow the string, since `place` ends at the next token.
pub(crate) fn span_in(text: &str, place: Range<usize>) -> Range<usize> {
    let passed = text.get(..place.end).unwrap_or("");
    let end = passed.rfind('"').map_or(0, |last| last + 1);
    place.start..end
}

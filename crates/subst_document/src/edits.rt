//! The strings of a text, how a format spells them, and filling in one of them in place.

ghost use Rattle.std.specs.Prelude.{◌≡◌, ◌≤◌, ◌++◌, ◌-◌, ◌∷◌, [], ℕ, List, IfOk, IfSome, IsTrue, OnOk, length, option_map, slice_range, string_bytes};
ghost use Rattle.subst_error.specs.ErrorFault.{error_fault};
ghost use Rattle.subst_language.specs.Calls.Outcome.{OnFault};
ghost use Rattle.subst_language.specs.Language.Answer.{Refuses};
ghost use Rattle.subst_language.specs.Language.Several.{GivesBy};
ghost use Rattle.subst_document.specs.Edits.{IsChanged, IsStringOutcome, AreSpelled};
ghost use Rattle.subst_error.specs.Range.{IsRangeIn};
ghost use Rattle.subst_document.specs.Texts.{HasRange};

use crate::Fill;
use crate::splice::{ChangedString, Content, Part, new_token};
use std::alloc::{AllocError, Global};
use std::ops::Range;
use subst_error::Error;

/// A string of a text, with its span.
#[derive(Debug, Drop)]
pub struct StringAt {
    /// The string as it is read: decoded, without quotes.
    pub text: String,
    /// The byte range of the string's token in the document, with the quotes.
    pub span: Range<usize>,
}

/// A refused string of a text, with its path and span.
#[derive(Debug, Drop)]
pub struct RefusalAt<P> {
    /// The path to the string. Members with equal keys have equal paths.
    pub path: P,
    /// The string as it is read: decoded, without quotes.
    pub text: String,
    /// The byte range of the string's token in the document, with the quotes.
    pub span: Range<usize>,
    /// The error of the string, never `OutOfMemory`. Positions are byte offsets in the string.
    pub error: Error,
}

/// The spelling of strings in a format. A token is the spelling of a string in a text, with the quotes.
pub trait StringFormat {
    // Whether a token (the first text) spells a string (the second).
    ghost is_token: { List ℕ → List ℕ → Type 0 };

    // Whether a piece (the second text) of a token (the first) is read as a part (the third) of the string.
    ghost is_part: { List ℕ → List ℕ → List ℕ → Type 0 };

    // Whether the kind of a token (the first text), such as its quotes, can spell a value (the second).
    ghost is_fit: { List ℕ → List ℕ → Type 0 };

    /// Returns whether `token` spells the string `text`.
    fn spells(&mut self, alloc: Global, token: &str, text: &str) -> Result<bool, AllocError>
        ensures { IfOk result (λ is. IsTrue is → is_token token.now text.now) };

    /// Returns whether `piece` of a token is read as `part` of the token's string.
    fn spells_part(
        &mut self,
        alloc: Global,
        token: &str,
        piece: &str,
        part: &str,
    ) -> Result<bool, AllocError>
        ensures { IfOk result (λ is. IsTrue is → is_part token.now piece.now part.now) };

    /// Returns whether the kind of `token`, such as its quotes, can spell `value`.
    fn fits(&self, token: &str, value: &str) -> bool
        ensures { is_fit token.now value.now → IsTrue result };

    /// Finds the content of `token`, and the spans in `token` that spell `parts`. `token` spells `text`, and
    /// `parts` are byte ranges of `text`. Returns `None` if the content or a span isn't found.
    fn content(
        &mut self,
        alloc: Global,
        token: &str,
        text: &str,
        parts: &[Range<usize>],
    ) -> Result<Option<Content>, AllocError>;

    /// Appends `value`, spelled in the kind of `token`, but without the quotes. Returns `false` if the kind
    /// can't spell it.
    fn write_value(
        &mut self,
        alloc: Global,
        token: &str,
        value: &str,
        output: &mut String,
    ) -> Result<bool, AllocError>
        ensures { IfOk result (λ is. IsTrue is → (spelled : List ℕ)
            × (string_bytes output.new ≡ string_bytes output.old ++ spelled)) };

    /// Appends a line end. If it directly follows the opening quotes, it is no part of the string. Returns
    /// `false` if the format has no such line end.
    fn write_line_end(&mut self, output: &mut String) -> Result<bool, AllocError>
        ensures { IfOk result (λ is. IsTrue is → (spelled : List ℕ)
            × (string_bytes output.new ≡ string_bytes output.old ++ spelled)) };

    /// Returns the token that replaces `token`: it spells all `parts`, in a kind that can spell every string.
    fn write(
        &mut self,
        alloc: Global,
        token: &str,
        parts: &[Part<'_>],
    ) -> Result<String, AllocError>;
}

/// A text, cut before and after a part of it.
#[derive(Clone, Copy)]
pub struct Cut<'t> {
    /// The text before the part.
    pub before: &'t str,
    /// The part.
    pub token: &'t str,
    /// The text after the part.
    pub rest: &'t str,
}

/// Cuts a text before and after a byte range, or returns `None` if the text has no such range.
pub fn cut_round<'t>(text: &'t str, range: &Range<usize>) -> Option<Cut<'t>>
    ensures { IfSome result (λ cut. (text.now ≡ cut.before.now ++ (cut.token.now ++ cut.rest.now))
        × (length cut.before.now ≡ range.now.start)
        × (length cut.token.now ≡ range.now.end - range.now.start)) }
{
    let len = range.end.checked_sub(range.start)?;
    let (before, from_token) = text.split_at_checked(range.start)?;
    let (token, rest) = from_token.split_at_checked(len)?;
    Some(Cut {
        before,
        token,
        rest,
    })
}

/// Returns the new value of a string, or `None` if it is unchanged.
///
/// # Errors
///
/// The fault of a refused string. `OutOfMemory` if allocation fails.
pub fn changed<F: Fill>(alloc: Global, text: &str, filler: &F) -> Result<Option<String>, Error>
    ensures ok { IfOk result (λ changed. IsChanged (GivesBy (F.answers filler.now)) text.now
        (option_map (λ value. string_bytes value) changed)) }
    ensures err { OnFault error_fault result (λ f. F.answers filler.now text.now (Refuses f)) }
    ensures range { OnFault error_fault result HasRange }
{
    if filler.needs_no_filling(text) {
        return Ok(None);
    }
    let value = filler.fill(alloc, text)?;
    if value.as_str() == text {
        Ok(None)
    } else {
        Ok(Some(value))
    }
}

/// The outcome of filling in a string of a text.
#[derive(Drop)]
pub enum StringOutcome<'t> {
    /// The string is unchanged. Nothing is appended to the output.
    Unchanged,
    /// The string's new value, and the rest of the text after its old token.
    Changed(String, &'t str),
    /// The string changes, but isn't spelled at its span, or no token for its new value is found.
    NotFound,
}

/// Fills in the string `text`. `rest` is the end of a document, and `token` the byte range in `rest` that
/// spells the string. If the string changes, appends to `output` the bytes of `rest` before that range, and
/// then a new token.
///
/// # Errors
///
/// The fault of a refused string. `OutOfMemory` if allocation fails.
pub fn fill_in_string<'t, S: StringFormat, F: Fill>(
    alloc: Global,
    rest: &'t str,
    token: &Range<usize>,
    text: &str,
    format: &mut S,
    filler: &F,
    output: &mut String,
) -> Result<StringOutcome<'t>, Error>
    ensures outcome { IfOk result (λ outcome. IsStringOutcome S.is_token S.is_part S.is_fit
        (GivesBy (F.answers filler.now)) text.now rest.now (string_bytes output.old)
        (string_bytes output.new) outcome) }
    ensures err { OnFault error_fault result (λ f. F.answers filler.now text.now (Refuses f)) }
    ensures range { OnFault error_fault result HasRange }
{
    let Some(value) = changed(alloc, text, filler)? else {
        return Ok(StringOutcome::Unchanged);
    };
    let Some(cut) = cut_round(rest, token) else {
        return Ok(StringOutcome::NotFound);
    };
    if !format.spells(alloc, cut.token, text)? {
        return Ok(StringOutcome::NotFound);
    }
    let change = ChangedString {
        token: cut.token,
        text,
        value: value.as_str(),
    };
    let Some(token) = new_token(alloc, change, format, filler)? else {
        return Ok(StringOutcome::NotFound);
    };
    push_both(output, cut.before, token.as_str())?;
    Ok(StringOutcome::Changed(value, cut.rest))
}

/// Appends `before` and then `token`.
///
/// # Errors
///
/// If allocation fails.
fn push_both(output: &mut String, before: &str, token: &str) -> Result<(), AllocError>
    ensures { OnOk result
        (string_bytes output.new ≡ string_bytes output.old ++ (before.now ++ token.now)) }
{
    output.push_str(before)?;
    output.push_str(token)
}

/// Returns `text` with `span`, or `None` if `span` begins before `from`, or if `source` doesn't spell `text`
/// at `span`.
///
/// # Errors
///
/// If allocation fails.
pub fn string_at<S: StringFormat>(
    alloc: Global,
    source: &str,
    from: usize,
    span: Range<usize>,
    text: &str,
    format: &mut S,
) -> Result<Option<StringAt>, AllocError>
    ensures { IfOk result (λ it. IfSome it (λ it. (string_bytes it.text ≡ text.now)
        × (it.span ≡ span) × AreSpelled S.is_token source.now from (it ∷ []))) }
{
    if span.start < from {
        return Ok(None);
    }
    let Some(token) = slice(source, &span) else {
        return Ok(None);
    };
    if !format.spells(alloc, token, text)? {
        return Ok(None);
    }
    let text = String::from_str(alloc, text)?;
    Ok(Some(StringAt { text, span }))
}

/// Returns the part of a text in a byte range, or `None` if the text has no such range.
pub fn slice<'t>(text: &'t str, range: &Range<usize>) -> Option<&'t str>
    ensures { IfSome result
        (λ part. IsRangeIn text.now range.now × (range.now.start ≤ range.now.end)
        × (part.now ≡ slice_range text.now range.now.start range.now.end)) }
{
    let (start, end) = (range.start, range.end);
    let within = start <= end && text.is_char_boundary(start) && text.is_char_boundary(end);
    if within {
        Some(&text[start..end])
    } else {
        None
    }
}

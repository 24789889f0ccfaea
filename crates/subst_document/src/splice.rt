//! New tokens of strings that change. If possible, the kind of the old token, such as its quotes, is kept,
//! and only placeholders are rewritten.

ghost use Rattle.std.specs.Prelude.{◌≡◌, ◌⊎◌, ◌++◌, ℕ, List, IfOk, IfSome, IsTrue, string_bytes};
ghost use Rattle.subst_language.specs.Language.Several.{GivesBy};
ghost use Rattle.subst_document.specs.Splice.{AppendsPieces, DoesntFit, IsMoreThanParts, IsRespelled, IsSpliced};
ghost use Rattle.subst_document.specs.declared.splice.Values.TheVariants.{Joined};

use crate::Fill;
use crate::edits::{Cut, StringFormat, changed, cut_round};
use crate::placeholder::{is_placeholder, only_placeholder, placeholders};
use std::alloc::{AllocError, Global};
use std::ops::Range;
use subst_error::Error;

/// A string that changes.
#[derive(Clone, Copy)]
pub(crate) struct ChangedString<'s> {
    /// The token of the string.
    pub token: &'s str,
    /// The string as it is read: decoded, without quotes.
    pub text: &'s str,
    /// The new value of the string.
    pub value: &'s str,
}

/// The content of a token and the placeholders in it, by byte offsets in the token.
#[derive(Drop)]
pub struct Content {
    /// The start of the content, after the opening quotes.
    pub start: usize,
    /// The end of the content, before the closing quotes.
    pub end: usize,
    /// The spans of the placeholders, or `None` if the content is the string itself, without escapes.
    pub spans: Option<Vec<Range<usize>>>,
}

/// A part of a string's new value. `StringFormat::write` makes a new token from such parts.
#[derive(Clone, Copy)]
pub enum Part<'s> {
    /// Text of the string itself.
    Own(&'s str),
    /// The value of a placeholder, or the new value of the whole string.
    Value(&'s str),
}

/// The values of the placeholders of a string.
#[derive(Drop)]
enum Values {
    /// The spans of the placeholders in the string, and of their values in the string's new value.
    Each(Vec<Range<usize>>, Vec<Range<usize>>),
    /// The outputs of the string's parts, joined, differ from the string's new value.
    Joined,
    /// Some part is refused if filled in by itself, or changes although it is no placeholder.
    Unknown,
}

/// Returns a new token for a string that changes, or `None` if no token is found that is read as the new
/// value. Placeholders are first looked for with backslashes as escapes. If the placeholders' values aren't
/// found, the search is repeated with backslashes as plain bytes, as in other tools' texts.
///
/// # Errors
///
/// If allocation fails.
pub(crate) fn new_token<S: StringFormat, F: Fill>(
    alloc: Global,
    change: ChangedString<'_>,
    format: &mut S,
    filler: &F,
) -> Result<Option<String>, AllocError>
    ensures token { IfOk result (λ new. IfSome new
        (λ new. S.is_token (string_bytes new) change.entry.value.now)) }
    ensures respelled { IfOk result (λ new. IfSome new
        (λ new. IsRespelled S.is_part S.is_fit (GivesBy (F.answers filler.now))
        change.entry.text.now change.entry.value.now change.entry.token.now
        (string_bytes new))) }
{
    if let Some(span) = only_placeholder(change.text)
        && let Some(value) = between(change, &span)
    {
        return token_of(alloc, change, &[span], &[value], format, filler);
    }
    match values_of(alloc, change, true, filler)? {
        Values::Each(spans, values) => token_of(alloc, change, &spans, &values, format, filler),
        Values::Joined => match values_of(alloc, change, false, filler)? {
            Values::Each(spans, values) => token_of(alloc, change, &spans, &values, format, filler),
            Values::Joined | Values::Unknown => token_of_value(alloc, change, format),
        },
        Values::Unknown => match values_of(alloc, change, false, filler)? {
            Values::Each(spans, values) => token_of(alloc, change, &spans, &values, format, filler),
            Values::Joined => token_of_value(alloc, change, format),
            Values::Unknown => Ok(None),
        },
    }
}

/// Returns a new token, as [`new_token`] does. If the placeholders' values fit the kind of the old token,
/// only the placeholders at `spans` are rewritten. `values` are the spans of these values in the string's new
/// value.
///
/// # Errors
///
/// If allocation fails.
fn token_of<S: StringFormat, F: Fill>(
    alloc: Global,
    change: ChangedString<'_>,
    spans: &[Range<usize>],
    values: &[Range<usize>],
    format: &mut S,
    filler: &F,
) -> Result<Option<String>, AllocError>
    ensures token { IfOk result (λ new. IfSome new
        (λ new. S.is_token (string_bytes new) change.entry.value.now)) }
    ensures respelled { IfOk result (λ new. IfSome new
        (λ new. IsRespelled S.is_part S.is_fit (GivesBy (F.answers filler.now))
        change.entry.text.now change.entry.value.now change.entry.token.now
        (string_bytes new))) }
{
    if let Some(new) = spliced(alloc, change, spans, values, false, format)?
        && format.spells(alloc, &new, change.value)?
    {
        return Ok(Some(new));
    }
    // A reader may drop a line end right after the opening quotes. This attempt adds another one before the
    // first value.
    if let Some(new) = spliced(alloc, change, spans, values, true, format)?
        && format.spells(alloc, new.as_str(), change.value)?
    {
        return Ok(Some(new));
    }
    if !has_misfit(alloc, change, spans, format, filler)? {
        return Ok(None);
    }
    let parts = parts_of(alloc, change, spans, values)?;
    token_of_parts(alloc, change, &parts, format)
}

/// Returns the values of the placeholders of a string. Unless `has_escapes`, a backslash is a plain byte.
///
/// # Errors
///
/// If allocation fails.
fn values_of<F: Fill>(
    alloc: Global,
    change: ChangedString<'_>,
    has_escapes: bool,
    filler: &F,
) -> Result<Values, AllocError>
    ensures { IfOk result (λ values. values ≡ Joined → IsMoreThanParts
        (GivesBy (F.answers filler.now)) change.entry.text.now change.entry.value.now) }
{
    let spans = placeholders(alloc, change.text, has_escapes)?;
    if let [only] = spans.as_slice()
        && let Some(value) = between(change, only)
    {
        let mut values = Vec::with_capacity(alloc, 1)?;
        values.push(value)?;
        return Ok(Values::Each(spans, values));
    }
    values_of_each(alloc, change, spans, filler)
}

/// Finds the value of a string's only placeholder, as a span of the string's new value. `span` is the
/// placeholder's span in the string. Returns `None` if the text around the placeholder changes.
fn between(change: ChangedString<'_>, span: &Range<usize>) -> Option<Range<usize>> {
    let after = change.text.get(span.end..)?;
    let value = change.value.strip_prefix(change.text.get(..span.start)?)?;
    let len = value.strip_suffix(after)?.len();
    Some(span.start..span.start.saturating_add(len))
}

/// Returns the values of the placeholders at `spans`. Each part of the string is filled in by itself.
fn values_of_each<F: Fill>(
    alloc: Global,
    change: ChangedString<'_>,
    spans: Vec<Range<usize>>,
    filler: &F,
) -> Result<Values, AllocError>
    ensures { IfOk result (λ values. values ≡ Joined → IsMoreThanParts
        (GivesBy (F.answers filler.now)) change.entry.text.now change.entry.value.now) }
{
    let mut values = Vec::with_capacity(alloc, spans.len())?;
    let mut joined = String::with_capacity(alloc, change.value.len())?;
    let mut rest = change.text;
    let mut stays = true;
    for span in spans.iter() {
        let Some(cut) = cut_round(rest, &moved(span, len_before(change.text, rest))) else {
            return Ok(Values::Unknown);
        };
        let Some(before) = append_output(alloc, cut.before, filler, &mut joined)? else {
            return Ok(Values::Unknown);
        };
        let Some(value) = append_output(alloc, cut.token, filler, &mut joined)? else {
            return Ok(Values::Unknown);
        };
        stays = stays && before.as_str() == cut.before;
        let end = joined.len();
        values.push(end.saturating_sub(value.len())..end)?;
        rest = cut.rest;
    }
    let Some(last) = append_output(alloc, rest, filler, &mut joined)? else {
        return Ok(Values::Unknown);
    };
    if joined.as_str() != change.value {
        Ok(Values::Joined)
    } else if stays && last.as_str() == rest {
        Ok(Values::Each(spans, values))
    } else {
        Ok(Values::Unknown)
    }
}

/// Returns the length of the part of `text` before `rest`, which is the end of `text`.
fn len_before(text: &str, rest: &str) -> usize {
    text.len().saturating_sub(rest.len())
}

/// Returns the output of `part` by itself, and appends it to `joined`. Returns `None` if `part` is refused.
///
/// # Errors
///
/// If allocation fails.
fn append_output<F: Fill>(
    alloc: Global,
    part: &str,
    filler: &F,
    joined: &mut String,
) -> Result<Option<String>, AllocError>
    ensures { IfOk result (λ output. IfSome output
        (λ output. GivesBy (F.answers filler.now) part.now (string_bytes output)
        × (string_bytes joined.new ≡ string_bytes joined.old ++ string_bytes output))) }
{
    let Some(output) = output_of(alloc, part, filler)? else {
        return Ok(None);
    };
    joined.push_str(&output)?;
    Ok(Some(output))
}

/// Returns the output of a part of a string, filled in by itself, or `None` if the part is refused.
///
/// # Errors
///
/// If allocation fails.
fn output_of<F: Fill>(alloc: Global, part: &str, filler: &F) -> Result<Option<String>, AllocError>
    ensures { IfOk result (λ output. IfSome output
        (λ output. GivesBy (F.answers filler.now) part.now (string_bytes output))) }
{
    match changed(alloc, part, filler) {
        Ok(Some(output)) => Ok(Some(output)),
        Ok(None) => Ok(Some(String::from_str(alloc, part)?)),
        Err(Error::OutOfMemory(e)) => Err(e),
        Err(_) => Ok(None),
    }
}

/// The value of a placeholder.
#[derive(Clone, Copy)]
struct Value<'s> {
    text: &'s str,
    /// Whether a line end that is no part of the string precedes the value.
    begins_line: bool,
}

/// The rest of a string, and of the content of its token, after the placeholders already replaced.
#[derive(Clone, Copy)]
struct Rest<'s> {
    text: &'s str,
    token: &'s str,
}

/// Returns the old token with each placeholder replaced by its value. Returns `None` if the token's kind
/// can't spell a value, or a piece of the token isn't read as its part of the string. If
/// `begins_line`, a line end precedes the first value.
///
/// # Errors
///
/// If allocation fails.
fn spliced<S: StringFormat>(
    alloc: Global,
    change: ChangedString<'_>,
    spans: &[Range<usize>],
    values: &[Range<usize>],
    begins_line: bool,
    format: &mut S,
) -> Result<Option<String>, AllocError>
    ensures { IfOk result (λ new. IfSome new
        (λ new. IsSpliced (S.is_part change.entry.token.now) change.entry.text.now
        change.entry.token.now (string_bytes new))) }
{
    let Some(content) = format.content(alloc, change.token, change.text, spans)? else {
        return Ok(None);
    };
    let Some(cut) = cut_round(change.token, &(content.start..content.end)) else {
        return Ok(None);
    };
    let capacity = change.token.len().saturating_add(change.value.len());
    let mut output = String::with_capacity(alloc, capacity)?;
    output.push_str(cut.before)?;
    let mut begins_line = begins_line;
    let mut rest = Rest {
        text: change.text,
        token: cut.token,
    };
    for (index, (range, value)) in spans.iter().zip(values.iter()).enumerate() {
        let range = moved(range, len_before(change.text, rest.text));
        let text = cut_round(rest.text, &range);
        let token = cut_content(&content, rest.token, index, &range);
        let value = change.value.get(value.start..value.end);
        let (Some(text), Some(token), Some(value)) = (text, token, value) else {
            return Ok(None);
        };
        let value = Value {
            text: value,
            begins_line,
        };
        if !append_placeholder(alloc, change.token, text, token, value, format, &mut output)? {
            return Ok(None);
        }
        begins_line = false;
        rest = Rest {
            text: text.rest,
            token: token.rest,
        };
    }
    if !append_piece(
        alloc,
        change.token,
        rest.text,
        rest.token,
        None,
        format,
        &mut output,
    )? {
        return Ok(None);
    }
    output.push_str(cut.rest)?;
    Ok(Some(output))
}

/// Cuts `rest`, the end of a token's content, before and after the placeholder with the index `index`. If the
/// content is the string itself, the placeholder is at `range` of `rest`. Returns `None` if the placeholder
/// isn't in `rest`.
fn cut_content<'s>(
    content: &Content,
    rest: &'s str,
    index: usize,
    range: &Range<usize>,
) -> Option<Cut<'s>>
    ensures { IfSome result
        (λ cut. rest.now ≡ cut.before.now ++ (cut.token.now ++ cut.rest.now)) }
{
    let Some(spans) = &content.spans else {
        return cut_round(rest, range);
    };
    let passed = content.end.saturating_sub(rest.len());
    let cut = cut_round(rest, &moved(spans.get(index)?, passed))?;
    Some(cut)
}

/// Returns the range, moved back by `by` bytes.
fn moved(range: &Range<usize>, by: usize) -> Range<usize> {
    range.start.saturating_sub(by)..range.end.saturating_sub(by)
}

/// Appends the piece of a token before a placeholder, and then the placeholder's value in the token's kind.
/// Returns `false` if [`append_piece`] does for the piece or for the value.
///
/// # Errors
///
/// If allocation fails.
fn append_placeholder<S: StringFormat>(
    alloc: Global,
    whole: &str,
    text: Cut<'_>,
    token: Cut<'_>,
    value: Value<'_>,
    format: &mut S,
    output: &mut String,
) -> Result<bool, AllocError>
    ensures { IfOk result (λ is. IsTrue is → AppendsPieces (S.is_part whole.now)
        (text.entry.before.now ++ text.entry.token.now)
        (token.entry.before.now ++ token.entry.token.now) (string_bytes output.old)
        (string_bytes output.new)) }
{
    if !append_piece(
        alloc,
        whole,
        text.before,
        token.before,
        None,
        format,
        output,
    )? {
        return Ok(false);
    }
    append_piece(
        alloc,
        whole,
        text.token,
        token.token,
        Some(value),
        format,
        output,
    )
}

/// Appends `before`, a piece of the token `whole`. If there is a `value`, appends the value instead. Returns
/// `false` if `before` isn't read as `text`, a part of the string. With a value, also returns `false` if
/// `text` is no placeholder, or if the kind of `whole` can't spell the value.
///
/// # Errors
///
/// If allocation fails.
fn append_piece<S: StringFormat>(
    alloc: Global,
    whole: &str,
    text: &str,
    before: &str,
    value: Option<Value<'_>>,
    format: &mut S,
    output: &mut String,
) -> Result<bool, AllocError>
    ensures { IfOk result (λ is. IsTrue is → AppendsPieces (S.is_part whole.now) text.now before.now
        (string_bytes output.old) (string_bytes output.new)) }
{
    if !is_read_as(alloc, whole, before, text, format)? {
        return Ok(false);
    }
    let Some(value) = value else {
        output.push_str(before)?;
        return Ok(true);
    };
    if !is_placeholder(text) {
        return Ok(false);
    }
    let is_written = append_value(alloc, whole, value, format, output)?;
    Ok(is_written)
}

/// Appends `value`, spelled in the kind of the token `whole`. If `value.begins_line`, a line end is appended
/// first. Returns `false` if the kind can't spell the value, or if the format can't write the line end.
///
/// # Errors
///
/// If allocation fails.
fn append_value<S: StringFormat>(
    alloc: Global,
    whole: &str,
    value: Value<'_>,
    format: &mut S,
    output: &mut String,
) -> Result<bool, AllocError>
    ensures { IfOk result (λ is. IsTrue is → (spelled : List ℕ)
        × (string_bytes output.new ≡ string_bytes output.old ++ spelled)) }
{
    if !value.begins_line {
        return format.write_value(alloc, whole, value.text, output);
    }
    if !format.write_line_end(output)? {
        return Ok(false);
    }
    let is_written = format.write_value(alloc, whole, value.text, output)?;
    Ok(is_written)
}

/// Returns whether `before`, a piece of the token `whole`, is `text` or is read as `text`.
///
/// # Errors
///
/// If allocation fails.
fn is_read_as<S: StringFormat>(
    alloc: Global,
    whole: &str,
    before: &str,
    text: &str,
    format: &mut S,
) -> Result<bool, AllocError>
    ensures { IfOk result (λ is. IsTrue is
        → (before.now ≡ text.now) ⊎ S.is_part whole.now before.now text.now) }
{
    if before == text {
        return Ok(true);
    }
    format.spells_part(alloc, whole, before, text)
}

/// Returns whether the token's kind can't spell the value of one of the placeholders at `spans`.
///
/// # Errors
///
/// If allocation fails.
fn has_misfit<S: StringFormat, F: Fill>(
    alloc: Global,
    change: ChangedString<'_>,
    spans: &[Range<usize>],
    format: &S,
    filler: &F,
) -> Result<bool, AllocError>
    ensures { IfOk result (λ has. IsTrue has → DoesntFit (S.is_fit change.entry.token.now)
        (GivesBy (F.answers filler.now)) change.entry.text.now) }
{
    for span in spans {
        if is_misfit(alloc, change, span, format, filler)? {
            return Ok(true);
        }
    }
    Ok(false)
}

/// Returns whether the token's kind can't spell the value of the placeholder at `span`.
fn is_misfit<S: StringFormat, F: Fill>(
    alloc: Global,
    change: ChangedString<'_>,
    span: &Range<usize>,
    format: &S,
    filler: &F,
) -> Result<bool, AllocError>
    ensures { IfOk result (λ has. IsTrue has → DoesntFit (S.is_fit change.entry.token.now)
        (GivesBy (F.answers filler.now)) change.entry.text.now) }
{
    let Some(cut) = cut_round(change.text, span) else {
        return Ok(false);
    };
    let Some(value) = output_of(alloc, cut.token, filler)? else {
        return Ok(false);
    };
    Ok(is_placeholder(cut.token) && !format.fits(change.token, value.as_str()))
}

/// Returns the parts of a string's new value: the string's own text, and the values of the placeholders at
/// `spans`.
///
/// # Errors
///
/// If allocation fails.
fn parts_of<'s>(
    alloc: Global,
    change: ChangedString<'s>,
    spans: &[Range<usize>],
    values: &[Range<usize>],
) -> Result<Vec<Part<'s>>, AllocError> {
    let mut parts = Vec::new(alloc);
    let mut passed = 0;
    for (span, value) in spans.iter().zip(values.iter()) {
        let own = change.text.get(passed..span.start);
        let value = change.value.get(value.start..value.end);
        parts.push(Part::Own(own.unwrap_or("")))?;
        parts.push(Part::Value(value.unwrap_or("")))?;
        passed = span.end;
    }
    parts.push(Part::Own(change.text.get(passed..).unwrap_or("")))?;
    Ok(parts)
}

/// Returns a new token, written from the whole new value, or `None` if the token isn't read as that value.
///
/// # Errors
///
/// If allocation fails.
fn token_of_value<S: StringFormat>(
    alloc: Global,
    change: ChangedString<'_>,
    format: &mut S,
) -> Result<Option<String>, AllocError>
    ensures { IfOk result (λ new. IfSome new
        (λ new. S.is_token (string_bytes new) change.entry.value.now)) }
{
    let parts = [Part::Value(change.value)];
    token_of_parts(alloc, change, &parts, format)
}

/// Makes a token of the new value from `parts`, in a kind that can spell them. Returns `None` if the token
/// isn't read as the new value.
///
/// # Errors
///
/// If allocation fails.
fn token_of_parts<S: StringFormat>(
    alloc: Global,
    change: ChangedString<'_>,
    parts: &[Part<'_>],
    format: &mut S,
) -> Result<Option<String>, AllocError>
    ensures { IfOk result (λ new. IfSome new
        (λ new. S.is_token (string_bytes new) change.entry.value.now)) }
{
    let new = format.write(alloc, change.token, parts)?;
    if format.spells(alloc, &new, change.value)? {
        Ok(Some(new))
    } else {
        Ok(None)
    }
}

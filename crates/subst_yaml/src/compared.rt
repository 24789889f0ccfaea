//! Compares the events of an output with those of its source, and the bytes between their tokens.

ghost use Rattle.std.specs.Prelude.{◌≡◌, drop, IfOk, IfSome, IsTrue, List, None, Ok, Some};
ghost use Rattle.subst_yaml_reader.specs.Stream.{to_come};
ghost use Rattle.subst_yaml_reader.specs.declared.event.Event.{Event};
ghost use Rattle.subst_yaml_reader.specs.declared.event.Event.TheVariants.{Value};
ghost use Rattle.subst_yaml.specs.Filled.{end_of, is_block, is_unblocked, rest_of_value, start_of, string_of, token_at, AreFilled, IsFilledEvent, IsFilledValue};
ghost use Rattle.subst_yaml.specs.InPlace.{IsFilledDocument};
ghost use Rattle.subst_yaml.specs.Passes.{IsFilledTo};

use crate::change::{Change, change_of, string_of};
use crate::token::{header_rest, part, token_at};
use std::alloc::{AllocError, Global};
use subst_document::Fill;
use subst_error::Error;
use subst_yaml_reader::{Bracket, Event, Events, Span, Style};

/// A source and its output.
#[derive(Clone, Copy)]
pub(crate) struct Texts<'t> {
    pub(crate) source: &'t [u8],
    pub(crate) output: &'t [u8],
}

/// The offsets up to which a source and its output have been compared.
#[derive(Clone, Copy)]
pub(crate) struct Positions {
    pub(crate) source: usize,
    pub(crate) output: usize,
}

/// A value as it is written: the bytes of its token, and how they are read.
#[derive(Clone, Copy)]
struct Token<'t> {
    style: Style,
    indent: usize,
    bytes: &'t [u8],
}

/// Returns the start of an event's token, or `at` if the event has no token.
fn start_of(at: usize, event: Event) -> usize
    ensures { result ≡ start_of at event }
{
    match event {
        Event::Key { span, .. } | Event::Value { span, .. } | Event::FlowKey { span, .. } =>
            span.start,
        _ => at,
    }
}

/// Returns the end of an event's token, or `at` if the event has no token.
fn end_of(at: usize, event: Event) -> usize
    ensures { result ≡ end_of at event }
{
    match event {
        Event::Key { span, .. } | Event::Value { span, .. } | Event::FlowKey { span, .. } =>
            span.end,
        _ => at,
    }
}

/// Returns whether a value has the style `|` or `>`.
fn is_block(style: Style) -> bool
    ensures { result ≡ is_block style }
{
    matches!(style, Style::Literal | Style::Folded)
}

/// Returns whether the first style is `|` or `>`, and the other one isn't.
fn is_unblocked(style: Style, other: Style) -> bool
    ensures { result ≡ is_unblocked style other }
{
    is_block(style) && !is_block(other)
}

/// Returns the bytes that must directly follow the token of `other` in the output. If both events are values,
/// and only `event` has the style `|` or `>`, these bytes are the comment and line end of its header.
/// Otherwise there are none.
fn rest_of_value(source: &[u8], event: Event, other: Event) -> &[u8]
    ensures { result.now ≡ rest_of_value source.now event other }
{
    match (event, other) {
        (Event::Value { style, span, .. }, Event::Value { style: other, .. })
            if is_unblocked(style, other) => { header_rest(token_at(source, span)) }
        _ => part(source, 0, 0),
    }
}

/// Returns whether two styles are equal.
fn is_same_style(style: Style, other: Style) -> bool
    ensures { IsTrue result → other ≡ style }
{
    match style {
        Style::Plain => matches!(other, Style::Plain),
        Style::Single => matches!(other, Style::Single),
        Style::Double => matches!(other, Style::Double),
        Style::Literal => matches!(other, Style::Literal),
        Style::Folded => matches!(other, Style::Folded),
        Style::Alias => matches!(other, Style::Alias),
    }
}

/// Returns whether two brackets are equal.
fn is_same_bracket(bracket: Bracket, other: Bracket) -> bool
    ensures { IsTrue result → other ≡ bracket }
{
    match bracket {
        Bracket::Sequence => matches!(other, Bracket::Sequence),
        Bracket::Mapping => matches!(other, Bracket::Mapping),
        Bracket::Pair => matches!(other, Bracket::Pair),
    }
}

/// Returns whether two values have the same style, indentation and bytes.
fn is_same_token(value: Token<'_>, other: Token<'_>) -> bool
    ensures style { IsTrue result → other.entry.style ≡ value.entry.style }
    ensures indent { IsTrue result → other.entry.indent ≡ value.entry.indent }
    ensures bytes { IsTrue result → other.entry.bytes.now ≡ value.entry.bytes.now }
{
    is_same_style(value.style, other.style)
        && other.indent == value.indent
        && other.bytes == value.bytes
}

/// Returns whether a value's token is read as this string.
///
/// # Errors
///
/// If allocation fails.
fn is_read_as(alloc: Global, value: Token<'_>, string: &str) -> Result<bool, AllocError>
    ensures { IfOk result (λ is. IsTrue is
        → string_of value.entry.style value.entry.indent value.entry.bytes.now ≡ Some string.now) }
{
    match string_of(alloc, value.style, value.indent, value.bytes)? {
        Some(text) => Ok(text.as_str() == string),
        None => Ok(false),
    }
}

/// Returns whether `filler` fills in `value` as `other`. Returns `false` if `filler` refuses the string of
/// `value`.
///
/// # Errors
///
/// If allocation fails.
fn is_filled_value<F: Fill>(
    alloc: Global,
    value: Token<'_>,
    other: Token<'_>,
    filler: &F,
) -> Result<bool, AllocError>
    ensures { IfOk result (λ is. IsTrue is → IsFilledValue (F.answers filler.now) value.entry.style
        value.entry.indent value.entry.bytes.now other.entry.style other.entry.indent
        other.entry.bytes.now) }
{
    match change_of(alloc, value.style, value.indent, value.bytes, filler) {
        Ok(Change::Kept) => Ok(is_same_token(value, other)),
        Ok(Change::Replaced(string)) => is_read_as(alloc, other, string.as_str()),
        Err(Error::OutOfMemory(e)) => Err(e),
        Err(_) => Ok(false),
    }
}

/// Returns whether the tokens of two keys have the same bytes and style.
fn is_same_key(texts: Texts<'_>, style: Style, span: Span, other_style: Style, other: Span) -> bool
    ensures { IsTrue result → (other_style ≡ style)
        × (token_at texts.entry.output.now other ≡ token_at texts.entry.source.now span) }
{
    is_same_style(style, other_style)
        && token_at(texts.output, other) == token_at(texts.source, span)
}

/// Returns whether two events are equal, and neither is a value. Keys are compared by depth, style and bytes.
fn is_same_event(texts: Texts<'_>, event: Event, other: Event) -> bool
    ensures { IsTrue result → IsFilledEvent (λ _ _. ⊥) texts.entry.source.now texts.entry.output.now
        event other }
{
    match (event, other) {
        (Event::Document, Event::Document) => true,
        (Event::Item { depth }, Event::Item { depth: other }) => depth == other,
        (
            Event::Key { depth, style, span },
            Event::Key {
                depth: other_depth,
                style: other_style,
                span: other,
            },
        ) => depth == other_depth && is_same_key(texts, style, span, other_style, other),
        (Event::Open(bracket), Event::Open(other)) => is_same_bracket(bracket, other),
        (
            Event::FlowKey { style, span },
            Event::FlowKey {
                style: other_style,
                span: other,
            },
        ) => is_same_key(texts, style, span, other_style, other),
        (Event::Null, Event::Null) => true,
        (Event::Close, Event::Close) => true,
        _ => false,
    }
}

/// Returns whether `other`, an event of the output, is `event` of the source as `filler` fills it in.
fn is_filled_event<F: Fill>(
    alloc: Global,
    texts: Texts<'_>,
    event: Event,
    other: Event,
    filler: &F,
) -> Result<bool, AllocError>
    ensures { IfOk result (λ is. IsTrue is → IsFilledEvent (F.answers filler.now)
        texts.entry.source.now texts.entry.output.now event other) }
{
    match (event, other) {
        (
            Event::Value {
                style,
                span,
                in_flow,
                indent,
            },
            Event::Value {
                style: other_style,
                span: other,
                in_flow: other_in_flow,
                indent: other_indent,
            },
        ) => {
            if in_flow != other_in_flow {
                return Ok(false);
            }
            let value = Token {
                style,
                indent,
                bytes: token_at(texts.source, span),
            };
            let other = Token {
                style: other_style,
                indent: other_indent,
                bytes: token_at(texts.output, other),
            };
            is_filled_value(alloc, value, other, filler)
        }
        (event, other) => Ok(is_same_event(texts, event, other)),
    }
}

/// Returns the positions after two events, or `None` if they don't match. They match if `other` is `event`
/// filled in, and the bytes from `at` to both tokens are equal. The bytes of `rest_of_value` also have to
/// follow the token in the output.
///
/// # Errors
///
/// If allocation fails.
fn after_event<F: Fill>(
    alloc: Global,
    texts: Texts<'_>,
    at: Positions,
    event: Event,
    other: Event,
    filler: &F,
) -> Result<Option<Positions>, AllocError>
    ensures { IfOk result (λ next. IfSome next (IsFilledTo (F.answers filler.now)
        texts.entry.source.now texts.entry.output.now at event other)) }
{
    let before = part(texts.output, at.output, start_of(at.output, other));
    if before != part(texts.source, at.source, start_of(at.source, event)) {
        return Ok(None);
    }
    let end = end_of(at.output, other);
    let rest = rest_of_value(texts.source, event, other);
    let Some(next) = end.checked_add(rest.len()) else {
        return Ok(None);
    };
    if part(texts.output, end, next) != rest
        || !is_filled_event(alloc, texts, event, other, filler)?
    {
        return Ok(None);
    }
    Ok(Some(Positions {
        source: end_of(at.source, event),
        output: next,
    }))
}

/// Returns the value of a reading, or `None` if the text is refused.
///
/// # Errors
///
/// If allocation fails.
fn read_of<T>(read: Result<T, subst_yaml_reader::Error>) -> Result<Option<T>, AllocError>
    ensures { IfOk result (λ found. IfSome found (λ value. read ≡ Ok value)) }
{
    match read {
        Ok(value) => Ok(Some(value)),
        Err(subst_yaml_reader::Error::OutOfMemory) => Err(AllocError),
        Err(subst_yaml_reader::Error::Refused(_)) => Ok(None),
    }
}

/// Returns whether both events are `None`, and the two texts are equal from the positions `at` on.
fn are_over(texts: Texts<'_>, at: Positions, event: Option<Event>, other: Option<Event>) -> bool
    ensures { IsTrue result → (event ≡ None) × (other ≡ None)
        × (drop at.output texts.entry.output.now ≡ drop at.source texts.entry.source.now) }
{
    event.is_none() && other.is_none() && have_same_ends(texts, at)
}

/// Returns whether the two texts are equal from the positions `at` on.
fn have_same_ends(texts: Texts<'_>, at: Positions) -> bool
    ensures { IsTrue result → drop at.output texts.entry.output.now
        ≡ drop at.source texts.entry.source.now }
{
    let tail = part(texts.output, at.output, texts.output.len());
    tail == part(texts.source, at.source, texts.source.len())
}

/// Returns whether the events `filled` of the output are the source's `events`, filled in by `filler`. All
/// bytes outside of the events' tokens have to be equal.
///
/// # Errors
///
/// If allocation fails.
fn are_filled<F: Fill>(
    alloc: Global,
    texts: Texts<'_>,
    events: Events<'_>,
    filled: Events<'_>,
    filler: &F,
) -> Result<bool, AllocError>
    ensures { IfOk result (λ are. IsTrue are → (es fs : List Event)
        × (to_come events.entry ≡ Some es) × (to_come filled.entry ≡ Some fs)
        × AreFilled (F.answers filler.now)
        texts.entry.source.now texts.entry.output.now 0 0 es fs) }
{
    let mut events = events;
    let mut filled = filled;
    let mut at = Positions {
        source: 0,
        output: 0,
    };
    for _ in 0..u64::MAX {
        let Some(event) = read_of(events.next())? else {
            return Ok(false);
        };
        let Some(other) = read_of(filled.next())? else {
            return Ok(false);
        };
        let (Some(event), Some(other)) = (event, other) else {
            return Ok(are_over(texts, at, event, other));
        };
        match after_event(alloc, texts, at, event, other, filler)? {
            Some(next) => at = next,
            None => return Ok(false),
        }
    }
    Ok(false)
}

/// Returns whether `output` is read as `source` with its values filled in, and all other bytes are kept.
///
/// # Errors
///
/// If allocation fails.
pub(crate) fn is_filled_document<F: Fill>(
    alloc: Global,
    source: &str,
    output: &str,
    filler: &F,
) -> Result<bool, AllocError>
    ensures { IfOk result (λ is. IsTrue is
        → IsFilledDocument (F.answers filler.now) source.now output.now) }
{
    let Some(events) = read_of(Events::new(alloc, source))? else {
        return Ok(false);
    };
    let Some(filled) = read_of(Events::new(alloc, output))? else {
        return Ok(false);
    };
    let texts = Texts {
        source: source.as_bytes(),
        output: output.as_bytes(),
    };
    are_filled(alloc, texts, events, filled, filler)
}

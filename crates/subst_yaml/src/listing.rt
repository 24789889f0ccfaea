//! Lists of the strings that may change in a text, and of those that are refused.

ghost use Rattle.std.specs.Prelude.{◌≡◌, ◌++◌, List, IfOk, OnOk, map, option_to_list};
ghost use Rattle.subst_language.specs.Calls.Clauses.{AnswersText};
ghost use Rattle.subst_yaml.specs.Listed.{found_at, found_in, range_in, spelled_at, spelled_in, spelled_of, AreAllRefused, AreRefusalsOf, IsListing, Lists, RefusalAt};
ghost use Rattle.subst_yaml.specs.Paths.{start, trail_of};

use crate::change::string_of;
use crate::error::Error;
use crate::path::Path;
use crate::paths::Trail;
use crate::token::{may_change, token_at};
use std::alloc::{AllocError, Global};
use std::convert::AsStr;
use std::ops::Range;
use subst_document::{Fill, Filler, StringAt};
use subst_language::VariableMap;
use subst_yaml_reader::{Event, Span, read};

/// A refused string of a text, with its span, its path and its error.
pub type RefusalAt = subst_document::RefusalAt<Path>;

/// Lists the strings that [`fill_in`](crate::fill_in) may change, in the order of the text: those whose token
/// contains `$` or `\`, except aliases. Each has the byte range of its token, with the quotes.
///
/// # Errors
///
/// `Yaml` if the source is refused by the reader, or `OutOfMemory` if allocation fails.
pub fn strings(alloc: Global, source: &str) -> Result<Vec<StringAt>, Error>
    ensures listed { Lists (IsListing source.now) source.now result }
{
    let events = read(alloc, source)?;
    Ok(strings_of(alloc, source.as_bytes(), &events)?)
}

/// Lists the refused [`strings`] of a text, in the order of the text, each with its path.
///
/// # Errors
///
/// As [`strings`].
pub fn refusals_in<'a, M: VariableMap<'a>>(
    alloc: Global,
    source: &str,
    variables: &'a M,
) -> Result<Vec<RefusalAt>, Error>
where
    M::Value: AsStr + Drop,
    ensures listed { Lists
        (AreAllRefused (AnswersText M.Value.text M.see (M.look_up variables.now)) source.now)
        source.now result }
{
    refusals_by(alloc, source, &Filler { variables })
}

/// Lists the [`strings`] that `filler` refuses, in the order of the text, each with its path and its error.
///
/// # Errors
///
/// As [`strings`].
pub fn refusals_by<F: Fill>(
    alloc: Global,
    source: &str,
    filler: &F,
) -> Result<Vec<RefusalAt>, Error>
    ensures listed { Lists (AreAllRefused (F.answers filler.now) source.now) source.now result }
{
    let events = read(alloc, source)?;
    Ok(refusals_of(alloc, source.as_bytes(), &events, filler)?)
}

/// Returns the byte range of a span, cut at the end of the text.
fn range_in(text: &[u8], span: Span) -> Range<usize>
    ensures { result ≡ range_in text.now span }
{
    let end = span.end.min(text.len());
    span.start.min(end)..end
}

/// Returns the string of an event if it is a value that may change, and otherwise `None`.
///
/// # Errors
///
/// If allocation fails.
fn string_at(alloc: Global, text: &[u8], event: Event) -> Result<Option<StringAt>, AllocError>
    ensures { IfOk result (λ it. map spelled_of (option_to_list it) ≡ spelled_at text.now event) }
{
    let Event::Value {
        style,
        span,
        indent,
        ..
    } = event
    else {
        return Ok(None);
    };
    let token = token_at(text, span);
    if !may_change(style, token) {
        return Ok(None);
    }
    let Some(string) = string_of(alloc, style, indent, token)? else {
        return Ok(None);
    };
    Ok(Some(StringAt {
        text: string,
        span: range_in(text, span),
    }))
}

/// Returns the strings of the values that may change, from the events of a text.
///
/// # Errors
///
/// If allocation fails.
fn strings_of(alloc: Global, text: &[u8], events: &[Event]) -> Result<Vec<StringAt>, AllocError>
    ensures { IfOk result (λ list. map spelled_of list.items ≡ spelled_in text.now events.now) }
{
    let mut list = Vec::new(alloc);
    for event in events {
        let Some(it) = string_at(alloc, text, *event)? else {
            continue;
        };
        list.push(it)?;
    }
    Ok(list)
}

/// Appends the refusal of an event's string if `filler` refuses it. `trail` is the path to the string.
///
/// # Errors
///
/// If allocation fails.
fn add_refusal<F: Fill>(
    alloc: Global,
    text: &[u8],
    event: Event,
    trail: &Trail,
    filler: &F,
    all: &mut Vec<RefusalAt>,
) -> Result<(), AllocError>
    ensures { OnOk result ((added : List RefusalAt) × (all.new.items ≡ all.old.items ++ added)
        × AreRefusalsOf (F.answers filler.now) (found_at text.now (trail_of trail.now) event)
        added) }
{
    let Some(it) = string_at(alloc, text, event)? else {
        return Ok(());
    };
    let Some(error) = filler.refusal(alloc, it.text.as_str())? else {
        return Ok(());
    };
    let path = trail.path(alloc, text)?;
    all.push(RefusalAt {
        path,
        text: it.text,
        span: it.span,
        error,
    })?;
    Ok(())
}

/// Returns the strings that `filler` refuses, from the events of a text, with their paths.
///
/// # Errors
///
/// If allocation fails.
fn refusals_of<F: Fill>(
    alloc: Global,
    text: &[u8],
    events: &[Event],
    filler: &F,
) -> Result<Vec<RefusalAt>, AllocError>
    ensures { IfOk result (λ all. AreRefusalsOf (F.answers filler.now)
        (found_in text.now start events.now) all.items) }
{
    let mut all = Vec::new(alloc);
    let mut trail = Trail::new(alloc);
    for event in events {
        add_refusal(alloc, text, *event, &trail, filler, &mut all)?;
        trail.pass(*event)?;
    }
    Ok(all)
}

//! Error reports for a text of YAML.

ghost use Rattle.std.specs.Prelude.{◌≡◌, IfOk, IfSome, string_bytes};
ghost use Rattle.std.specs.List.{All};
ghost use Rattle.subst_error.specs.Range.{IsRangeIn};
ghost use Rattle.subst_language.specs.Calls.Clauses.{AnswersText};
ghost use Rattle.subst_document.specs.Report.{AreReports};
ghost use Rattle.subst_yaml.specs.Listed.{AreAllRefused, IsRefusedAt};
ghost use Rattle.subst_yaml.specs.Places.{IsFinderOf};
ghost use Rattle.subst_yaml.specs.Report.{Reports, ReportsReader, ReportsRefused};

use crate::error::{Error, Fault};
use crate::listing::{RefusalAt, refusals_in};
use crate::places::RangeFinder;
use std::alloc::{AllocError, Global};
use std::convert::AsStr;
use std::ops::Range;
use subst_document::report::{fault, lines};
use subst_language::VariableMap;
use subst_yaml_reader::Span;

/// Returns the report of `e`, an error that a call of this crate returned for `source` and `variables`. The
/// report names `file` as the file of `source`.
///
/// If a string is refused, every refused string is reported, in the order of the strings in `source`. The
/// report of each is a line `FILE:LINE:COLUMN: PATH: fault`, and the underlined line of the text if
/// `error::underline` of `subst` returns one. If the reader refuses the text, its message is reported in the
/// same form, without a path. A fault whose position isn't confirmed is reported as `FILE: PATH: fault`. No
/// text is known for which a position isn't confirmed.
///
/// ```text
/// web.yaml:1:8: user: ..
///   user: $user
///          ^^^^
/// ```
///
/// # Errors
///
/// If allocation fails, or if `e` is an allocation failure.
pub fn report<'a, M: VariableMap<'a>>(
    alloc: Global,
    file: &str,
    source: &str,
    variables: &'a M,
    e: &Error,
) -> Result<String, AllocError>
where
    M::Value: AsStr + Drop,

    // The returned text reports each refused string, or the reader's message.
    ensures report { IfOk result (λ text.
        Reports (AnswersText M.Value.text M.see (M.look_up variables.now)) file.now source.now
        e.now (string_bytes text)) }
{
    match e {
        Error::Yaml(e) => unread(alloc, file, source, e),
        Error::Subst(e) => match all_refused(alloc, source, variables)? {
            Some(all) if !all.is_empty() => each_refusal(alloc, file, source, &all),
            _ => fault(alloc, file, source, None, "", e),
        },
        Error::OutOfMemory(_) => Err(AllocError),
    }
}

/// Returns the strings that are refused with `variables`, or `None` if the reader refuses the text.
///
/// # Errors
///
/// If allocation fails.
fn all_refused<'a, M: VariableMap<'a>>(
    alloc: Global,
    source: &str,
    variables: &'a M,
) -> Result<Option<Vec<RefusalAt>>, AllocError>
where
    M::Value: AsStr + Drop,
    ensures { IfOk result (λ all. IfSome all (λ all.
        AreAllRefused (AnswersText M.Value.text M.see (M.look_up variables.now)) source.now
        all.items)) }
{
    match refusals_in(alloc, source, variables) {
        Ok(all) => Ok(Some(all)),
        Err(Error::OutOfMemory(e)) => Err(e),
        Err(_) => Ok(None),
    }
}

/// Returns the reports of all these refused strings, concatenated.
///
/// # Errors
///
/// If allocation fails.
fn each_refusal(
    alloc: Global,
    file: &str,
    source: &str,
    all: &Vec<RefusalAt>,
) -> Result<String, AllocError>
    requires { All (IsRefusedAt source.now) all.now.items }
    ensures { IfOk result (λ text.
        AreReports (ReportsRefused file.now source.now) all.now.items (string_bytes text)) }
{
    let mut finder = RangeFinder::new(alloc, source)?;
    let mut text = String::new(alloc);
    for it in all {
        let report = refusal(alloc, file, source, &mut finder, it)?;
        text.push_str(&report)?;
    }
    Ok(text)
}

/// Returns the report of a refused string.
///
/// # Errors
///
/// If allocation fails.
fn refusal(
    alloc: Global,
    file: &str,
    source: &str,
    finder: &mut RangeFinder,
    it: &RefusalAt,
) -> Result<String, AllocError>
    requires refused { IsRefusedAt source.now it.now }
    requires finder { IsFinderOf finder.old source.now }
    ensures report { IfOk result
        (λ text. ReportsRefused file.now source.now it.now (string_bytes text)) }
    ensures finder { IsFinderOf finder.new source.now }
{
    let token = it.span.start..it.span.end;
    let place = finder.find_one(alloc, source, token, it.error.source_range())?;
    let path = format!(in alloc; "{}", it.path)?;
    fault(alloc, file, source, place, &path, &it.error)
}

/// Returns the report of a text that the reader refuses.
///
/// # Errors
///
/// If allocation fails.
fn unread(alloc: Global, file: &str, source: &str, fault: &Fault) -> Result<String, AllocError>
    ensures { IfOk result
        (λ text. ReportsReader fault.now file.now source.now (string_bytes text)) }
{
    let said = format!(in alloc; "{}", fault.reason)?;
    let place = in_text(source, fault.span);
    lines(alloc, file, source, Some(place), &said)
}

/// Returns a span of `source` as a range, with each end moved back to a character boundary.
fn in_text(source: &str, span: Span) -> Range<usize>
    ensures within { IsRangeIn source.now result }
    ensures same { IsRangeIn source.now (record { start = span.start; end = span.«end» })
        → result ≡ record { start = span.start; end = span.«end» } }
{
    source.floor_char_boundary(span.start)..source.floor_char_boundary(span.end)
}

//! Error reports for TOML documents.

ghost use Rattle.std.specs.Prelude.{◌≡◌, IfOk, IfSome, string_bytes};
ghost use Rattle.subst_error.specs.Range.{IsRangeIn};
ghost use Rattle.subst_language.specs.Calls.Clauses.{AnswersText};
ghost use Rattle.subst_toml.specs.Listed.{AreAllRefused};
ghost use Rattle.subst_toml.specs.Report.{HasRange, Reports, ReportsReader, ReportsRefused};

use crate::{Error, RefusalAt, place_in, refusals_in};
use std::alloc::{AllocError, Global};
use std::convert::AsStr;
use std::ops::Range;
use subst_document::report::{ReportFormat, fault, lines, refusals};
use subst_language::VariableMap;
use toml::de;

/// Returns the report of `e`, the error of a call of this crate with `source` and `variables`. `source` is a
/// file's text.
///
/// If a string is refused, every refused string is reported, in document order. The report of each is a line
/// `FILE:LINE:COLUMN: PATH: fault`, and the underlined line of the text if `error::underline` of `subst`
/// returns one. If the text isn't a document, the reader's message is reported in the same form, without a
/// path. If a tree doesn't fit a type, the report has the key of the value that doesn't fit, but no line and
/// column. A fault whose position isn't confirmed has no line and column either; no document is known for
/// which that happens.
///
/// # Errors
///
/// If allocation fails, or if `e` is an allocation failure.
pub fn report<'a, M: VariableMap<'a>>(
    alloc: Global,
    file: &str,
    source: &str,
    variables: &'a M,
    e: &Error,
) -> Result<String, AllocError>
where
    M::Value: AsStr + Drop,

    // The text reports each refused string, or the reader's message.
    ensures report { IfOk result (λ text.
        Reports (AnswersText M.Value.text M.see (M.look_up variables.now)) file.now source.now
        e.now (string_bytes text)) }
{
    match e {
        Error::InvalidUtf8(e) => {
            let said = format!(in alloc; "{e}")?;
            lines(alloc, file, source, None, &said)
        }
        Error::Toml(e) => reader_report(alloc, file, source, e),
        Error::Subst(e) => {
            let all = all_refused(alloc, source, variables)?;
            refusals::<TomlReports>(alloc, file, source, all, e)
        }
        Error::OutOfMemory(_) => Err(AllocError),
    }
}

/// The report format of a refused string of a TOML document.
struct TomlReports;

impl ReportFormat for TomlReports {
    type Refusal = RefusalAt;

    ghost has_range = { HasRange };

    ghost reports = { ReportsRefused };

    fn report(
        alloc: Global,
        file: &str,
        source: &str,
        it: &RefusalAt,
    ) -> Result<String, AllocError> {
        let token = it.span.start..it.span.end;
        let place = place_in(alloc, source, token, it.error.source_range())?;
        let path = format!(in alloc; "{}", it.path)?;
        fault(alloc, file, source, place, &path, &it.error)
    }
}

/// Returns all refused strings, or `None` if the path or span of one isn't confirmed, or if the source isn't
/// a document.
///
/// # Errors
///
/// If allocation fails.
fn all_refused<'a, M: VariableMap<'a>>(
    alloc: Global,
    source: &str,
    variables: &'a M,
) -> Result<Option<Vec<RefusalAt>>, AllocError>
where
    M::Value: AsStr + Drop,
    ensures { IfOk result (λ all. IfSome all (λ all.
        AreAllRefused (AnswersText M.Value.text M.see (M.look_up variables.now)) source.now
        all.items)) }
{
    match refusals_in(alloc, source, variables) {
        Ok(all) => Ok(all),
        Err(Error::OutOfMemory(e)) => Err(e),
        Err(_) => Ok(None),
    }
}

/// Returns the report of the reader's error: the text isn't a document, or its tree doesn't fit a type.
///
/// # Errors
///
/// If allocation fails, or if `e` is an allocation failure.
fn reader_report(
    alloc: Global,
    file: &str,
    source: &str,
    e: &de::Error,
) -> Result<String, AllocError>
    ensures { IfOk result (λ text. ReportsReader e.now file.now source.now (string_bytes text)) }
{
    match toml::table_from_str(alloc, source) {
        Ok(_) => {
            let said = with_key(alloc, e)?;
            lines(alloc, file, source, None, &said)
        }
        Err(again) if again.is_memory() => Err(AllocError),
        Err(_) => {
            let Some(span) = e.span() else {
                return Err(AllocError);
            };
            let place = in_text(source, &span);
            lines(alloc, file, source, Some(place), e.message())
        }
    }
}

/// Moves each end of a range back to the nearest character boundary of the text.
fn in_text(source: &str, span: &Range<usize>) -> Range<usize>
    ensures within { IsRangeIn source.now result }
    ensures same { IsRangeIn source.now span.now → result ≡ span.now }
{
    source.floor_char_boundary(span.start)..source.floor_char_boundary(span.end)
}

/// Returns the message of an error about a type, with the key of the value that doesn't fit.
///
/// # Errors
///
/// If allocation fails.
fn with_key(alloc: Global, e: &de::Error) -> Result<String, AllocError> {
    let said = format!(in alloc; "{e}")?;
    let key = match said.split_once(e.message()) {
        Some((_, after)) => after.trim(),
        None => "",
    };
    if key.is_empty() {
        String::from_str(alloc, e.message())
    } else {
        format!(in alloc; "{} {key}", e.message())
    }
}

//! Error reports for JSON texts.

ghost use Rattle.std.specs.Prelude.{IfOk, string_bytes};
ghost use Rattle.subst_language.specs.Calls.Clauses.{AnswersText};
ghost use Rattle.subst_json.specs.Report.{HasRange, Reports, ReportsReader, ReportsRefused};

use crate::listing::refusals_of;
use crate::{Error, RefusalAt, place_in, reader_stop};
use serde_json::Value;
use std::alloc::{AllocError, Global};
use std::convert::AsStr;
use subst_document::Filler;
use subst_document::report::{ReportFormat, fault, lines, refusals};
use subst_language::VariableMap;

/// Returns the report of `e`, the error of a call of this crate with `source` and `variables`. `source` is a
/// file's text.
///
/// If a string is refused, every refused string is reported, in document order. The report of each is a line
/// `FILE:LINE:COLUMN: PATH: fault`, and the underlined line of the text if `error::underline` of `subst`
/// returns one. If the text isn't JSON, the reader's message is reported in the same form, without a path. If
/// the filled-in tree doesn't fit the type that the call returns, the report has no line and column either. A
/// fault whose position isn't confirmed is reported without a line and column. No text is known for which a
/// position isn't confirmed.
///
/// ```text
/// web.json:1:4: /0: ..
///   ["$user"]
///     ^^^^
/// ```
///
/// # Errors
///
/// If allocation fails, or if `e` is an allocation failure.
pub fn report<'a, M: VariableMap<'a>>(
    alloc: Global,
    file: &str,
    source: &str,
    variables: &'a M,
    e: &Error,
) -> Result<String, AllocError>
where
    M::Value: AsStr + Drop,

    // The returned text reports each refused string, or the reader's message.
    ensures report { IfOk result (λ text.
        Reports (AnswersText M.Value.text M.see (M.look_up variables.now)) file.now source.now
        e.now (string_bytes text)) }
{
    match e {
        Error::Json(e) => reader_report(alloc, file, source, e),
        Error::Subst(e) => {
            let all = refusals_of(alloc, source, &Filler { variables })?;
            refusals::<JsonReports>(alloc, file, source, all, e)
        }
        Error::OutOfMemory(_) => Err(AllocError),
    }
}

/// The report format of a refused string of a JSON text.
struct JsonReports;

impl ReportFormat for JsonReports {
    type Refusal = RefusalAt;

    ghost has_range = { HasRange };

    ghost reports = { ReportsRefused };

    fn report(
        alloc: Global,
        file: &str,
        source: &str,
        it: &RefusalAt,
    ) -> Result<String, AllocError> {
        let token = it.span.start..it.span.end;
        let place = place_in(alloc, source, token, it.error.source_range())?;
        let path = format!(in alloc; "{}", it.path)?;
        fault(alloc, file, source, place, &path, &it.error)
    }
}

/// Returns the report of the reader's error: the text isn't JSON, or its tree doesn't fit a type.
///
/// # Errors
///
/// If allocation fails.
fn reader_report(
    alloc: Global,
    file: &str,
    source: &str,
    e: &serde_json::Error,
) -> Result<String, AllocError>
    ensures { IfOk result (λ text. ReportsReader file.now source.now (string_bytes text)) }
{
    let stop = reader_stop(alloc, source, e)?;
    let place = match Value::from_str(alloc, source) {
        Ok(_) => None,
        Err(e) if e.is_memory() => return Err(AllocError),
        Err(_) => Some(stop.offset..stop.offset),
    };
    lines(alloc, file, source, place, &stop.message)
}

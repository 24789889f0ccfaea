//! Reports of refused strings in a document, in the form of a compiler's errors. Each is `FILE:LINE:COLUMN:
//! PATH: fault`, and then the line of the document, with the fault underlined. All formats share this form.

ghost use Rattle.std.specs.Prelude.{◌≡◌, ℕ, List, IfOk, IfSome, IsSomeAnd, string_bytes};
ghost use Rattle.std.specs.List.{All};
ghost use Rattle.subst_error.specs.Display.{IsDisplayOfError};
ghost use Rattle.subst_error.specs.ErrorFault.{error_fault};
ghost use Rattle.subst_error.specs.Range.{IsRangeIn};
ghost use Rattle.subst_document.specs.Report.{lines_at, lines_of, with_caret, with_path, AreReports, ReportsAll};

use std::alloc::{AllocError, Global};
use std::fmt::{Display, Formatter};
use std::ops::Range;
use subst_error::{Error, line_and_column, underline};

/// A format's reports of refused strings.
pub trait ReportFormat {
    /// A refused string of a document.
    type Refusal: Drop;

    // Whether the range of the string's fault lies in the string.
    ghost has_range: { Self.Refusal → Type 0 };

    // Relates the name and the text of a file, a refused string of the file, and the string's report.
    ghost reports: { List ℕ → List ℕ → Self.Refusal → List ℕ → Type 0 };

    /// Returns the report of the refused string `it` of `source`, the text of a file with the name `file`.
    ///
    /// # Errors
    ///
    /// If allocation fails.
    fn report(
        alloc: Global,
        file: &str,
        source: &str,
        it: &Self::Refusal,
    ) -> Result<String, AllocError>
        requires { has_range it.now }
        ensures { IfOk result
            (λ text. reports file.now source.now it.now (string_bytes text)) };
}

/// Returns the reports of the refused strings `all`, concatenated. If `all` is empty or `None`, returns the
/// report of `e`, without a line and column.
///
/// # Errors
///
/// If allocation fails.
pub fn refusals<R: ReportFormat>(
    alloc: Global,
    file: &str,
    source: &str,
    all: Option<Vec<R::Refusal>>,
    e: &Error,
) -> Result<String, AllocError>
    requires { IfSome all (λ all. All R.has_range all.items) }
    ensures { IfOk result (λ text. ReportsAll (λ list. IsSomeAnd all (λ all. list ≡ all.items))
        R.reports file.now source.now (error_fault e.now) (string_bytes text)) }
{
    match all {
        Some(all) if !all.is_empty() => each_refusal::<R>(alloc, file, source, &all),
        _ => {
            let message = text_of(alloc, e)?;
            lines(alloc, file, source, None, &message)
        }
    }
}

/// Returns the concatenated reports of refused strings.
fn each_refusal<R: ReportFormat>(
    alloc: Global,
    file: &str,
    source: &str,
    all: &Vec<R::Refusal>,
) -> Result<String, AllocError>
    requires { All R.has_range all.now.items }
    ensures { IfOk result
        (λ text. AreReports (R.reports file.now source.now) all.now.items (string_bytes text)) }
{
    let mut text = String::new(alloc);
    for it in all {
        let report = R::report(alloc, file, source, it)?;
        text.push_str(&report)?;
    }
    Ok(text)
}

/// Returns the report of the string at `path`, refused with the error `e`. The message is `path: ` and the
/// text of `e`, or only that text if the path is empty. `place` is the byte range of the fault in `source`,
/// or `None` if unknown.
///
/// # Errors
///
/// If allocation fails.
pub fn fault(
    alloc: Global,
    file: &str,
    source: &str,
    place: Option<Range<usize>>,
    path: &str,
    e: &Error,
) -> Result<String, AllocError>
    requires { IfSome place (IsRangeIn source.now) }
    ensures { IfOk result (λ text. (shown : List ℕ) × IsDisplayOfError (error_fault e.now) shown
        × (string_bytes text ≡ lines_of file.now source.now place (with_path path.now shown))) }
{
    let shown = text_of(alloc, e)?;
    if path.is_empty() {
        return lines(alloc, file, source, place, &shown);
    }
    let message = format!(in alloc; "{path}: {shown}")?;
    lines(alloc, file, source, place, &message)
}

/// Returns the text of an error.
///
/// # Errors
///
/// If allocation fails.
fn text_of(alloc: Global, e: &Error) -> Result<String, AllocError>
    ensures { IfOk result (λ text. IsDisplayOfError (error_fault e.now) (string_bytes text)) }
{
    let mut f = Formatter::new(String::new(alloc));
    match e.fmt(&mut f) {
        Ok(()) => Ok(f.into_inner()),
        Err(_) => Err(AllocError),
    }
}

/// Returns `file:line:column: message` for the byte range `place` of `source`, and then the source line with
/// `place` underlined. If `place` is `None`, returns `file: message`.
///
/// # Errors
///
/// If allocation fails.
pub fn lines(
    alloc: Global,
    file: &str,
    source: &str,
    place: Option<Range<usize>>,
    message: &str,
) -> Result<String, AllocError>
    requires { IfSome place (IsRangeIn source.now) }
    ensures { IfOk result
        (λ text. string_bytes text ≡ lines_of file.now source.now place message.now) }
{
    match place {
        Some(place) => positioned_lines(alloc, file, source, place, message),
        None => format!(in alloc; "{file}: {message}\n"),
    }
}

/// Returns `file:line:column: message` for the byte range `place` of `source`, and then the source line with
/// `place` underlined.
fn positioned_lines(
    alloc: Global,
    file: &str,
    source: &str,
    place: Range<usize>,
    message: &str,
) -> Result<String, AllocError>
    requires { IsRangeIn source.now place }
    ensures { IfOk result
        (λ text. string_bytes text ≡ lines_at file.now source.now place message.now) }
{
    let (line, column) = line_and_column(source, place.start);
    let excerpt = add_caret(alloc, underline(alloc, source, place)?)?;
    format!(in alloc; "{file}:{line}:{column}: {message}\n{excerpt}")
}

/// Adds a caret to the underlined line `excerpt` if the underlined range is empty.
fn add_caret(alloc: Global, excerpt: String) -> Result<String, AllocError>
    ensures { IfOk result (λ text. string_bytes text ≡ with_caret (string_bytes excerpt)) }
{
    match excerpt.strip_suffix(" \n") {
        Some(before) => format!(in alloc; "{before} ^\n"),
        None => Ok(excerpt),
    }
}

//! Reports of the errors in a text, in the form that compilers use.

ghost use Rattle.std.specs.Prelude.{Some, IfOk, IsSomeAnd, string_bytes};
ghost use Rattle.subst.specs.ErrorFault.{error_fault};
ghost use Rattle.subst.specs.Range.{range_of, IsRangeIn};
ghost use Rattle.subst_uses.specs.Report.{IsReport};

use std::alloc::{AllocError, Global};
use subst::Error;

/// The output of a text, or the report of its errors.
#[derive(Debug, PartialEq, Eq, Drop)]
pub enum Outcome {
    /// The output of the text.
    Output(String),
    /// For each error, `file:line:column: fault`, and then the source line with the error's range underlined.
    Report(String),
}

/// Returns the report of the fault that an error states.
///
/// # Errors
///
/// If allocation fails, or if the error is an allocation failure.
pub(crate) fn fault_report(
    alloc: Global,
    file: &str,
    source: &str,
    e: Error,
) -> Result<String, AllocError>
    requires { IsRangeIn source.now (range_of (error_fault e)) }
    ensures { IfOk result (λ text. IsSomeAnd (error_fault e)
        (λ f. IsReport file.now (Some f) source.now (string_bytes text))) }
{
    match e {
        Error::OutOfMemory(e) => Err(e),
        e => report(alloc, file, source, &e),
    }
}

/// Returns the report of an error.
fn report(alloc: Global, file: &str, source: &str, e: &Error) -> Result<String, AllocError>
    requires { IsRangeIn source.now (range_of (error_fault e.now)) }
    ensures { IfOk result (λ text.
        IsReport file.now (error_fault e.now) source.now (string_bytes text)) }
{
    let (line, column) = e.source_position(source);
    let underlined = e.source_highlighting(alloc, source)?;
    format!(in alloc; "{file}:{line}:{column}: {e}\n{underlined}")
}

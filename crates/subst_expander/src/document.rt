//! Fills in the strings of documents, and returns their faults and variables.

ghost use Rattle.std.specs.Prelude.{◌≡◌, ◌++◌, List, IfErr, IfOk, OnOk, string_bytes};
ghost use Rattle.subst_expander.specs.Documents as documents;
ghost use Rattle.subst_expander.specs.Documents.{format_of, AreDocumentFaults, AreFaultsOfStrings, AreReported, FindsIn};
ghost use Rattle.subst_expander.specs.Fill.{GivesFor, IsDocumentOutput};
ghost use Rattle.subst_expander.specs.Layers.{Entry};
ghost use Rattle.subst_expander.specs.Strings.{FillsFrom};
ghost use Rattle.subst_expander.specs.declared.fault.Fault.{Fault as SpecFault};

use crate::fault::{Cause, Fault, one_fault};
use crate::part::{Occurrence, OrFaults, uses_in_bytes};
pub use filler::StringFiller;
pub use format::Format;
use format::{Finder, RefusedAt, Unfilled};
pub use mistake::Mistake;
use std::alloc::{AllocError, Global};
use std::ops::Range;
use subst::StringAt;

mod filler;
mod format;
mod mistake;

/// Fills in the strings of a document, or returns its faults.
///
/// # Errors
///
/// If allocation fails.
pub fn fill(
    alloc: Global,
    format: Format,
    text: &str,
    filler: &StringFiller<'_, '_, '_>,
) -> Result<OrFaults<String>, AllocError>
    ensures gives { (entries : List Entry) → FillsFrom filler.now entries
        → IfOk result (λ outcome. IfOk outcome (λ output.
        IsDocumentOutput format (GivesFor filler.now.placeholders.now entries) text.now
        (string_bytes output))) }
    ensures refused { (entries : List Entry) → FillsFrom filler.now entries
        → IfOk result (λ outcome. IfErr outcome (λ faults. AreDocumentFaults format
        filler.now.placeholders.now entries text.now faults.items)) }
{
    match format.fill_in(alloc, text, filler)? {
        Ok(output) => Ok(Ok(output)),
        Err(Unfilled::Unread(range, cause)) => Ok(Err(one_fault(alloc, range, cause)?)),
        Err(Unfilled::Refused) => Ok(Err(faults_in(alloc, format, text, filler)?)),
    }
}

/// Returns the uses of variables in a document's strings, with ranges in `text`, or the document's faults.
///
/// # Errors
///
/// If allocation fails.
pub fn uses(
    alloc: Global,
    format: Format,
    text: &str,
    filler: &StringFiller<'_, '_, '_>,
) -> Result<OrFaults<Vec<Occurrence>>, AllocError> {
    let strings = match format.strings(alloc, text)? {
        Ok(strings) => strings,
        Err(Unfilled::Unread(range, cause)) => return Ok(Err(one_fault(alloc, range, cause)?)),
        Err(Unfilled::Refused) => return Ok(Err(one_fault(alloc, 0..0, Cause::NotConfirmed)?)),
    };
    let mut finder = Finder::new(alloc, format, text)?;
    let mut all = Vec::new(alloc);
    for StringAt { text: string, span } in strings {
        match uses_in_bytes(alloc, string.as_bytes(), filler.placeholders)? {
            Ok(uses) => add_uses(alloc, &mut finder, text, span, uses, &mut all)?,
            Err(_) => return Ok(Err(faults_in(alloc, format, text, filler)?)),
        }
    }
    Ok(Ok(all))
}

/// Appends the uses of variables in a string, with their ranges mapped to the document `text`.
fn add_uses(
    alloc: Global,
    finder: &mut Finder,
    text: &str,
    span: Range<usize>,
    uses: Vec<Occurrence>,
    all: &mut Vec<Occurrence>,
) -> Result<(), AllocError> {
    let ranges: Vec<_> = uses
        .iter()
        .map(|it| it.range.start..it.range.end)
        .collect(alloc)?;
    let places = finder.places(alloc, text, span, &ranges)?;
    for (it, range) in uses.into_iter().zip(places) {
        all.push(Occurrence {
            name: it.name,
            range,
            kind: it.kind,
            default: it.default,
        })?;
    }
    Ok(())
}

/// Returns a document's faults: those of its strings, or one fault if the document can't be read or the
/// result for it can't be confirmed.
fn faults_in(
    alloc: Global,
    format: Format,
    text: &str,
    filler: &StringFiller<'_, '_, '_>,
) -> Result<Vec<Fault>, AllocError>
    ensures { (entries : List Entry) → FillsFrom filler.now entries
        → IfOk result (λ faults. AreDocumentFaults format filler.now.placeholders.now entries
        text.now faults.items) }
{
    let strings = match format.refused(alloc, text, filler)? {
        Ok(strings) => strings,
        Err(Unfilled::Unread(range, cause)) => return one_fault(alloc, range, cause),
        Err(Unfilled::Refused) => return one_fault(alloc, 0..0, Cause::NotConfirmed),
    };
    let faults = faults_of(alloc, format, text, filler, strings)?;
    if faults.is_empty() {
        one_fault(alloc, 0..0, Cause::NotConfirmed)
    } else {
        Ok(faults)
    }
}

/// Returns the faults of `strings`, the refused strings of the document `text`, with ranges in `text`.
fn faults_of(
    alloc: Global,
    format: Format,
    text: &str,
    filler: &StringFiller<'_, '_, '_>,
    strings: Vec<RefusedAt>,
) -> Result<Vec<Fault>, AllocError>
    ensures { (entries : List Entry) → FillsFrom filler.now entries
        → IfOk result (λ faults. AreFaultsOfStrings format filler.now.placeholders.now entries
        text.now strings.items faults.items) }
{
    let mut finder = Finder::new(alloc, format, text)?;
    let mut all = Vec::new(alloc);
    for (path, StringAt { text: string, span }) in strings {
        let faults = filler.faults(alloc, &string)?;
        add_faults(alloc, &mut finder, text, &path, span, faults, &mut all)?;
    }
    Ok(all)
}

/// Appends the faults of a string, with the string's path and with ranges mapped to the document `text`.
fn add_faults(
    alloc: Global,
    finder: &mut Finder,
    text: &str,
    path: &str,
    span: Range<usize>,
    faults: Vec<Fault>,
    all: &mut Vec<Fault>,
) -> Result<(), AllocError>
    ensures reported { FindsIn text.now finder.old → OnOk result ((reported : List SpecFault)
        × (all.new.items ≡ all.old.items ++ reported)
        × AreReported (format_of finder.old) text.now path.now span faults.items reported) }
    ensures format { OnOk result (format_of finder.new ≡ format_of finder.old) }
    ensures finder { FindsIn text.now finder.old → OnOk result (FindsIn text.now finder.new) }
{
    let ranges = ranges_of(alloc, &faults)?;
    let places = finder.places(alloc, text, span, &ranges)?;
    for (fault, range) in faults.into_iter().zip(places) {
        all.push(Fault {
            path: String::from_str(alloc, path)?,
            range,
            cause: fault.cause,
        })?;
    }
    Ok(())
}

/// Returns the ranges of the faults.
fn ranges_of(alloc: Global, faults: &[Fault]) -> Result<Vec<Range<usize>>, AllocError>
    ensures { IfOk result (λ ranges. ranges.items ≡ documents.ranges_of faults.now) }
{
    let mut ranges = Vec::with_capacity(alloc, faults.len())?;
    for fault in faults {
        ranges.push(fault.range.start..fault.range.end)?;
    }
    Ok(ranges)
}

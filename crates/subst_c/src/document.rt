//! The results of filling in documents: outputs, and reports of documents that are refused.

ghost use Rattle.std.specs.Prelude.{◌≡◌, ◌≢◌, ℕ, List, ◌+◌, ◌++◌, ◌≤◌, IfOk, Some, string_bytes};
ghost use Rattle.std.specs.Result.{IsErrAnd, IsOkAnd};
ghost use Rattle.subst_error.specs.Display.{IsDisplayOfError};
ghost use Rattle.subst_error.specs.ErrorFault.{error_fault};
ghost use Rattle.subst_error.specs.Fault.{Fault};
ghost use Rattle.subst_c.specs.Buffer.{FillsBuffer};
ghost use Rattle.subst_c.specs.Documents.{IfRefused, IsInvalid, IsRefusedWith, IsTextAfterPath, IsTextOfResult, before_fault};
ghost use Rattle.subst_c.specs.Fault.{fault_number};
ghost use Rattle.subst_c.specs.Results.{IsOther};
ghost use Rattle.subst_c.specs.declared.outcome.TheConstants.{DONE, REFUSED, OUT_OF_MEMORY, ROOM_TOO_SMALL, NOT_UTF8, NOT_CONFIRMED};

use crate::answer::text_of;
use crate::buffer;
use crate::fault::{self, FaultRecord, INVALID_DOCUMENT};
use crate::outcome::{DONE, NOT_CONFIRMED, OUT_OF_MEMORY, REFUSED};
use std::alloc::{AllocError, Global};
use std::ops::Range;
use subst_error::Error;

pub(crate) mod by_names;
pub(crate) mod of_json;
pub(crate) mod of_toml;
pub(crate) mod of_yaml;

/// A reason why a document isn't filled in.
#[derive(Drop)]
pub enum Unfilled {
    /// The document is refused.
    Refused(Report),
    /// The output isn't confirmed to be right.
    NotConfirmed,
    /// An allocation failed.
    OutOfMemory(AllocError),
}

/// The report of a document that is refused.
#[derive(Drop)]
pub struct Report {
    /// The fault, with its span in the document.
    pub fault: FaultRecord,
    /// The text that describes the fault.
    pub text: String,
}

impl From<AllocError> for Unfilled {
    ghost use Rattle.std.specs.Prelude.{◌≡◌};
    ghost use Rattle.subst_c.specs.declared.document.Unfilled.TheVariants.{OutOfMemory};

    ghost from_gives = { λ e error. error ≡ OutOfMemory e };

    fn from(e: AllocError) -> Unfilled {
        Unfilled::OutOfMemory(e)
    }
}

/// Returns the refusal of `source`, a text that is no document. The refusal has the reader's `message` about
/// `range`.
fn invalid(source: &str, range: Range<usize>, message: String) -> Unfilled
    ensures { IfRefused result (IsInvalid source.now) }
{
    let position = source.floor_char_boundary(range.start);
    let end = source.floor_char_boundary(range.end);
    Unfilled::Refused(Report {
        fault: FaultRecord {
            kind: INVALID_DOCUMENT,
            position,
            length: end.saturating_sub(position),
        },
        text: message,
    })
}

/// Returns the refusal of the string at `path` for the error `e`, whose range in the document is `range`.
///
/// # Errors
///
/// If allocation fails.
fn refused(
    alloc: Global,
    path: &str,
    e: &Error,
    range: Range<usize>,
) -> Result<Unfilled, AllocError>
    requires { range.start ≤ range.end }
    ensures { IfOk result (λ refusal. IfRefused refusal (λ report.
        (f : Fault) × (error_fault e.now ≡ Some f) × (report.fault.kind ≡ fault_number f)
        × (report.fault.position ≡ range.start)
        × (report.fault.position + report.fault.length ≡ range.end)
        × IsTextAfterPath path.now (string_bytes report.text) f)) }
{
    let Some(kind) = fault::kind(e) else {
        return Err(AllocError);
    };
    Ok(Unfilled::Refused(Report {
        fault: FaultRecord {
            kind,
            position: range.start,
            length: range.end - range.start,
        },
        text: with_path(alloc, path, e)?,
    }))
}

/// Returns `path`, a colon, a space and the text of the error `e`, or only that text if `path` is empty. The
/// path is empty for a document that is a single string.
///
/// # Errors
///
/// If allocation fails.
fn with_path(alloc: Global, path: &str, e: &Error) -> Result<String, AllocError>
    ensures { IfOk result (λ text. (shown : List ℕ)
        × (string_bytes text ≡ before_fault path.now ++ shown)
        × IsDisplayOfError (error_fault e.now) shown) }
{
    let message = text_of(alloc, e)?;
    if path.is_empty() {
        return Ok(message);
    }
    let mut text = String::from_str(alloc, path)?;
    text.push_str(": ")?;
    text.push_str(message.as_str())?;
    Ok(text)
}

/// Writes a document's output to the front of the buffer, or its fault to `fault` if the document is refused.
pub fn deliver(
    filled: Result<String, Unfilled>,
    buffer: &mut [u8],
    needed: &mut usize,
    fault: &mut FaultRecord,
) -> u32
    ensures buffer { FillsBuffer (λ x. IsOkAnd filled (λ text. x ≡ string_bytes text))
        result needed.old needed.new buffer.old buffer.new }
    ensures refused { result ≡ REFUSED
        → IsErrAnd filled (λ e. IsRefusedWith e (λ report. fault.new ≡ report.fault)) }
    ensures fault_kept { result ≢ REFUSED → fault.new ≡ fault.old }
    ensures others { result ≢ NOT_CONFIRMED → IsOther result }
    ensures text { result ≢ NOT_UTF8 }
{
    match filled {
        Ok(text) => buffer::deliver(text.as_bytes(), buffer, needed),
        Err(e) => match e {
            Unfilled::Refused(report) => {
                *fault = report.fault;
                REFUSED
            }
            Unfilled::NotConfirmed => NOT_CONFIRMED,
            Unfilled::OutOfMemory(_) => OUT_OF_MEMORY,
        },
    }
}

/// Writes the text of a document's fault to the front of the buffer, or an empty text if the document is
/// filled in.
pub fn deliver_text(filled: Result<String, Unfilled>, buffer: &mut [u8], needed: &mut usize) -> u32
    ensures buffer { FillsBuffer (IsTextOfResult filled)
        result needed.old needed.new buffer.old buffer.new }
    ensures others { result ≢ DONE → result ≢ ROOM_TOO_SMALL → result ≢ NOT_CONFIRMED
        → result ≡ OUT_OF_MEMORY }
{
    match filled {
        Ok(_) => buffer::deliver(&[], buffer, needed),
        Err(e) => match e {
            Unfilled::Refused(report) => buffer::deliver(report.text.as_bytes(), buffer, needed),
            Unfilled::NotConfirmed => NOT_CONFIRMED,
            Unfilled::OutOfMemory(_) => OUT_OF_MEMORY,
        },
    }
}

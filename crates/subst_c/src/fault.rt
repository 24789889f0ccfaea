//! The records that report faults to C.

ghost use Rattle.std.specs.Prelude.{◌≡◌, ◌≢◌, ◌+◌, ◌^◌, ◌<◌, None, Some};
ghost use Rattle.std.specs.Option.{option_map};
ghost use Rattle.subst_error.specs.ErrorFault.{error_fault, expand_into_fault};
ghost use Rattle.subst_error.specs.Range.{range_of};
ghost use Rattle.subst_c.specs.Fault.{IsRecordOf, record_of, fault_number};
ghost use Rattle.subst_c.specs.declared.outcome.TheConstants.{REFUSED, OUT_OF_MEMORY};

use crate::outcome::{OUT_OF_MEMORY, REFUSED};
use subst_error::{Error, ExpandIntoError};

/// A backslash before a character that can't be escaped, or at the end of the source.
pub const INVALID_ESCAPE_SEQUENCE: u32 = 1;

/// A placeholder with no name.
pub const MISSING_VARIABLE_NAME: u32 = 2;

/// A character that can't follow the name of a placeholder in braces.
pub const UNEXPECTED_CHARACTER: u32 = 3;

/// A placeholder that is never closed.
pub const MISSING_CLOSING_BRACE: u32 = 4;

/// A needed variable for which there is no pair.
pub const NO_SUCH_VARIABLE: u32 = 5;

/// A source that isn't a document of the format that the called function expects.
pub const INVALID_DOCUMENT: u32 = 6;

/// A character that can't follow the name of a placeholder in braces, in a source whose parse refuses
/// `${name?}`. The number 7 is that of a refused form.
pub const UNEXPECTED_AFTER_NAME: u32 = 8;

/// The number of a fault's kind, and its span in the source: a byte offset, and a length in bytes.
#[repr(C)]
#[derive(Clone, Copy)]
pub struct FaultRecord {
    pub kind: u32,
    pub position: usize,
    pub length: usize,
}

/// Writes the fault of `e` to `fault`, and returns `REFUSED`. Returns `OUT_OF_MEMORY` if `e` has no fault.
pub fn refuse(e: &Error, fault: &mut FaultRecord) -> u32
    requires { (range_of (error_fault e.now)).end < 2 ^ 64 }
    ensures refused { result ≡ REFUSED → IsRecordOf (λ f. error_fault e.now ≡ Some f) fault.new }

    // The record's span ends where the error's range does.
    ensures end { result ≡ REFUSED
        → fault.new.position + fault.new.length ≡ (range_of (error_fault e.now)).end }
    ensures kept { result ≢ REFUSED → fault.new ≡ fault.old }
    ensures others { result ≢ REFUSED → result ≡ OUT_OF_MEMORY }

    // Unless the result is `REFUSED`, the error has no fault.
    ensures memory { result ≢ REFUSED → error_fault e.now ≡ None }
{
    let Some(kind) = kind(e) else {
        return OUT_OF_MEMORY;
    };
    let range = e.source_range();
    *fault = FaultRecord {
        kind,
        position: range.start,
        length: range.end - range.start,
    };
    REFUSED
}

/// Writes the missing variable of `e` to `fault`, and returns `REFUSED`. Returns `OUT_OF_MEMORY` if `e` is
/// `OutOfMemory`: the output's length overflows a `usize`.
#[tactic(auto, using(crate::proofs::AnswerLemmas::record_of_missing))]
pub fn refuse_missing(e: &ExpandIntoError, fault: &mut FaultRecord) -> u32
    ensures refused { result ≡ REFUSED
        → IsRecordOf (λ f. expand_into_fault e.now ≡ Some f) fault.new }
    ensures end { result ≡ REFUSED
        → fault.new.position + fault.new.length ≡ (range_of (expand_into_fault e.now)).end }
    ensures kept { result ≢ REFUSED → fault.new ≡ fault.old }
    ensures others { result ≢ REFUSED → result ≡ OUT_OF_MEMORY }
    ensures memory { result ≢ REFUSED → expand_into_fault e.now ≡ None }
{
    match e {
        ExpandIntoError::NoSuchVariable(missing) => {
            *fault = FaultRecord {
                kind: NO_SUCH_VARIABLE,
                position: missing.position,
                length: missing.name.len(),
            };
            REFUSED
        }
        ExpandIntoError::OutOfMemory(_) => OUT_OF_MEMORY,
    }
}

/// Returns the number of the kind of an error's fault, or `None` if the error is `OutOfMemory`.
pub fn kind(e: &Error) -> Option<u32>
    ensures { result ≡ option_map fault_number (error_fault e.now) }
{
    match e {
        Error::InvalidEscapeSequence(_) => Some(INVALID_ESCAPE_SEQUENCE),
        Error::MissingVariableName(_) => Some(MISSING_VARIABLE_NAME),
        Error::UnexpectedCharacter(_) => Some(UNEXPECTED_CHARACTER),
        Error::MissingClosingBrace(_) => Some(MISSING_CLOSING_BRACE),
        Error::NoSuchVariable(_) => Some(NO_SUCH_VARIABLE),
        Error::OutOfMemory(_) => None,
    }
}

//! Parsing a source into cells for C.

ghost use Rattle.std.specs.Prelude.{◌≡◌, ◌≢◌, ◌⊎◌, IfOk, IfErr, IfSome, IsOk};
ghost use Rattle.subst_error.specs.ErrorFault.{parse_fault};
ghost use Rattle.subst_language.specs.Language.BadItem.{HasFault};
ghost use Rattle.subst_language.specs.Language.Sentence.{IsSentence};
ghost use Rattle.subst_c.specs.Cells.{AreCells, IsAllowed, IsParseFault, IsUnparsed, strict_byte, without_optional};
ghost use Rattle.subst_c.specs.Fault.{IsRecordOf, SetsFault};
ghost use Rattle.subst_c.specs.declared.cells.TheConstants.{NO_OPTIONAL};
ghost use Rattle.subst_c.specs.declared.outcome.TheConstants.{REFUSED, OUT_OF_MEMORY};

use crate::fault::{self, FaultRecord, UNEXPECTED_AFTER_NAME, UNEXPECTED_CHARACTER};
use crate::outcome::{NO_SUCH_STYLE, OUT_OF_MEMORY, REFUSED, TOO_LONG};
use std::alloc::{AllocError, Global};
use subst_error::{Error, ParseError};
use subst_indexed::cell::Cell;
use subst_indexed::parse::{IndexError, parse};
use subst_template::ByteTemplate;

/// The flag of a parse that refuses `${name?}`.
pub const NO_OPTIONAL: u32 = 1;

/// Parses a source into cells.
///
/// # Errors
///
/// The number of the call's result, if the flags aren't defined, the source is refused or too long, or memory
/// runs out. If the source is refused, its fault is written to `fault`.
pub fn cells_of(
    alloc: Global,
    source: &[u8],
    flags: u32,
    fault: &mut FaultRecord,
) -> Result<Vec<Cell>, u32>
    ensures cells { IfOk result (λ cells. AreCells flags source.now cells.items) }
    ensures fault { IfErr result (λ number.
        SetsFault (IsParseFault flags source.now) source.now number fault.old fault.new) }
    ensures kept { IsOk result → fault.new ≡ fault.old }
    ensures numbers { IfErr result (IsUnparsed flags source.now) }
{
    refuse_by_flags(alloc, source, flags, fault)?;
    match parse(alloc, source) {
        Ok(cells) => Ok(cells),
        Err(IndexError::TooLong) => Err(TOO_LONG),
        Err(IndexError::Parse(e)) => Err(refuse_parse(source, e, fault)),
    }
}

/// Writes the fault of a source to `fault`, and returns the number of the call's result.
fn refuse_parse(source: &[u8], e: ParseError, fault: &mut FaultRecord) -> u32
    requires { IfSome (parse_fault e) (HasFault 0 source.now) }
    ensures fault { SetsFault (IsRecordOf (HasFault 0 source.now)) source.now
        result fault.old fault.new }
    ensures others { result ≢ REFUSED → result ≡ OUT_OF_MEMORY }
{
    fault::refuse(&Error::from(e), fault)
}

/// Refuses flags that aren't defined, and a source that the flags don't allow.
///
/// # Errors
///
/// The number of the call's result. If the source is refused, its fault is written to `fault`.
fn refuse_by_flags(
    alloc: Global,
    source: &[u8],
    flags: u32,
    fault: &mut FaultRecord,
) -> Result<(), u32>
    ensures allowed { IsOk result → IsAllowed flags source.now }
    ensures fault { IfErr result (λ number.
        SetsFault (IsParseFault flags source.now) source.now number fault.old fault.new) }
    ensures kept { IsOk result → fault.new ≡ fault.old }
    ensures numbers { IfErr result (IsUnparsed flags source.now) }
{
    match flags {
        0 => Ok(()),
        NO_OPTIONAL => refuse_optional(alloc, source, fault),
        _ => Err(NO_SUCH_STYLE),
    }
}

/// Refuses a source that has `${name?}`, or a fault before that.
fn refuse_optional(alloc: Global, source: &[u8], fault: &mut FaultRecord) -> Result<(), u32>
    ensures allowed { IsOk result → IsSentence (without_optional source.now) }
    ensures fault { IfErr result (λ number.
        SetsFault (IsParseFault NO_OPTIONAL source.now) source.now number fault.old fault.new) }
    ensures kept { IsOk result → fault.new ≡ fault.old }
    ensures numbers { IfErr result (λ number. (number ≡ REFUSED) ⊎ (number ≡ OUT_OF_MEMORY)) }
{
    let Ok(other) = without_optional(alloc, source) else {
        return Err(OUT_OF_MEMORY);
    };
    match ByteTemplate::from_slice(alloc, &other) {
        Ok(_) => Ok(()),
        Err(e) => {
            let result = fault::refuse(&Error::from(e), fault);
            if result == REFUSED && fault.kind == UNEXPECTED_CHARACTER {
                fault.kind = UNEXPECTED_AFTER_NAME;
            }
            Err(result)
        }
    }
}

/// Returns the source with a slash in place of each question mark.
///
/// # Errors
///
/// If allocation fails.
fn without_optional(alloc: Global, source: &[u8]) -> Result<Vec<u8>, AllocError>
    ensures { IfOk result (λ other. other.items ≡ without_optional source.now) }
{
    let mut other = Vec::with_capacity(alloc, source.len())?;
    for byte in source {
        other.push(strict_byte(*byte))?;
    }
    Ok(other)
}

/// Returns a slash for a question mark, and any other byte as it is.
fn strict_byte(byte: u8) -> u8
    ensures { result ≡ strict_byte byte }
{
    if byte == b'?' { b'/' } else { byte }
}

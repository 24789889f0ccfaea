//! The texts of faults, from a source and a fault's record alone.

ghost use Rattle.std.specs.Prelude.{◌≡◌, ◌≤◌, IfOk, chars, length, string_bytes};
ghost use Rattle.std.specs.Option.{option_map};
ghost use Rattle.subst_error.specs.Fault.{MissingClosingBrace as TheClosingBrace, UnexpectedCharacter as TheCharacter};
ghost use Rattle.subst_error.specs.declared.TheConstants.{MESSAGE_CAPACITY};
ghost use Rattle.subst_c.specs.Errors.{IsErrorText, IsFaultFound, character_of, escape_fault, expected_after, fault_of_kind, missing_fault, only_one, stated_fault};

use crate::answer;
use crate::fault::{
    FaultRecord, INVALID_ESCAPE_SEQUENCE, MISSING_CLOSING_BRACE, MISSING_VARIABLE_NAME,
    NO_SUCH_VARIABLE, UNEXPECTED_AFTER_NAME, UNEXPECTED_CHARACTER,
};
use std::alloc::{AllocError, Global};
use subst_error::{
    CharOrByte, Error, ExpectedCharacter, InvalidEscapeSequence, MissingClosingBrace,
    MissingVariableName, NoSuchVariable, UnexpectedCharacter,
};

/// The message that names the characters which may follow `${name`.
const AFTER_NAME: &str = "a closing brace ('}'), colon (':') or question mark ('?')";

/// The message that names the character which may follow `${name?`.
const AFTER_QUESTION_MARK: &str = "a closing brace ('}')";

/// The message that names the characters which may follow `${name` if `${name?}` is refused.
const AFTER_REQUIRED_NAME: &str = "a closing brace ('}') or colon (':')";

/// Returns the text of the fault that a record states of a source, or an empty text if it states none.
///
/// # Errors
///
/// If allocation fails.
pub fn text_of(alloc: Global, source: &[u8], fault: &FaultRecord) -> Result<String, AllocError>
    ensures { IfOk result (λ text.
        IsErrorText (stated_fault source.now fault.now) (string_bytes text)) }
{
    match stated(alloc, source, fault)? {
        Some(e) => answer::text_of(alloc, &e),
        None => Ok(String::new(alloc)),
    }
}

/// Returns the error that a record states of a source, or `None` if it states none.
///
/// # Errors
///
/// If allocation fails.
fn stated(alloc: Global, source: &[u8], fault: &FaultRecord) -> Result<Option<Error>, AllocError>
    ensures { IfOk result (IsFaultFound (stated_fault source.now fault.now)) }
{
    let position = fault.position;
    let Some(end) = position.checked_add(fault.length) else {
        return Ok(None);
    };
    let Some(span) = source.get(position..end) else {
        return Ok(None);
    };
    let before = source.get(position.saturating_sub(1)).copied();
    error_of_kind(alloc, fault.kind, position, span, before)
}

/// Returns the error of a kind at a position, with the bytes of its range, and the byte before it.
///
/// # Errors
///
/// If allocation fails.
fn error_of_kind(
    alloc: Global,
    kind: u32,
    position: usize,
    span: &[u8],
    before: Option<u8>,
) -> Result<Option<Error>, AllocError>
    ensures { IfOk result (IsFaultFound (fault_of_kind kind position span.now before)) }
{
    match kind {
        INVALID_ESCAPE_SEQUENCE => Ok(escape_error(position, span)),
        MISSING_VARIABLE_NAME => Ok(Some(Error::MissingVariableName(MissingVariableName {
            position,
            len: span.len(),
        }))),
        UNEXPECTED_CHARACTER => Ok(unexpected(position, span, expected_after(before))),
        MISSING_CLOSING_BRACE => Ok(closing_error(position, span)),
        NO_SUCH_VARIABLE => missing(alloc, position, span),
        UNEXPECTED_AFTER_NAME => Ok(unexpected(position, span, AFTER_REQUIRED_NAME)),
        _ => Ok(None),
    }
}

/// Returns the error of a backslash at a position, with the bytes of its range.
fn escape_error(position: usize, span: &[u8]) -> Option<Error>
    ensures { IsFaultFound (escape_fault position span.now) result }
{
    let character = match span {
        [] => return None,
        [_] => None,
        [_, rest @ ..] => Some(character(rest)?),
    };
    Some(Error::InvalidEscapeSequence(InvalidEscapeSequence {
        position,
        character,
    }))
}

/// Returns the error of an opening brace at a position, with the bytes of its range.
fn closing_error(position: usize, span: &[u8]) -> Option<Error>
    ensures { IsFaultFound (option_map (λ brace. TheClosingBrace position)
        (only_one span.now)) result }
{
    only_byte(span)?;
    Some(Error::MissingClosingBrace(MissingClosingBrace { position }))
}

/// Returns the error of an unexpected character at a position, with its bytes.
fn unexpected(position: usize, span: &[u8], expected: &'static str) -> Option<Error>
    requires { length expected.now ≤ MESSAGE_CAPACITY }
    ensures { IsFaultFound (option_map (λ c. TheCharacter position c expected.now)
        (character_of span.now)) result }
{
    Some(Error::UnexpectedCharacter(UnexpectedCharacter {
        position,
        character: character(span)?,
        expected: ExpectedCharacter::new(expected),
    }))
}

/// Returns the message that names the characters expected after this byte and a name in braces.
fn expected_after(before: Option<u8>) -> &'static str
    ensures { result.now ≡ expected_after before }
{
    match before {
        Some(byte) if byte == b'?' => AFTER_QUESTION_MARK,
        _ => AFTER_NAME,
    }
}

/// Returns the error of a missing variable, with the bytes of its name.
///
/// # Errors
///
/// If allocation fails.
fn missing(alloc: Global, position: usize, span: &[u8]) -> Result<Option<Error>, AllocError>
    ensures { IfOk result (IsFaultFound (missing_fault position span.now)) }
{
    let Ok(name) = str::from_utf8(span) else {
        return Ok(None);
    };
    Ok(Some(Error::NoSuchVariable(NoSuchVariable {
        position,
        name: String::from_str(alloc, name)?,
    })))
}

/// Returns the character or the byte that the bytes are, or `None` if they are neither.
fn character(bytes: &[u8]) -> Option<CharOrByte>
    ensures { result ≡ character_of bytes.now }
{
    match str::from_utf8(bytes) {
        Ok(text) => Some(CharOrByte::Char(only_character(text)?)),
        Err(_) => Some(CharOrByte::Byte(only_byte(bytes)?)),
    }
}

/// Returns the only byte, or `None` if there is none or several.
fn only_byte(bytes: &[u8]) -> Option<u8>
    ensures { result ≡ only_one bytes.now }
{
    match bytes {
        [byte] => Some(*byte),
        _ => None,
    }
}

/// Returns the only character of a text, or `None` if it has none or several.
fn only_character(text: &str) -> Option<char>
    ensures { result ≡ only_one (chars text.now) }
{
    let mut all = text.chars();
    let first = all.next()?;
    match all.next() {
        Some(_) => None,
        None => Some(first),
    }
}

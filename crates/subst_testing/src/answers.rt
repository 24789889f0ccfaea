//! Answers as texts: `gives Hello world!`, or the range and kind of a fault, such as `6..7:
//! MissingVariableName`.

use std::alloc::{AllocError, Global};
use subst_error::{CharOrByte, Error};

/// Returns the length in bytes of a backslash and the character after it, or of a backslash alone.
fn escape_len(character: &Option<CharOrByte>) -> usize {
    match character {
        Some(character) => character.source_len().saturating_add(1),
        None => 1,
    }
}

/// Returns the byte offset and the length in bytes of a fault.
fn offset_and_len(fault: &Error) -> (usize, usize) {
    match fault {
        Error::InvalidEscapeSequence(e) => (e.position, escape_len(&e.character)),
        Error::MissingVariableName(e) => (e.position, e.len),
        Error::UnexpectedCharacter(e) => (e.position, e.character.source_len()),
        Error::MissingClosingBrace(e) => (e.position, 1),
        Error::NoSuchVariable(e) => (e.position, e.name.len()),
        Error::OutOfMemory(_) => (0, 0),
    }
}

/// Returns the kind of a fault as a text, followed by the variable name or the character that the fault
/// states, if any.
fn kind_text(alloc: Global, fault: &Error) -> Result<String, AllocError> {
    match fault {
        Error::InvalidEscapeSequence(e) => match e.character {
            Some(character) => format!(in alloc; "InvalidEscapeSequence \\{character}"),
            None => String::from_str(alloc, "InvalidEscapeSequence at the end"),
        },
        Error::MissingVariableName(_) => String::from_str(alloc, "MissingVariableName"),
        Error::UnexpectedCharacter(e) => {
            format!(in alloc; "UnexpectedCharacter {}", e.character)
        }
        Error::MissingClosingBrace(_) => String::from_str(alloc, "MissingClosingBrace"),
        Error::NoSuchVariable(e) => format!(in alloc; "NoSuchVariable {}", e.name),
        Error::OutOfMemory(_) => String::from_str(alloc, "OutOfMemory"),
    }
}

/// Returns a fault as a text: its byte range in the source, and its kind.
pub fn fault_text(alloc: Global, fault: &Error) -> Result<String, AllocError> {
    let (start, len) = offset_and_len(fault);
    let end = start.saturating_add(len);
    let kind = kind_text(alloc, fault)?;
    format!(in alloc; "{start}..{end}: {kind}")
}

/// Formats the result of expanding a text: `gives` and the output, or the fault as a text.
pub fn text_or_fault(alloc: Global, filled: Result<String, Error>) -> Result<String, AllocError> {
    match filled {
        Ok(text) => format!(in alloc; "gives {text}"),
        Err(fault) => fault_text(alloc, &fault),
    }
}

/// Formats the result of expanding bytes: `gives` and the output, or the fault as a text.
pub fn bytes_or_fault(alloc: Global, filled: Result<Vec<u8>, Error>) -> Result<String, AllocError> {
    match filled {
        Ok(bytes) => output_text(alloc, bytes.as_slice()),
        Err(fault) => fault_text(alloc, &fault),
    }
}

/// Formats an output: `gives`, followed by the output's text, or by a list of the output's bytes if they
/// aren't UTF-8.
fn output_text(alloc: Global, bytes: &[u8]) -> Result<String, AllocError> {
    match str::from_utf8(bytes) {
        Ok(text) => format!(in alloc; "gives {text}"),
        Err(_) => format!(in alloc; "gives {bytes:?}"),
    }
}

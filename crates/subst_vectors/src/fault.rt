//! The columns of faults.

ghost use Rattle.std.specs.Prelude.{◌^◌, ◌<◌, IsTrue};
ghost use Rattle.subst.specs.ErrorFault.{error_fault};
ghost use Rattle.subst.specs.Range.{range_of};

use crate::encoding::{IN_TEXT, encoded};
use std::alloc::{AllocError, Global};
use std::ops::Range;
use subst::Error;
use subst::error::CharOrByte;

/// Returns the columns of a fault. Without a source, the source line and the underline are dots.
pub fn columns(alloc: Global, fault: &Error, source: Option<&str>) -> Result<String, AllocError> {
    let kind = kind_columns(alloc, fault)?;
    let text = format!(in alloc; "{fault}")?;
    let range = range_columns(alloc, fault, source)?;
    let text = encoded(alloc, text.as_bytes(), IN_TEXT)?;
    format!(in alloc; "fault\t{kind}\t{text}\t{range}")
}

/// Returns the columns of a fault's case, position, detail and expected characters.
fn kind_columns(alloc: Global, fault: &Error) -> Result<String, AllocError> {
    match fault {
        Error::InvalidEscapeSequence(e) => {
            let detail = escaped_character(alloc, e.character)?;
            format!(in alloc; "InvalidEscapeSequence\t{}\t{detail}\t-", e.position)
        }
        Error::MissingVariableName(e) => {
            format!(in alloc; "MissingVariableName\t{}\t{}\t-", e.position, e.len)
        }
        Error::UnexpectedCharacter(e) => {
            let detail = character(alloc, e.character)?;
            let expected = encoded(alloc, e.expected.message().as_bytes(), IN_TEXT)?;
            format!(in alloc; "UnexpectedCharacter\t{}\t{detail}\t{expected}", e.position)
        }
        Error::MissingClosingBrace(e) => {
            format!(in alloc; "MissingClosingBrace\t{}\t-\t-", e.position)
        }
        Error::NoSuchVariable(e) => {
            let name = encoded(alloc, e.name.as_bytes(), IN_TEXT)?;
            format!(in alloc; "NoSuchVariable\t{}\t{name}\t-", e.position)
        }
        Error::OutOfMemory(e) => Err(*e),
    }
}

fn escaped_character(alloc: Global, escaped: Option<CharOrByte>) -> Result<String, AllocError> {
    match escaped {
        Some(it) => character(alloc, it),
        None => String::from_str(alloc, "none"),
    }
}

fn character(alloc: Global, character: CharOrByte) -> Result<String, AllocError> {
    match character {
        CharOrByte::Char(c) => format!(in alloc; "c{:X}", u32::from(c)),
        CharOrByte::Byte(b) => format!(in alloc; "b{b:02X}"),
    }
}

/// Returns the columns of a fault's range, source line and underline.
fn range_columns(alloc: Global, fault: &Error, source: Option<&str>) -> Result<String, AllocError> {
    if !ends(fault) {
        return String::from_str(alloc, "its range has no end");
    }
    let Range { start, end } = fault.source_range();
    match source {
        None => format!(in alloc; "{start}..{end}\t.\t."),
        Some(text) if text.is_char_boundary(start) && text.is_char_boundary(end) => {
            let line = line_column(alloc, fault.source_line(text))?;
            let underlined = line_column(alloc, fault.source_highlighting(alloc, text)?.as_str())?;
            format!(in alloc; "{start}..{end}\t{line}\t{underlined}")
        }
        Some(_) => format!(in alloc; "{start}..{end} isn't in its source"),
    }
}

/// Returns whether the end of a fault's range fits in a `usize`.
fn ends(fault: &Error) -> bool
    ensures { IsTrue result → (range_of (error_fault fault.now)).end < 2 ^ 64 }
{
    match fault {
        Error::InvalidEscapeSequence(e) => match e.character {
            Some(c) => e
                .position
                .checked_add(c.source_len())
                .is_some_and(|end| end < usize::MAX),
            None => e.position.checked_add(1).is_some(),
        },
        Error::MissingVariableName(e) => e.position.checked_add(e.len).is_some(),
        Error::UnexpectedCharacter(e) => {
            e.position.checked_add(e.character.source_len()).is_some()
        }
        Error::MissingClosingBrace(e) => e.position.checked_add(1).is_some(),
        Error::NoSuchVariable(e) => e.position.checked_add(e.name.len()).is_some(),
        Error::OutOfMemory(_) => true,
    }
}

/// Returns a source line or an underline as a column of a row. A lone dot is escaped, since an unescaped dot
/// means that there is no line.
fn line_column(alloc: Global, line: &str) -> Result<String, AllocError> {
    match line {
        "." => String::from_str(alloc, "%2E"),
        _ => encoded(alloc, line.as_bytes(), IN_TEXT),
    }
}

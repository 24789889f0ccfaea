//! The run over the rows of a file.

use crate::format::{Json, Toml};
use crate::row::{Kind, Row, read_row, texts};
use crate::ways::Ways;
use crate::{bytes, document, lists, text};
use std::alloc::{AllocError, Global};
use std::str::from_utf8;
use std::{fs, io};
use subst::ByteTemplate;
use subst::error::ParseError;

/// The characters expected after a name in braces, in the words of the Rust crate.
const AFTER_NAME: &str = "a closing brace ('}') or colon (':')";

/// Runs the rows of a file, and prints how many hold, or which don't. Returns whether all hold.
pub fn rows_hold(rt: &HostRuntime, file: &str) -> io::Result<bool> {
    let all = fs::read_to_string(rt, file)?;
    let after_name = after_name(rt.alloc())?;
    let (mut number, mut rows, mut hold) = (0_u64, 0_u64, true);
    for line in all.split('\n') {
        number = number.saturating_add(1);
        if line.is_empty() || line.starts_with('#') {
            continue;
        }
        rows = rows.saturating_add(1);
        let differs = difference(rt.alloc(), line, &after_name)?;
        if !differs.is_empty() {
            hold = false;
            println!(rt; "{file}:{number}: {line}\n{differs}")?;
        }
    }
    if hold {
        println!(rt; "{file}: {rows} rows hold")?;
    }
    Ok(hold)
}

/// Returns this library's wording of the characters expected after a name. Rows from the Rust crate have the
/// wording `AFTER_NAME` instead.
fn after_name(alloc: Global) -> Result<String, AllocError> {
    match ByteTemplate::from_slice(alloc, b"${a(") {
        Err(ParseError::UnexpectedCharacter(e)) => String::from_str(alloc, e.expected.message()),
        _ => String::from_str(alloc, AFTER_NAME),
    }
}

/// Returns the difference between the answers of a row and the expected one. It is empty if the row holds.
fn difference(alloc: Global, line: &str, after_name: &str) -> Result<String, AllocError> {
    let mut ways = Ways::new(alloc);
    match read_row(alloc, line)? {
        Some(row) if call(&row, &mut ways)? => {
            let expected = row.expected.replace(alloc, AFTER_NAME, after_name)?;
            ways.difference(source_text(&row), &expected)
        }
        _ => String::from_str(alloc, "  the row is malformed"),
    }
}

/// Returns the source as a text, for the source line in a fault's columns. Returns `None` if the source isn't
/// UTF-8, or if the row's kind isn't `Bytes`.
fn source_text<'r>(row: &'r Row<'_>) -> Option<&'r str> {
    match from_utf8(&row.source) {
        Ok(text) if row.kind == Kind::Bytes => Some(text),
        _ => None,
    }
}

/// Makes the calls for a row and adds their answers. Returns `false` if the source is a document and a value
/// isn't UTF-8.
fn call(row: &Row<'_>, ways: &mut Ways) -> Result<bool, AllocError> {
    let source = row.source.as_slice();
    match (row.kind, texts(ways.alloc, &row.values)?) {
        (Kind::Bytes, texts) => {
            bytes::call(source, &row.values, ways)?;
            if let (Ok(source), Some(texts)) = (from_utf8(source), texts) {
                text::call(source, &texts, ways)?;
            }
        }
        (Kind::Lists, _) => lists::call(source, &row.values, ways)?,
        (Kind::Json, Some(texts)) => document::call::<Json>(source, &texts, ways)?,
        (Kind::Toml, Some(texts)) => document::call::<Toml>(source, &texts, ways)?,
        (Kind::JsonText, Some(texts)) => document::call_in_place::<Json>(source, &texts, ways)?,
        (Kind::TomlText, Some(texts)) => document::call_in_place::<Toml>(source, &texts, ways)?,
        (_, None) => return Ok(false),
    }
    Ok(true)
}

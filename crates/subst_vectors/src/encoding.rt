//! The encoding of bytes as a column of a row: UTF-8 text, with other bytes and some characters as `%XX`.

use percent_encoding::percent_decode;
use std::alloc::{AllocError, Global};
use std::fmt::Write;

/// The characters written as `%XX` in a text, besides control characters and invalid UTF-8.
pub const IN_TEXT: &str = "%";

/// The characters written as `%XX` in an entry of a list.
pub const IN_LIST: &str = "%,=";

/// Encodes bytes as a column. Characters in `escaped` are written as `%XX`.
pub fn encoded(alloc: Global, bytes: &[u8], escaped: &str) -> Result<String, AllocError> {
    let mut column = String::new(alloc);
    for chunk in bytes.utf8_chunks() {
        write_text(&mut column, chunk.valid(), escaped)?;
        for byte in chunk.invalid() {
            write!(column, "%{byte:02X}")?;
        }
    }
    match column.as_str() {
        "" => String::from_str(alloc, "-"),
        "-" => String::from_str(alloc, "%2D"),
        _ => Ok(column),
    }
}

fn write_text(column: &mut String, text: &str, escaped: &str) -> Result<(), AllocError> {
    for c in text.chars() {
        if c.is_ascii_control() || escaped.contains(c) {
            write!(column, "%{:02X}", u32::from(c))?;
        } else {
            column.push(c)?;
        }
    }
    Ok(())
}

/// Returns the bytes that a column encodes, or `None` if `encoded` would return another column for them.
pub fn read(alloc: Global, column: &str, escaped: &str) -> Result<Option<Vec<u8>>, AllocError> {
    let mut bytes = Vec::new(alloc);
    if column != "-" {
        percent_decode(column.as_bytes()).append_to(&mut bytes)?;
    }
    let again = encoded(alloc, &bytes, escaped)?;
    Ok((again.as_str() == column).then_some(bytes))
}

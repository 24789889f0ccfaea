//! Spelling of values in each kind of TOML string.

ghost use Rattle.std.specs.Prelude.{◌≡◌, ◌++◌, ℕ, List, IfOk, IsTrue, OnOk, string_bytes};
ghost use Rattle.std.specs.List.{list_all};
ghost use Rattle.subst_toml.specs.Kinds as kinds;

use crate::place::quotes;
use crate::place::spelling::{Style, without_newline};
use std::alloc::{AllocError, Global};
use subst_document::Part;
use toml_parser::bytes::is_non_eol;
use toml_parser::text::{first, starts_newline};

/// Returns whether a value fits into a token's kind of string. An empty value doesn't fit: a line
/// continuation before the value would also leave out the white space after the value. In single quotes, a
/// value with a single quote or a control character other than a tab doesn't fit either.
pub(super) fn fits(token: &str, value: &str) -> bool
    ensures { result ≡ kinds.fits token.now value.now }
{
    !value.is_empty() && (first(token) != b'\'' || are_literal(value.as_bytes()))
}

/// Returns whether a string in single quotes may contain each of `bytes`.
fn are_literal(bytes: &[u8]) -> bool
    ensures { result ≡ list_all kinds.is_literal bytes.now }
{
    bytes.iter().all(|byte| is_literal(*byte))
}

/// Returns whether a string in single quotes may contain a byte.
fn is_literal(byte: u8) -> bool
    ensures { result ≡ kinds.is_literal byte }
{
    is_non_eol(byte) && byte != b'\''
}

/// Appends `value`, spelled in the token's kind of string. Returns `false` if that kind can't spell it. If
/// the document's lines end in `\r\n`, a line feed in `value` is escaped in double quotes, and can't be
/// spelled in single quotes.
pub(super) fn write_value(
    token: &str,
    value: &str,
    has_crlf: bool,
    output: &mut String,
) -> Result<bool, AllocError>
    ensures { IfOk result (λ is. IsTrue is → (spelled : List ℕ)
        × (string_bytes output.new ≡ string_bytes output.old ++ spelled)) }
{
    let is_multi_line = has_three_quotes(token);
    if first(token) == b'\'' {
        if !is_raw(value, is_multi_line, has_crlf) {
            return Ok(false);
        }
        output.push_str(value)?;
        return Ok(true);
    }
    if value.as_bytes().iter().all(|byte| is_unescaped(*byte)) {
        output.push_str(value)?;
        return Ok(true);
    }
    let mut rest = value;
    if is_multi_line && ends_in_continuation(output.as_str()) {
        rest = write_blank(value, output)?;
    }
    write_escaped(rest, is_multi_line && !has_crlf, output)?;
    Ok(true)
}

/// Returns whether a byte needs no escape anywhere in a string in double quotes.
fn is_unescaped(byte: u8) -> bool {
    byte > b' ' && byte != b'"' && byte != b'\\' && byte != 0x7f
}

/// Returns whether a token begins with three quotes.
fn has_three_quotes(token: &str) -> bool {
    quotes(token).is_some_and(|quotes| quotes.len() == 3)
}

/// Returns whether a string in single quotes may contain each byte of `value`. Single quotes are allowed in a
/// multi-line string, and so are line feeds unless `has_crlf`.
fn is_raw(value: &str, is_multi_line: bool, has_crlf: bool) -> bool {
    value.as_bytes().iter().all(|byte| match byte {
        b'\n' => is_multi_line && !has_crlf,
        b'\'' => is_multi_line,
        byte => is_non_eol(*byte),
    })
}

/// Returns whether a text ends in a line continuation: a backslash at a line's end, and the white space after
/// it. White space at the start of a value that follows would extend the continuation.
fn ends_in_continuation(text: &str) -> bool {
    let before = text.trim_end();
    let blanks = text.get(before.len()..).unwrap_or("");
    before.ends_with('\\') && blanks.contains('\n')
}

/// Appends the first character of a value, escaped, if it is a space or a line feed. Returns the part of the
/// value that isn't appended.
fn write_blank<'v>(value: &'v str, output: &mut String) -> Result<&'v str, AllocError>
    ensures { OnOk result ((spelled : List ℕ)
        × (string_bytes output.new ≡ string_bytes output.old ++ spelled)) }
{
    let escape = match first(value) {
        b' ' => "\\u0020",
        b'\n' => "\\n",
        _ => "",
    };
    output.push_str(escape)?;
    Ok(if escape.is_empty() {
        value
    } else {
        value.get(1..).unwrap_or("")
    })
}

/// Appends a text, escaped for double quotes. Line feeds are kept if `keeps_lines`.
fn write_escaped(text: &str, keeps_lines: bool, output: &mut String) -> Result<(), AllocError>
    ensures { OnOk result ((spelled : List ℕ)
        × (string_bytes output.new ≡ string_bytes output.old ++ spelled)) }
{
    for c in text.chars() {
        write_in_lines(c, keeps_lines, output)?;
    }
    Ok(())
}

/// Appends a character, escaped if need be. A line feed is kept if `keeps_lines`.
fn write_in_lines(c: char, keeps_lines: bool, output: &mut String) -> Result<(), AllocError>
    ensures { OnOk result ((spelled : List ℕ)
        × (string_bytes output.new ≡ string_bytes output.old ++ spelled)) }
{
    if c == '\n' && keeps_lines {
        output.push('\n')
    } else {
        write_char(c, output)
    }
}

/// Appends a character, escaped if need be.
fn write_char(c: char, output: &mut String) -> Result<(), AllocError>
    ensures { OnOk result ((spelled : List ℕ)
        × (string_bytes output.new ≡ string_bytes output.old ++ spelled)) }
{
    match c {
        '"' => output.push_str("\\\""),
        '\\' => output.push_str("\\\\"),
        '\t' => output.push_str("\\t"),
        '\n' => output.push_str("\\n"),
        '\r' => output.push_str("\\r"),
        '\u{8}' => output.push_str("\\b"),
        '\u{c}' => output.push_str("\\f"),
        '\0'..'\u{10}' => write_code("\\u000", c, output),
        '\u{10}'..' ' => write_code("\\u001", c, output),
        '\u{7f}' => output.push_str("\\u007F"),
        c => output.push(c),
    }
}

/// Appends an escape: its beginning `escape`, and then the last hex digit of the code of `c`.
fn write_code(escape: &str, c: char, output: &mut String) -> Result<(), AllocError>
    ensures { OnOk result ((spelled : List ℕ)
        × (string_bytes output.new ≡ string_bytes output.old ++ spelled)) }
{
    let digit = char::from_digit(u32::from(c) % 16, 16).unwrap_or('0');
    output.push_str(escape)?;
    output.push(digit.to_ascii_uppercase())
}

/// Appends a line end of the document's kind, and returns `true`.
pub(super) fn write_line_end(has_crlf: bool, output: &mut String) -> Result<bool, AllocError>
    ensures { IfOk result (λ is. IsTrue is → (spelled : List ℕ)
        × (string_bytes output.new ≡ string_bytes output.old ++ spelled)) }
{
    let line_end = if has_crlf { "\r\n" } else { "\n" };
    output.push_str(line_end)?;
    Ok(true)
}

/// Returns a token in double quotes for the string that `parts` make. It has as many quotes as the old token
/// `token`, and keeps the line ends of the string's own text.
pub(super) fn double_quoted(
    alloc: Global,
    token: &str,
    parts: &[Part<'_>],
    has_crlf: bool,
) -> Result<String, AllocError> {
    let is_multi_line = has_three_quotes(token);
    let quotes = if is_multi_line { "\"\"\"" } else { "\"" };
    let mut content = String::new(alloc);
    for part in parts {
        match part {
            Part::Own(text) => write_own(text, is_multi_line, &mut content)?,
            Part::Value(text) => write_escaped(text, is_multi_line && !has_crlf, &mut content)?,
        }
    }
    let newline = opening_newline(token);
    let mut output = String::from_str(alloc, quotes)?;
    output.push_str(newline)?;
    if newline.is_empty() && starts_newline(&content) {
        write_line_end(has_crlf, &mut output)?;
    }
    output.push_str(&content)?;
    output.push_str(quotes)?;
    Ok(output)
}

/// Returns the line end after three opening quotes, or an empty text if there is none. This line end isn't
/// part of the string.
fn opening_newline(token: &str) -> &str {
    let Some(quotes) = quotes(token) else {
        return "";
    };
    let content = token.get(quotes.len()..).unwrap_or("");
    let rest = without_newline(content, Style::of(quotes));
    content.strip_suffix(rest).unwrap_or("")
}

/// Appends a string's own text, escaped for double quotes. In a multi-line string the line ends of the text
/// are kept.
fn write_own(text: &str, is_multi_line: bool, output: &mut String) -> Result<(), AllocError> {
    for (at, c) in text.char_indices() {
        if is_multi_line && starts_newline(text.get(at..).unwrap_or("")) {
            output.push(c)?;
        } else {
            write_char(c, output)?;
        }
    }
    Ok(())
}

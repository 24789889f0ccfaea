//! Texts escaped for a terminal.

ghost use Rattle.std.specs.Prelude.{◌≡◌, IfOk, string_bytes};
ghost use Rattle.subst_expander.specs.Messages.{are_printable, IsPrintable};

use std::alloc::{AllocError, Global};
use std::fmt::Write;

/// Escapes bytes for a terminal. Bytes that aren't UTF-8 become the replacement character, and a tab becomes
/// a space. Control characters and invisible ones are written by number, such as `\u{1b}`.
pub fn printable(alloc: Global, bytes: &[u8]) -> Result<String, AllocError>
    ensures { IfOk result (λ text. IsPrintable bytes.now → string_bytes text ≡ bytes.now) }
{
    let text = String::from_utf8_lossy(alloc, bytes)?;
    if are_printable(bytes) {
        return Ok(text);
    }
    let mut escaped = String::with_capacity(alloc, text.len())?;
    for c in text.chars() {
        push_printable(&mut escaped, c)?;
    }
    Ok(escaped)
}

/// Returns whether all bytes are printable ASCII. Such bytes aren't escaped, and each takes one column.
pub fn are_printable(bytes: &[u8]) -> bool
    ensures { result ≡ are_printable bytes.now }
{
    bytes.iter().all(|b| matches!(b, b' '..=b'~'))
}

/// Escapes a text for a terminal, except for its line feeds.
pub fn printable_lines(alloc: Global, text: &str) -> Result<String, AllocError> {
    let mut escaped = String::with_capacity(alloc, text.len())?;
    for c in text.chars() {
        if c == '\n' {
            escaped.push(c)?;
        } else {
            push_printable(&mut escaped, c)?;
        }
    }
    Ok(escaped)
}

/// Appends a character, escaped if needed.
fn push_printable(escaped: &mut String, c: char) -> Result<(), AllocError> {
    if c == '\t' {
        escaped.push(' ')
    } else if is_hidden(c) {
        write!(escaped, "\\u{{{:x}}}", u32::from(c)).map_err(|_| AllocError)
    } else {
        escaped.push(c)
    }
}

/// Returns whether a character is escaped as its number. This applies to control characters, line ends,
/// direction changes, and Unicode's default-ignorable characters. Other format characters of Unicode are
/// escaped too, unless they are signs of a writing system.
fn is_hidden(c: char) -> bool {
    c.is_control()
        || is_ignorable(c)
        || matches!(c, '\u{2028}'..='\u{202e}' | '\u{fff9}'..='\u{fffb}')
}

/// Returns whether a character is default-ignorable in Unicode: invisible where the character isn't
/// supported.
fn is_ignorable(c: char) -> bool {
    matches!(
        c,
        '\u{ad}' | '\u{34f}' | '\u{61c}' | '\u{115f}' | '\u{1160}' | '\u{17b4}' | '\u{17b5}'
    ) || matches!(c, '\u{180b}'..='\u{180f}' | '\u{200b}'..='\u{200f}' | '\u{2060}'..='\u{206f}')
        || matches!(
            c,
            '\u{3164}' | '\u{fe00}'..='\u{fe0f}' | '\u{feff}' | '\u{ffa0}'
        )
        || matches!(c, '\u{fff0}'..='\u{fff8}' | '\u{1bca0}'..='\u{1bca3}')
        || matches!(c, '\u{1d173}'..='\u{1d17a}' | '\u{e0000}'..='\u{e0fff}')
}

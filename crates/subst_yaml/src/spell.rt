//! Spells values as tokens. No contract states how. Instead, the output is read again and compared with the
//! source.

use crate::token::{header_rest, line_of};
use std::alloc::AllocError;
use subst_yaml_reader::Style;

/// The old token of a value that changes, with its style and indentation.
#[derive(Clone, Copy)]
pub(crate) struct Place<'t> {
    /// The style in which the value was written.
    pub(crate) style: Style,
    /// Whether the value is in brackets.
    pub(crate) in_flow: bool,
    /// The number of spaces before each line, if the value is written after `|` or `>`.
    pub(crate) indent: usize,
    /// The value's old token.
    pub(crate) token: &'t [u8],
}

/// Appends the token of `value`: in the style of `place` if the value fits, and otherwise in double quotes.
///
/// # Errors
///
/// If allocation fails.
pub(crate) fn append_value(
    output: &mut Vec<u8>,
    place: Place<'_>,
    value: &str,
) -> Result<(), AllocError> {
    match place.style {
        Style::Plain if is_printable(value) && fits_plain(value, place.in_flow) => {
            output.extend_from_slice(value.as_bytes())
        }
        Style::Single if is_printable(value) => append_quoted(output, Style::Single, value),
        Style::Literal | Style::Folded if fits_place(value, place) => {
            append_block(output, place, value)
        }
        Style::Literal | Style::Folded => {
            append_quoted(output, Style::Double, value)?;
            output.extend_from_slice(header_rest(place.token))
        }
        _ => append_quoted(output, Style::Double, value),
    }
}

/// Returns whether a character is printable. A tab isn't.
fn is_printable_char(character: char) -> bool {
    let is_control = character < ' ' || character >= '\u{7f}' && character < '\u{a0}';
    let is_odd = matches!(
        character,
        '\u{2028}' | '\u{2029}' | '\u{feff}' | '\u{fffe}' | '\u{ffff}'
    );
    !is_control && !is_odd
}

/// Returns whether all characters of a value are printable.
fn is_printable(value: &str) -> bool {
    value.chars().all(is_printable_char)
}

/// Returns whether all characters of a value are printable or line feeds.
pub(crate) fn has_printable_lines(value: &str) -> bool {
    value.chars().all(|character| is_printable_char(character) || character == '\n')
}

/// Returns whether a byte is a space, a tab or a line feed.
fn is_white(byte: u8) -> bool {
    byte == b' ' || byte == b'\t' || byte == b'\n'
}

/// Returns whether a byte ends unquoted text in brackets.
fn is_bracket(byte: u8) -> bool {
    matches!(byte, b',' | b'[' | b']' | b'{' | b'}')
}

/// Returns whether a value may be written without quotes, as far as this depends on its start.
fn begins_plain(value: &[u8]) -> bool {
    if value.starts_with(b"---") || value.starts_with(b"...") {
        return false;
    }
    match value {
        [] | [b'-'] => false,
        [b'-', next, ..] => !is_white(*next) && !is_bracket(*next),
        [
            b'#' | b'&' | b'*' | b'!' | b'|' | b'>' | b'\'' | b'"' | b'%' | b'@' | b'`',
            ..
        ] => false,
        [b'?' | b':', ..] => false,
        [first, ..] => !is_white(*first) && !is_bracket(*first),
    }
}

/// Returns whether a value may be written without quotes, as far as this depends on its end.
fn ends_plain(value: &[u8]) -> bool {
    match value {
        [] => false,
        [.., last] => !is_white(*last) && *last != b':',
    }
}

/// Returns whether a value of printable characters and line feeds can be written without quotes.
pub(crate) fn fits_plain(value: &str, in_flow: bool) -> bool {
    let bytes = value.as_bytes();
    if !begins_plain(bytes) || !ends_plain(bytes) || value == "=" || value == "<<" {
        return false;
    }
    if [": ", ":\n", " #", "\n#"]
        .iter()
        .any(|mark| value.contains(*mark))
    {
        return false;
    }
    !in_flow || !value.contains(":?") && !bytes.iter().any(|byte| is_bracket(*byte))
}

/// Returns the sign, `+` or `-`, in the header of a block scalar's token, or `None` if the header has none.
fn sign_of(token: &[u8]) -> Option<u8> {
    match token {
        [_, sign, ..] if *sign == b'+' || *sign == b'-' => Some(*sign),
        [_, digit, sign, ..]
            if *digit >= b'1' && *digit <= b'9' && (*sign == b'+' || *sign == b'-') => {
            Some(*sign)
        }
        _ => None,
    }
}

/// Returns the lines that spell `value` in a block scalar with the header of `token`: the value without the
/// line feed at its end, if any. The result is `None` if the header doesn't fit the value. A value that ends
/// in a line feed needs a header without a sign. Any other value needs the sign `-`.
fn lines_of<'v>(value: &'v str, token: &[u8]) -> Option<&'v str> {
    match sign_of(token) {
        Some(b'-') if !value.ends_with("\n") => Some(value),
        Some(_) => None,
        None => value.strip_suffix("\n"),
    }
}

/// Returns whether lines can be written after `|`, as far as this depends on their characters, the first line
/// and the last line.
fn are_lines(lines: &str) -> bool {
    let begins_with_text = match lines.as_bytes() {
        [] => false,
        [first, ..] => !is_white(*first),
    };
    let last = match lines.rsplit_once('\n') {
        Some((_, last)) => last,
        None => lines,
    };
    let ends_with_text = last.as_bytes().iter().any(|byte| !is_white(*byte));
    begins_with_text
        && ends_with_text
        && lines.chars().all(|character| is_printable_char(character)
            || character == '\n'
            || character == '\t')
}

/// Returns whether a value can be written after `|`, or folded after `>`, with the header of this old token.
pub(crate) fn fits_block(value: &str, token: &[u8]) -> bool {
    match lines_of(value, token) {
        Some(lines) => token.ends_with(b"\n") && are_lines(lines),
        None => false,
    }
}

/// Returns whether a value fits as lines under the header of `place`. After `>`, no line may be indented.
fn fits_place(value: &str, place: Place<'_>) -> bool {
    let has_indented = value.contains("\n ") || value.contains("\n\t");
    fits_block(value, place.token) && (matches!(place.style, Style::Literal) || !has_indented)
}

/// Appends a value as a block scalar with the header of `place`.
///
/// # Errors
///
/// If allocation fails.
fn append_block(output: &mut Vec<u8>, place: Place<'_>, value: &str) -> Result<(), AllocError> {
    let header = line_of(place.token);
    output.extend_from_slice(header)?;
    let lines = value.strip_suffix("\n").unwrap_or(value);
    append_lines(output, place, line_end_of(header), lines)
}

/// Returns the line end at the end of a line, `\r\n` or `\n`.
pub(crate) fn line_end_of(line: &[u8]) -> &'static str {
    if line.ends_with(b"\r\n") {
        "\r\n"
    } else {
        "\n"
    }
}

/// Appends the lines of a block scalar, with the indentation of `place` and with `line_end` after each line.
/// In the style `>`, an extra line end is added before each line that follows a line with text.
///
/// # Errors
///
/// If allocation fails.
pub(crate) fn append_lines(
    output: &mut Vec<u8>,
    place: Place<'_>,
    line_end: &str,
    lines: &str,
) -> Result<(), AllocError> {
    let is_folded = matches!(place.style, Style::Folded);
    let mut is_after_text = false;
    for line in lines.split('\n') {
        if is_folded && is_after_text {
            output.extend_from_slice(line_end.as_bytes())?;
        }
        is_after_text = !line.is_empty();
        if is_after_text {
            for _ in 0..place.indent {
                output.push(b' ')?;
            }
            output.extend_from_slice(line.as_bytes())?;
        }
        output.extend_from_slice(line_end.as_bytes())?;
    }
    Ok(())
}

/// Returns the last hexadecimal digit of a number.
fn last_digit(number: u32) -> u8 {
    let digit = (number % 16) as u8;
    if digit < 10 {
        b'0' + digit
    } else {
        b'A' + (digit - 10)
    }
}

/// Appends the escape, `\xXX` or `\uXXXX`, of the character with the code point `number`, which is below
/// 65,536.
///
/// # Errors
///
/// If allocation fails.
fn append_number(output: &mut Vec<u8>, number: u32) -> Result<(), AllocError> {
    if number < 256 {
        return output.extend_from_slice(&[
            b'\\',
            b'x',
            last_digit(number / 16),
            last_digit(number),
        ]);
    }
    output.extend_from_slice(&[
        b'\\',
        b'u',
        last_digit(number / 4096),
        last_digit(number / 256),
        last_digit(number / 16),
        last_digit(number),
    ])
}

/// Appends a character as it is written in double quotes.
///
/// # Errors
///
/// If allocation fails.
fn append_escaped(output: &mut Vec<u8>, character: char) -> Result<(), AllocError> {
    match character {
        '"' => output.extend_from_slice(b"\\\""),
        '\\' => output.extend_from_slice(b"\\\\"),
        '\n' => output.extend_from_slice(b"\\n"),
        '\t' => output.extend_from_slice(b"\\t"),
        '\r' => output.extend_from_slice(b"\\r"),
        _ if is_printable_char(character) => {
            let mut buffer = [0; 4];
            output.extend_from_slice(character.encode_utf8(&mut buffer).as_bytes())
        }
        _ => append_number(output, u32::from(character)),
    }
}

/// Appends the spelling of `words` in a quoted or unquoted style, without the quotes around it.
///
/// # Errors
///
/// If allocation fails.
pub(crate) fn append_words(
    output: &mut Vec<u8>,
    style: Style,
    words: &str,
) -> Result<(), AllocError> {
    for character in words.chars() {
        match style {
            Style::Double => append_escaped(output, character)?,
            Style::Single if character == '\'' => output.extend_from_slice(b"''")?,
            _ => {
                let mut buffer = [0; 4];
                output.extend_from_slice(character.encode_utf8(&mut buffer).as_bytes())?;
            }
        }
    }
    Ok(())
}

/// Returns the quote of a style, or an empty text if it has none.
pub(crate) fn quote_of(style: Style) -> &'static str {
    match style {
        Style::Single => "'",
        Style::Double => "\"",
        _ => "",
    }
}

/// Appends a value in the quotes of a style.
///
/// # Errors
///
/// If allocation fails.
fn append_quoted(output: &mut Vec<u8>, style: Style, value: &str) -> Result<(), AllocError> {
    output.extend_from_slice(quote_of(style).as_bytes())?;
    append_words(output, style, value)?;
    output.extend_from_slice(quote_of(style).as_bytes())
}

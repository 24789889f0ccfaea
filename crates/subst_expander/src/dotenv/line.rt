//! Lines of `.env` files.

ghost use Rattle.std.specs.Prelude.{◌≡◌, ◌≤◌, ◌<◌, ◌+◌, ◌∷◌, [], drop, take, IfOk, IfSome, length, option_map};
ghost use Rattle.subst_expander.specs.DotenvLine as dotenv;
ghost use Rattle.subst_expander.specs.DotenvLine.{least_len, line_of};
ghost use Rattle.subst_expander.specs.ValuesFile as file;
ghost use Rattle.subst_expander.specs.declared.dotenv.shell_text.Quote.TheVariants.{Bare};
ghost use Rattle.subst_language.specs.Language.Name as name;

use crate::dotenv::shell_text::{Quote, Text, begins_with, text_in};
use crate::values_file::{
    after_blanks, first_line, is_blank, is_ignored, message_of, without_return,
};
use std::alloc::{AllocError, Global};
use subst::is_name;

/// The message of a value whose quote never closes.
const UNCLOSED: &str = "missing closing quote";

/// The message of a line with text after a closing quote.
const TEXT_AFTER: &str = "text after the closing quote";

/// A parsed line of a `.env` file.
#[derive(Drop)]
pub enum Line<'t> {
    /// An empty line or a comment, and the text after it.
    Nothing(&'t [u8]),
    /// A line that sets a name to a value. The fields are the name, the value as a shell-style text, and the
    /// text after the line.
    Sets(&'t str, Vec<u8>, &'t [u8]),
    /// A wrong line, with the message of its error.
    Wrong(&'static str),
}

/// Parses the first line of a text. If the line's value is quoted, the value can continue on later lines.
///
/// # Errors
///
/// If allocation fails.
pub fn line_in(alloc: Global, text: &[u8]) -> Result<Line<'_>, AllocError>
    ensures line { IfOk result (λ line. line_of line ≡ dotenv.line_in text.now) }
    ensures shorter { 0 < length text.now
        → IfOk result (λ line. least_len (line_of line) ≤ length text.now) }
{
    let begun = after_blanks(text);
    let (line, later) = first_line(begun);
    if is_ignored(without_return(line)) {
        return Ok(Line::Nothing(later));
    }
    named_line(alloc, without_export(begun))
}

/// Parses the first line of a text, from the line's name on. Blanks and `export` before the name are already
/// removed.
///
/// # Errors
///
/// If allocation fails.
fn named_line(alloc: Global, text: &[u8]) -> Result<Line<'_>, AllocError>
    ensures line { IfOk result (λ line. line_of line ≡ dotenv.named_line text.now) }
    ensures shorter { IfOk result (λ line. least_len (line_of line) ≤ length text.now) }
{
    let (name, after) = split_name(text);
    if !is_name(name) {
        return Ok(Line::Wrong(wrong_message(text)));
    }
    let Ok(name) = str::from_utf8(name) else {
        return Ok(Line::Wrong(wrong_message(text)));
    };
    let Some((first, value)) = after_blanks(after).split_first() else {
        return Ok(Line::Wrong(wrong_message(text)));
    };
    if *first != b'=' {
        return Ok(Line::Wrong(wrong_message(text)));
    }
    value_line(alloc, name, value)
}

/// Returns the message of a line without a variable name or without `=`.
fn wrong_message(text: &[u8]) -> &'static str
    ensures { result.now ≡ dotenv.wrong_message text.now }
{
    let (line, _) = first_line(text);
    message_of(line)
}

/// Parses a line that sets `name`, from the text after the `=`.
///
/// # Errors
///
/// If allocation fails.
fn value_line<'t>(alloc: Global, name: &'t str, text: &'t [u8]) -> Result<Line<'t>, AllocError>
    ensures line { IfOk result (λ line. line_of line
        ≡ dotenv.value_line (dotenv.opening (file.after_blanks text.now)) name.now text.now) }
    ensures shorter { IfOk result (λ line. least_len (line_of line) ≤ length text.now + 1) }
{
    let (quote, after) = opening(after_blanks(text));
    match quote {
        Quote::Bare => bare_line(alloc, name, text),
        Quote::Single | Quote::Double => quoted_line(alloc, name, quote, after),
    }
}

/// Parses a line that sets `name` to a value without quotes, from the text after the `=`.
///
/// # Errors
///
/// If allocation fails.
fn bare_line<'t>(alloc: Global, name: &'t str, text: &'t [u8]) -> Result<Line<'t>, AllocError>
    ensures line { IfOk result (λ line. line_of line
        ≡ dotenv.value_line Bare name.now text.now) }
    ensures shorter { IfOk result (λ line. least_len (line_of line) ≤ length text.now + 1) }
{
    let (line, later) = first_line(text);
    let Some(Text { text, .. }) = text_in(alloc, without_return(line), Quote::Bare)? else {
        return Ok(Line::Wrong(UNCLOSED));
    };
    let value = Vec::from_slice(alloc, trimmed(after_blanks(&text)))?;
    Ok(Line::Sets(name, value, later))
}

/// Parses a line that sets `name` to a quoted value, from the text after the opening quote.
///
/// # Errors
///
/// If allocation fails.
fn quoted_line<'t>(
    alloc: Global,
    name: &'t str,
    quote: Quote,
    text: &'t [u8],
) -> Result<Line<'t>, AllocError>
    ensures line { IfOk result (λ line. line_of line
        ≡ dotenv.quoted_line name.now (dotenv.text_in quote text.now)) }
    ensures shorter { IfOk result (λ line. least_len (line_of line) ≤ length text.now + 1) }
{
    let Some(Text { text, rest }) = text_in(alloc, text, quote)? else {
        return Ok(Line::Wrong(UNCLOSED));
    };
    let (line, later) = first_line(rest);
    if !is_ended(without_return(line)) {
        return Ok(Line::Wrong(TEXT_AFTER));
    }
    Ok(Line::Sets(name, text, later))
}

/// Returns the quotes of the value that `bytes` begin with, and the bytes after the first byte.
fn opening(bytes: &[u8]) -> (Quote, &[u8])
    ensures quote { result.0 ≡ dotenv.opening bytes.now }
    ensures rest { result.1.now ≡ drop 1 bytes.now }
{
    match bytes.split_first() {
        None => (Quote::Bare, bytes),
        Some((first, after)) => (quote_of(*first), after),
    }
}

/// Returns the quotes of a value that begins with `byte`.
fn quote_of(byte: u8) -> Quote
    ensures { result ≡ dotenv.opening (byte ∷ []) }
{
    match byte {
        b'\'' => Quote::Single,
        b'"' => Quote::Double,
        _ => Quote::Bare,
    }
}

/// Returns whether the rest of a line has only blanks, or one or more blanks and then a comment.
fn is_ended(line: &[u8]) -> bool
    ensures { result ≡ dotenv.is_ended line.now }
{
    let mut rest = line;
    loop {
        let Some((first, after)) = rest.split_first() else {
            return true;
        };
        if !is_blank(*first) {
            return false;
        }
        if begins_with(after, b'#') {
            return true;
        }
        rest = after;
    }
}

/// Returns bytes without their trailing blanks.
fn trimmed(bytes: &[u8]) -> &[u8]
    ensures { result.now ≡ dotenv.trimmed bytes.now }
{
    let mut rest = bytes;
    loop {
        let Some((last, front)) = rest.split_last() else {
            return rest;
        };
        if !is_blank(*last) {
            return rest;
        }
        rest = front;
    }
}

/// Splits a text into the ASCII letters, digits and underscores that it begins with, and the rest.
fn split_name(text: &[u8]) -> (&[u8], &[u8])
    ensures name { result.0.now ≡ take (dotenv.name_len text.now) text.now }
    ensures rest { result.1.now ≡ drop (dotenv.name_len text.now) text.now }
{
    text.split_at(name_len(text))
}

/// Returns the number of ASCII letters, digits and underscores that a text begins with.
fn name_len(text: &[u8]) -> usize
    ensures len { result ≡ dotenv.name_len text.now }
    ensures within { result ≤ length text.now }
{
    let end = text.iter().position(|byte| !is_name_byte(*byte));
    end.unwrap_or(text.len())
}

/// Returns whether a byte can be in a variable name.
fn is_name_byte(byte: u8) -> bool
    ensures { result ≡ name.is_name_byte byte }
{
    byte.is_ascii_alphanumeric() || byte == b'_'
}

/// Returns a text without a leading `export` and the blanks after it. If no blank follows, `export` is part
/// of a name.
fn without_export(text: &[u8]) -> &[u8]
    ensures text { result.now ≡ dotenv.without_export text.now }
    ensures shorter { length result.now ≤ length text.now }
{
    let Some(after) = text.strip_prefix(b"export") else {
        return text;
    };
    if begins_blank(after) {
        after_blanks(after)
    } else {
        text
    }
}

/// Returns whether a text begins with a blank.
fn begins_blank(text: &[u8]) -> bool
    ensures { result ≡ dotenv.begins_blank text.now }
{
    match text.first() {
        Some(first) => is_blank(*first),
        None => false,
    }
}

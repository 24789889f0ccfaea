//! The ends of tokens. Most functions return the text after a token at the start of their argument.

ghost use Rattle.std.specs.Prelude.{◌≡◌, ◌≤◌, ◌+◌, length, false, None, Some, OnErr, IfNone, IfOk, IfSome};
ghost use Rattle.subst_yaml_reader.specs.Runs.{after_blanks, after_block, after_double, after_line_ends, after_lines, after_name, after_plain, after_plain_lines, after_single, after_spaces, breaks, closes, digits_after, ends_plain, escape_after, goes_on, hex_value, is_colon_end, is_escape, is_past, is_surrogate, is_text, next_line, to_line_end, with_digit};
ghost use Rattle.subst_yaml_reader.specs.Search.{after_inner, is_indentation};
ghost use Rattle.subst_yaml_reader.specs.declared.runs.Escape.TheVariants.{Nothing};

use crate::bytes::{
    begins, is_blank, is_bracket, is_document_mark, is_foreign, is_inner, is_line_end,
    is_line_over, is_name_byte,
};
use crate::error::{Halt, Reason};
use crate::search::{after_clear, after_quoted, to_line_feed};

/// The state of an escape between double quotes.
#[derive(Clone, Copy)]
pub(crate) enum Escape {
    /// Not in an escape.
    Nothing,
    /// After the backslash.
    Escaped,
    /// In an escape with digits, after its letter: how many digits are missing, and the value of the digits
    /// so far.
    Digits(u8, u32),
}

/// Returns whether every YAML reader accepts all characters of the text.
#[tactic(auto, unfolding(crate::specs::Runs::is_text))]
pub(crate) fn is_text(text: &[u8]) -> bool
    ensures { result ≡ is_text text.now }
{
    let mut rest = after_clear(text);
    while let [first, tail @ ..] = rest {
        if is_foreign(*first, tail) {
            return false;
        }
        rest = after_clear(tail);
    }
    true
}

/// Returns the text without the spaces and tabs at its start.
#[tactic(auto, unfolding(crate::specs::Runs::after_blanks))]
pub(crate) fn after_blanks(text: &[u8]) -> &[u8]
    ensures { result.now ≡ after_blanks text.now }
{
    let mut rest = text;
    while let [first, tail @ ..] = rest {
        if !is_blank(*first) {
            return rest;
        }
        rest = tail;
    }
    rest
}

/// Returns the text without the spaces at its start.
#[tactic(auto, unfolding(crate::specs::Runs::after_spaces))]
pub(crate) fn after_spaces(text: &[u8]) -> &[u8]
    ensures value { result.now ≡ after_spaces text.now }
    ensures shorter { length result.now ≤ length text.now }
{
    let mut rest = text;
    while let [first, tail @ ..] = rest {
        if *first != b' ' {
            return rest;
        }
        rest = tail;
    }
    rest
}

/// Returns the text without the line ends at its start.
#[tactic(auto, unfolding(crate::specs::Runs::after_line_ends))]
pub(crate) fn after_line_ends(text: &[u8]) -> &[u8]
    ensures { result.now ≡ after_line_ends text.now }
{
    let mut rest = text;
    while let [first, tail @ ..] = rest {
        if !is_line_end(*first) {
            return rest;
        }
        rest = tail;
    }
    rest
}

/// Returns the text from the end of its first line on.
#[tactic(auto, unfolding(crate::specs::Runs::to_line_end))]
pub(crate) fn to_line_end(text: &[u8]) -> &[u8]
    ensures { result.now ≡ to_line_end text.now }
{
    let mut rest = text;
    while let [first, tail @ ..] = rest {
        if is_line_end(*first) {
            return rest;
        }
        rest = tail;
    }
    rest
}

/// Returns the text without the bytes of a name at its start. The name belongs to a tag if `in_tag`, and
/// otherwise to an anchor or an alias.
#[tactic(auto, unfolding(crate::specs::Runs::after_name))]
pub(crate) fn after_name(text: &[u8], in_tag: bool) -> &[u8]
    ensures { result.now ≡ after_name in_tag text.now }
{
    let mut rest = text;
    while let [first, tail @ ..] = rest {
        if !is_name_byte(*first, in_tag) {
            return rest;
        }
        rest = tail;
    }
    rest
}

/// Returns whether a byte is a space, as in indentation, or a carriage return, as in an empty line.
fn is_indentation(byte: u8) -> bool
    ensures { result ≡ is_indentation byte }
{
    byte == b' ' || byte == b'\r'
}

/// Skips indentation and empty lines before the next token, and also comments if `comments`. Returns the
/// number of bytes from the start of the token's line to the end of the source, and the text from the token
/// on. `line` is that number for the line in which `text` begins.
#[tactic(auto, unfolding(crate::specs::Runs::after_lines))]
#[inline(always)]
pub(crate) fn after_lines(text: &[u8], line: usize, comments: bool) -> (usize, &[u8])
    ensures { after_lines comments false line text.now ≡ (result.0, result.1.now) }
{
    let mut begin = line;
    let mut rest = text;
    while let [first, tail @ ..] = rest {
        if is_indentation(*first) {
            rest = after_spaces(tail);
        } else if *first == b'\n' {
            begin = tail.len();
            rest = tail;
        } else if comments && *first == b'#' {
            rest = to_line_feed(tail);
        } else {
            return (begin, rest);
        }
    }
    (begin, rest)
}

/// Returns whether a colon before `rest` ends unquoted text.
fn is_colon_end(rest: &[u8], in_flow: bool) -> bool
    ensures { result ≡ is_colon_end in_flow rest.now }
{
    match rest {
        [] => true,
        [next, ..] => {
            is_blank(*next) || is_line_end(*next) || in_flow && (is_bracket(*next) || *next == b'?')
        }
    }
}

/// Returns whether unquoted text ends before `byte`, which `rest` follows.
#[inline(always)]
fn ends_plain(byte: u8, rest: &[u8], in_flow: bool) -> bool
    ensures { result ≡ ends_plain in_flow byte rest.now }
{
    is_line_end(byte)
        || byte == b':' && is_colon_end(rest, in_flow)
        || is_blank(byte) && begins(rest, b'#')
        || in_flow && is_bracket(byte)
}

/// Skips the first line of the unquoted text at the start of `text`, but not blanks at that line's end.
/// Returns the rest of `text`.
#[tactic(auto, unfolding(crate::specs::Runs::after_plain))]
pub(crate) fn after_plain(text: &[u8], in_flow: bool) -> &[u8]
    ensures { result.now ≡ after_plain in_flow text.now text.now }
{
    let mut end = text;
    let mut rest = text;
    while let [first, tail @ ..] = rest {
        if is_inner(*first) {
            rest = after_inner(tail);
            end = rest;
        } else if ends_plain(*first, tail, in_flow) {
            return end;
        } else {
            if !is_blank(*first) {
                end = tail;
            }
            rest = tail;
        }
    }
    end
}

/// Skips bytes that aren't blanks and that belong to unquoted text whatever follows them. Returns the text
/// after these bytes.
#[tactic(auto, unfolding(crate::specs::Search::after_inner))]
#[inline(always)]
fn after_inner(text: &[u8]) -> &[u8]
    ensures value { result.now ≡ after_inner text.now }
    ensures shorter { length result.now ≤ length text.now }
{
    let mut rest = text;
    while let [first, tail @ ..] = rest {
        if !is_inner(*first) {
            return rest;
        }
        rest = tail;
    }
    rest
}

/// Returns whether a byte is a line feed before a document mark. `rest` is the text after the byte.
fn breaks(byte: u8, rest: &[u8]) -> bool
    ensures { result ≡ breaks byte rest.now }
{
    byte == b'\n' && is_document_mark(rest)
}

/// Returns the text after the closing single quote. `text` begins after the opening quote.
#[tactic(auto, unfolding(crate::specs::Runs::after_single))]
pub(crate) fn after_single(text: &[u8]) -> Result<&[u8], Halt>
    ensures ok { IfOk result (λ rest. after_single false text.now ≡ Some rest.now) }
    ensures err { OnErr result (after_single false text.now ≡ None) }
{
    let mut is_quoted = false;
    let mut rest = after_quoted(text);
    while let [first, tail @ ..] = rest {
        if *first == b'\'' {
            is_quoted = !is_quoted;
            rest = tail;
        } else if is_quoted {
            return Ok(rest);
        } else if breaks(*first, tail) {
            return Err(Halt::before(Reason::Quote, text));
        } else {
            rest = after_quoted(tail);
        }
    }
    if is_quoted {
        Ok(rest)
    } else {
        Err(Halt::before(Reason::Quote, text))
    }
}

/// Returns whether a byte after a backslash makes an escape without digits.
fn is_escape(byte: u8) -> bool
    ensures { result ≡ is_escape byte }
{
    byte == b'0'
        || byte == b'a'
        || byte == b'b'
        || byte == b't'
        || byte == b'n'
        || byte == b'v'
        || byte == b'f'
        || byte == b'r'
        || byte == b'e'
        || byte == b'N'
        || byte == b'_'
        || byte == b'L'
        || byte == b'P'
        || byte == b'/'
        || byte == b'\\'
        || byte == b'"'
        || is_blank(byte)
        || is_line_end(byte)
}

/// Returns the number of digits in an escape with the letter `x`, `u` or `U`, or 0 for another byte.
pub(crate) fn digits_after(byte: u8) -> u8
    ensures { result ≡ digits_after byte }
{
    match byte {
        b'x' => 2,
        b'u' => 4,
        b'U' => 8,
        _ => 0,
    }
}

/// Returns the value of a hexadecimal digit, or 16 for another byte.
pub(crate) fn hex_value(byte: u8) -> u32
    ensures { result ≡ hex_value byte }
{
    if byte >= b'0' && byte < b':' {
        (byte - b'0') as u32
    } else if byte >= b'A' && byte < b'G' {
        (byte - 55) as u32
    } else if byte >= b'a' && byte < b'g' {
        (byte - 87) as u32
    } else {
        16
    }
}

/// Returns whether a number is a surrogate of UTF-16.
fn is_surrogate(number: u32) -> bool
    ensures { result ≡ is_surrogate number }
{
    number >= 0xD800 && number < 0xE000
}

/// Returns the state of an escape after `digit`, the next of `left` missing digits. `value` is the value of
/// the digits before it. Returns `None` if `digit` is over 15, if the number so far is over 0x10FFFF, or if
/// the complete number is a surrogate.
fn with_digit(left: u8, value: u32, digit: u32) -> Option<Escape>
    ensures { result ≡ with_digit left value digit }
{
    if digit >= 16 || value >= 0x1_1000 {
        return None;
    }
    let number = value * 16 + digit;
    if left > 1 {
        Some(Escape::Digits(left - 1, number))
    } else if is_surrogate(number) {
        None
    } else {
        Some(Escape::Nothing)
    }
}

/// Returns the state of an escape after a byte in double quotes, or `None` if the byte isn't accepted.
/// `escape` is the state before the byte, and `rest` is the text after it.
pub(crate) fn escape_after(escape: Escape, byte: u8, rest: &[u8]) -> Option<Escape>
    ensures { result ≡ escape_after escape byte rest.now }
{
    match escape {
        Escape::Nothing if breaks(byte, rest) => None,
        Escape::Nothing if byte == b'\\' => Some(Escape::Escaped),
        Escape::Nothing => Some(Escape::Nothing),
        Escape::Escaped if digits_after(byte) > 0 => Some(Escape::Digits(digits_after(byte), 0)),
        Escape::Escaped if is_escape(byte) && !breaks(byte, rest) => Some(Escape::Nothing),
        Escape::Escaped => None,
        Escape::Digits(left, value) => with_digit(left, value, hex_value(byte)),
    }
}

/// Returns whether a byte closes double quotes: it is a quote, and not in an escape.
pub(crate) fn closes(escape: Escape, byte: u8) -> bool
    ensures { result ≡ closes escape byte }
{
    matches!(escape, Escape::Nothing) && byte == b'"'
}

/// Returns the text after the closing double quote. `text` begins after the opening quote.
#[tactic(auto, unfolding(crate::specs::Runs::after_double))]
pub(crate) fn after_double(text: &[u8]) -> Result<&[u8], Halt>
    ensures ok { IfOk result (λ rest. after_double Nothing text.now ≡ Some rest.now) }
    ensures err { OnErr result (after_double Nothing text.now ≡ None) }
{
    let mut escape = Escape::Nothing;
    let mut rest = after_quoted(text);
    while let [first, tail @ ..] = rest {
        if closes(escape, *first) {
            return Ok(tail);
        }
        match escape_after(escape, *first, tail) {
            Some(Escape::Nothing) => {
                escape = Escape::Nothing;
                rest = after_quoted(tail);
            }
            Some(next) => {
                escape = next;
                rest = tail;
            }
            None if breaks(*first, tail) => return Err(Halt::before(Reason::Quote, text)),
            None => return Err(Halt::at(Reason::Escape, rest)),
        }
    }
    Err(Halt::before(Reason::Quote, text))
}

/// Returns whether `column` is past `outer`, the column of a collection. Returns `true` if `outer` is `None`.
pub(crate) fn is_past(outer: Option<usize>, column: usize) -> bool
    ensures { result ≡ is_past outer column }
{
    match outer {
        None => true,
        Some(outer) => outer < column,
    }
}

/// Returns whether a line that is indented to `column` continues unquoted text in a collection at the column
/// `outer`.
fn goes_on(outer: Option<usize>, column: usize, line: &[u8]) -> bool
    ensures { result ≡ goes_on outer column line.now }
{
    match line {
        [] => false,
        [first, rest @ ..] => {
            is_past(outer, column)
                && !(column == 0 && is_document_mark(line))
                && *first != b'#'
                && !is_blank(*first)
                && !ends_plain(*first, rest, false)
        }
    }
}

/// Finds the line that continues the unquoted text before `text`. Returns the rest of `text` after that
/// line's indentation, or `None` if no line continues the unquoted text.
fn next_line(outer: Option<usize>, text: &[u8]) -> Option<&[u8]>
    ensures some { IfSome result (λ line. next_line outer text.now ≡ Some line.now) }
    ensures none { IfNone result (next_line outer text.now ≡ None) }
{
    if !is_line_over(text) {
        return None;
    }
    let (begin, line) = after_lines(text, 0, false);
    if goes_on(outer, begin.saturating_sub(line.len()), line) {
        Some(line)
    } else {
        None
    }
}

/// Returns the text after the lines of unquoted text in a collection at the column `outer`. `text` begins
/// after the first of these lines.
#[tactic(auto, unfolding(crate::specs::Runs::after_plain_lines))]
pub(crate) fn after_plain_lines(text: &[u8], outer: Option<usize>) -> &[u8]
    ensures { result.now ≡ after_plain_lines (length text.now + 1) outer text.now }
{
    let mut rest = text;
    for turn in 0..text.len() + 1 {
        match next_line(outer, after_blanks(rest)) {
            Some(line) => rest = after_plain(line, false),
            None => return rest,
        }
    }
    rest
}

/// Returns the text after the lines of a block scalar, or `end` if there are no lines. The lines are indented
/// by `indent` spaces. Empty lines at the end belong to the scalar if `keep`.
#[tactic(auto, unfolding(crate::specs::Runs::after_block))]
pub(crate) fn after_block<'t>(text: &'t [u8], end: &'t [u8], indent: usize, keep: bool) -> &'t [u8]
    ensures { result.now ≡ after_block indent keep false 0 end.now text.now }
{
    let mut end = end;
    let mut column = 0;
    let mut rest = text;
    while let [first, tail @ ..] = rest {
        if *first == b'\n' {
            if keep {
                end = tail;
            }
            column = 0;
            rest = tail;
        } else if *first == b'\r' {
            rest = tail;
        } else if column >= indent {
            let line_end = to_line_feed(tail);
            let [_, next @ ..] = line_end else {
                return line_end;
            };
            end = next;
            column = 0;
            rest = next;
        } else if *first == b' ' {
            column += 1;
            rest = tail;
        } else {
            return end;
        }
    }
    if keep { rest } else { end }
}

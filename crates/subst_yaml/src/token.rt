//! Tokens of a text, and whether filling in the text can change their values.

ghost use Rattle.std.specs.Prelude.{◌≡◌, slice_range};
ghost use Rattle.std.specs.List.{list_any};
ghost use Rattle.subst_yaml.specs.Filled.{header_rest, is_alias, is_mark, is_sign, after_line, after_signs, line_of, may_change, token_at};

use subst_yaml_reader::{Span, Style};

/// Returns the bytes of a text from `start` to `end`, as far as the text has them.
pub(crate) fn part(text: &[u8], start: usize, end: usize) -> &[u8]
    ensures { result.now ≡ slice_range text.now start end }
{
    let end = end.min(text.len());
    let start = start.min(end);
    &text[start..end]
}

/// Returns the bytes at a span.
pub(crate) fn token_at(text: &[u8], span: Span) -> &[u8]
    ensures { result.now ≡ token_at text.now span }
{
    part(text, span.start, span.end)
}

/// Returns whether a byte is a dollar or a backslash. A string whose token has neither is unchanged.
fn is_mark(byte: u8) -> bool
    ensures { result ≡ is_mark byte }
{
    byte == b'$' || byte == b'\\'
}

/// Returns whether a value is an alias.
fn is_alias(style: Style) -> bool
    ensures { result ≡ is_alias style }
{
    matches!(style, Style::Alias)
}

/// Returns whether a token contains a dollar or a backslash.
fn has_mark(token: &[u8]) -> bool
    ensures { result ≡ list_any is_mark token.now }
{
    token.iter().any(|byte| is_mark(*byte))
}

/// Returns whether the value of a token may change: whether the token contains a dollar or a backslash, and
/// isn't an alias.
#[tactic(auto, unfolding(crate::specs::Filled::may_change))]
pub(crate) fn may_change(style: Style, token: &[u8]) -> bool
    ensures { result ≡ may_change style token.now }
{
    !is_alias(style) && has_mark(token)
}

/// Returns whether a byte is a digit or a sign.
fn is_sign(byte: u8) -> bool
    ensures { result ≡ is_sign byte }
{
    byte == b'+' || byte == b'-' || byte > b'/' && byte < b':'
}

/// Returns a text without the leading bytes for which `is_sign` returns `true`: digits and signs.
#[tactic(auto, unfolding(crate::specs::Filled::after_signs))]
fn after_signs(text: &[u8]) -> &[u8]
    ensures { result.now ≡ after_signs text.now }
{
    let mut rest = text;
    while let [byte, tail @ ..] = rest {
        if !is_sign(*byte) {
            return rest;
        }
        rest = tail;
    }
    rest
}

/// Returns the rest of a text after its first line.
#[tactic(auto, unfolding(crate::specs::Filled::after_line))]
fn after_line(text: &[u8]) -> &[u8]
    ensures { result.now ≡ after_line text.now }
{
    let mut rest = text;
    while let [byte, tail @ ..] = rest {
        if *byte == b'\n' {
            return tail;
        }
        rest = tail;
    }
    rest
}

/// Returns the first line of a text, with its line end.
pub(crate) fn line_of(text: &[u8]) -> &[u8]
    ensures { result.now ≡ line_of text.now }
{
    let len = text.len().saturating_sub(after_line(text).len());
    &text[..len]
}

/// Returns the rest of a token's first line, after `|` or `>` and any digits and signs: a comment, if any,
/// and the line end.
pub(crate) fn header_rest(token: &[u8]) -> &[u8]
    ensures { result.now ≡ header_rest token.now }
{
    line_of(after_signs(part(token, 1, token.len())))
}

/// Returns the number of the line that contains a byte offset in a text. The first line has the number 1.
pub(crate) fn line_at(text: &[u8], position: usize) -> usize {
    let before = part(text, 0, position);
    before
        .iter()
        .filter(|byte| **byte == b'\n')
        .count()
        .saturating_add(1)
}

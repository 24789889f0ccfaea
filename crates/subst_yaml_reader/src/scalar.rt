//! The parts of a node: names, scalars, and the gaps after them.

ghost use Rattle.std.specs.Prelude.{◌≡◌, true, None, Some, OnErr, IfOk, IfSome, IfNone, option_map};
ghost use Rattle.subst_yaml_reader.specs.Scalar.{after_byte, after_gap, begins_plain, colon_follows, digit_at, fits_key, header, is_name_over, is_property, joined, line_end_of, name_end, node_properties, one_property, property, property_of, scalar, sign_at};

use crate::bytes::{begins, is_apart, is_blank, is_indicator, is_line_end, is_line_over};
use crate::error::{Halt, Reason};
use crate::event::Style;
use crate::runs::{
    after_blanks, after_double, after_lines, after_name, after_plain, after_single, to_line_end,
};

/// The greatest length of a key in bytes, with the anchor and the tag before it.
pub(crate) const LONGEST_KEY: usize = 1024;

/// The properties of a node: whether it has an anchor, and whether a tag.
#[derive(Clone, Copy)]
pub(crate) struct Properties {
    /// Whether the node has an anchor.
    pub(crate) anchor: bool,
    /// Whether the node has a tag.
    pub(crate) tag: bool,
}

/// The position of a token, as three values:
///
/// - whether the token is the first on its line;
/// - the number of bytes from the start of that line to the end of the source;
/// - the text from the token on.
pub(crate) type Spot<'t> = (bool, usize, &'t [u8]);

/// The header of a block scalar: its digit (0 if it has none), whether it has a `+`, and the text from the
/// end of its line on.
pub(crate) type Header<'t> = (usize, bool, &'t [u8]);

/// Returns the text without its first byte if that is `byte`, and otherwise the text.
pub(crate) fn after_byte(text: &[u8], byte: u8) -> &[u8]
    ensures { result.now ≡ after_byte byte text.now }
{
    match text {
        [first, rest @ ..] if *first == byte => rest,
        _ => text,
    }
}

/// Returns the position of the next token, after blanks, comments and line ends. `line` is the length of the
/// source from the start of the line in which `text` begins.
#[tactic(auto, unfolding(crate::specs::Scalar::after_gap))]
pub(crate) fn after_gap(text: &[u8], line: usize) -> Spot<'_>
    ensures { after_gap line text.now ≡ (result.0, result.1, result.2.now) }
{
    let rest = after_blanks(text);
    if is_line_over(rest) || begins(rest, b'#') && !begins(text, b'#') {
        let (begin, next) = after_lines(rest, 0, true);
        (true, begin, next)
    } else {
        (false, line, rest)
    }
}

/// Returns whether a name may end before this text.
fn is_name_over(text: &[u8], in_flow: bool, in_tag: bool) -> bool
    ensures { result ≡ is_name_over in_flow in_tag text.now }
{
    is_apart(text)
        || in_flow && !in_tag && (begins(text, b',') || begins(text, b']') || begins(text, b'}'))
}

/// Returns the text after the name at its start. Refuses the byte after the name if the name is empty or
/// can't end before that byte.
#[tactic(auto, unfolding(crate::specs::Scalar::name_end))]
fn name_end(text: &[u8], in_flow: bool, in_tag: bool) -> Result<&[u8], Halt>
    ensures ok { IfOk result (λ rest. name_end in_flow in_tag text.now ≡ Some rest.now) }
    ensures err { OnErr result (name_end in_flow in_tag text.now ≡ None) }
{
    let rest = after_name(text, in_tag);
    if rest.len() < text.len() && is_name_over(rest, in_flow, in_tag) {
        Ok(rest)
    } else {
        Err(Halt::at(Reason::Name, rest))
    }
}

/// Returns whether the text begins with an anchor or a tag.
fn is_property(text: &[u8]) -> bool
    ensures { result ≡ is_property text.now }
{
    begins(text, b'&') || begins(text, b'!')
}

/// Returns the text after the anchor or the tag at its start.
#[tactic(auto, unfolding(crate::specs::Scalar::property))]
fn property(text: &[u8], in_flow: bool) -> Result<&[u8], Halt>
    ensures ok { IfOk result (λ rest. property in_flow text.now ≡ Some rest.now) }
    ensures err { OnErr result (property in_flow text.now ≡ None) }
{
    if begins(text, b'!') {
        name_end(after_byte(after_byte(text, b'!'), b'!'), in_flow, true)
    } else {
        name_end(after_byte(text, b'&'), in_flow, false)
    }
}

/// Returns the union of two parts of a node's properties. Two anchors or two tags are refused at `text`.
pub(crate) fn joined(first: Properties, second: Properties, text: &[u8]) -> Result<Properties, Halt>
    ensures ok { IfOk result (λ both. joined first second ≡ Some both) }
    ensures err { OnErr result (joined first second ≡ None) }
{
    if first.anchor && second.anchor || first.tag && second.tag {
        return Err(Halt::at(Reason::Properties, text));
    }
    Ok(Properties {
        anchor: first.anchor || second.anchor,
        tag: first.tag || second.tag,
    })
}

/// Reads the anchor or the tag at the start of the text. Returns which it is, and the next token's position.
#[tactic(auto, unfolding(crate::specs::Scalar::one_property))]
fn one_property(text: &[u8], line: usize, in_flow: bool) -> Result<(Properties, Spot<'_>), Halt>
    ensures ok { IfOk result (λ found. one_property in_flow line text.now
        ≡ Some (found.0, (found.1.0, found.1.1, found.1.2.now))) }
    ensures err { OnErr result (one_property in_flow line text.now ≡ None) }
{
    let rest = property(text, in_flow)?;
    let found = Properties {
        anchor: begins(text, b'&'),
        tag: begins(text, b'!'),
    };
    Ok((found, after_gap(rest, line)))
}

/// Reads an anchor and a tag, if any, at the start of the text. Returns which of the two were read, and the
/// next token's position. If neither was read, the first value of the position is always `false`.
#[tactic(auto, unfolding(crate::specs::Scalar::node_properties))]
#[inline(always)]
pub(crate) fn node_properties(
    text: &[u8],
    line: usize,
    in_flow: bool,
) -> Result<(Properties, Spot<'_>), Halt>
    ensures ok { IfOk result (λ found. node_properties in_flow line text.now
        ≡ Some (found.0, (found.1.0, found.1.1, found.1.2.now))) }
    ensures err { OnErr result (node_properties in_flow line text.now ≡ None) }
{
    if is_property(text) {
        return some_properties(text, line, in_flow);
    }
    let nothing = Properties {
        anchor: false,
        tag: false,
    };
    Ok((nothing, (false, line, text)))
}

/// Reads an anchor, a tag or both at the start of the text. Returns which of the two were read, and the next
/// token's position.
#[tactic(auto, unfolding(crate::specs::Scalar::node_properties, crate::specs::Scalar::second_property))]
fn some_properties(text: &[u8], line: usize, in_flow: bool) -> Result<(Properties, Spot<'_>), Halt>
    requires { is_property text.now ≡ true }
    ensures ok { IfOk result (λ found. node_properties in_flow line text.now
        ≡ Some (found.0, (found.1.0, found.1.1, found.1.2.now))) }
    ensures err { OnErr result (node_properties in_flow line text.now ≡ None) }
{
    let (first, spot) = one_property(text, line, in_flow)?;
    if spot.0 || !is_property(spot.2) {
        return Ok((first, spot));
    }
    let (second, after) = one_property(spot.2, line, in_flow)?;
    Ok((joined(first, second, spot.2)?, after))
}

/// Returns whether unquoted text may begin with `byte`, which `rest` follows.
fn begins_plain(byte: u8, rest: &[u8], in_flow: bool) -> bool
    ensures { result ≡ begins_plain in_flow byte rest.now }
{
    if byte == b'-' {
        !is_apart(rest)
    } else if byte == b'?' || byte == b':' {
        !in_flow && !is_apart(rest)
    } else {
        !(is_indicator(byte) || is_blank(byte) || is_line_end(byte))
    }
}

/// Returns the reason for refusing a text that begins with neither a scalar nor an alias.
fn reason_at(text: &[u8]) -> Reason {
    match text {
        [b'\t', ..] => Reason::Tab,
        [b'?', ..] => Reason::ComplexKey,
        [b':', ..] => Reason::NoKey,
        [b'-', ..] => Reason::NotAValue,
        [b'%', ..] => Reason::Directive,
        [b'&' | b'!', ..] => Reason::Properties,
        [b'[' | b'{', ..] => Reason::CollectionKey,
        [] | [b',' | b']' | b'}', ..] => Reason::Bracket,
        _ => Reason::Indicator,
    }
}

/// Returns the style of the scalar or the alias at the start of the text, and the text after it. Of unquoted
/// text, only the first line is read.
#[tactic(auto, unfolding(crate::specs::Scalar::scalar))]
#[inline(always)]
pub(crate) fn scalar(text: &[u8], in_flow: bool) -> Result<(Style, &[u8]), Halt>
    ensures ok { IfOk result (λ found. scalar in_flow text.now ≡ Some (found.0, found.1.now)) }
    ensures err { OnErr result (scalar in_flow text.now ≡ None) }
{
    match text {
        [b'\'', rest @ ..] => Ok((Style::Single, after_single(rest)?)),
        [b'"', rest @ ..] => Ok((Style::Double, after_double(rest)?)),
        [b'*', rest @ ..] => Ok((Style::Alias, name_end(rest, in_flow, false)?)),
        [first, rest @ ..] if begins_plain(*first, rest, in_flow) => {
            Ok((Style::Plain, after_plain(text, in_flow)))
        }
        _ => Err(Halt::at(reason_at(text), text)),
    }
}

/// Returns whether the text begins with the colon after a key of this style.
pub(crate) fn colon_follows(text: &[u8], in_flow: bool, style: Style) -> bool
    ensures { result ≡ colon_follows in_flow style text.now }
{
    match text {
        [] => false,
        [first, rest @ ..] => {
            *first == b':' && (in_flow && !matches!(style, Style::Plain) || is_apart(rest))
        }
    }
}

/// Returns whether a key, from `text` to `colon`, is on one line and has at most 1,024 bytes.
#[tactic(auto, unfolding(crate::specs::Scalar::fits_key))]
pub(crate) fn fits_key(text: &[u8], colon: &[u8]) -> bool
    ensures { result ≡ fits_key text.now colon.now }
{
    let len = text.len().saturating_sub(colon.len());
    len <= LONGEST_KEY && !text[..len].contains(&b'\n')
}

/// Returns the digit, 1 to 9, at the start of the text, and the text after the digit. Without such a digit,
/// returns 0 and the whole text.
pub(crate) fn digit_at(text: &[u8]) -> (usize, &[u8])
    ensures { digit_at text.now ≡ (result.0, result.1.now) }
{
    match text {
        [first, rest @ ..] if *first >= b'1' && *first < b':' => ((*first - b'0') as usize, rest),
        _ => (0, text),
    }
}

/// Reads a `+` or `-` at the start of the text, if there is one. Returns whether a `+` was read, and the rest
/// of the text.
fn sign_at(text: &[u8]) -> (bool, &[u8])
    ensures { sign_at text.now ≡ (result.0, result.1.now) }
{
    match text {
        [b'+', rest @ ..] => (true, rest),
        [b'-', rest @ ..] => (false, rest),
        _ => (false, text),
    }
}

/// Returns the text from the end of its first line on, or `None` if that line has more than blanks and a
/// comment.
#[tactic(auto, unfolding(crate::specs::Scalar::line_end_of))]
pub(crate) fn line_end_of(text: &[u8]) -> Option<&[u8]>
    ensures { option_map (λ rest. rest.now) result ≡ line_end_of text.now }
{
    let end = after_blanks(text);
    if is_line_over(end) {
        Some(end)
    } else if begins(end, b'#') && !begins(text, b'#') {
        Some(to_line_end(end))
    } else {
        None
    }
}

/// Reads the header of a block scalar, after `|` or `>`.
#[tactic(auto, unfolding(crate::specs::Scalar::header))]
pub(crate) fn header(text: &[u8]) -> Result<Header<'_>, Halt>
    ensures ok { IfOk result (λ found. header text.now ≡ Some (found.0, found.1, found.2.now)) }
    ensures err { OnErr result (header text.now ≡ None) }
{
    let (first, signed) = digit_at(text);
    let (keep, rest) = sign_at(signed);
    let (digit, rest) = if first == 0 {
        digit_at(rest)
    } else {
        (first, rest)
    };
    match line_end_of(rest) {
        Some(end) => Ok((digit, keep, end)),
        None => Err(Halt::at(Reason::BlockHeader, after_blanks(rest))),
    }
}

//! Decoding of scalars: from a token to its value.

ghost use Rattle.std.specs.Prelude.{◌≡◌, ◌<◌, ◌++◌, [], ◌∷◌, false, map, None, Some, option_map, IfOk, IfSome, IsSome};
ghost use Rattle.subst_yaml_reader.specs.Decoded.{double_step, double, escaped, piece_after, piece_of, lines_of, literal_value, single_step, single, value_after, value_of, without_end};
ghost use Rattle.subst_yaml_reader.specs.Values.{folded, folded_lines, gap};
ghost use Rattle.subst_yaml_reader.specs.declared.runs.Escape.TheVariants.{Nothing};

use crate::bytes::{begins, is_blank, is_line_end};
use crate::event::Style;
use crate::folded::{Folded, Piece, append, append_gap, folded_lines};
use crate::runs::{Escape, closes, digits_after, escape_after, hex_value};
use crate::scalar::{after_byte, digit_at, header};
use std::alloc::{AllocError, Global};

/// Returns the value of a scalar as bytes. The result is `None` for an alias, or if the token can't be
/// decoded in this style. Lines are folded by YAML's rules, except in the style `|`. `indent` is the number
/// of spaces before each line of a value after `|` or `>`.
///
/// ```rust
/// let value = value_of(alloc, Style::Single, 0, b"'it''s'")?;
/// // it's
/// ```
///
/// # Errors
///
/// If allocation fails.
#[tactic(auto, unfolding(crate::specs::Decoded::value_of))]
pub fn value_of(
    alloc: Global,
    style: Style,
    indent: usize,
    token: &[u8],
) -> Result<Option<Vec<u8>>, AllocError>
    ensures value { IfOk result (λ value. option_map (λ bytes. bytes.items) value
        ≡ value_of style indent token.now) }
{
    match token {
        [] => Ok(None),
        _ if matches!(style, Style::Plain) => Ok(Some(plain_value(alloc, token)?)),
        [_, rest @ ..] => value_after(alloc, style, indent, rest),
    }
}

/// Returns the piece that a byte outside an escape decodes to.
fn piece_of(byte: u8) -> Piece
    ensures { result ≡ piece_of byte }
{
    if is_blank(byte) || is_line_end(byte) {
        Piece::White(byte)
    } else {
        Piece::Byte(byte)
    }
}

/// Creates the value of a token of which nothing is decoded yet.
fn nothing_read(alloc: Global) -> Folded
    ensures value { result.value.items ≡ [] }
    ensures white { result.white.items ≡ [] }
{
    Folded {
        value: Vec::new(alloc),
        white: Vec::new(alloc),
    }
}

/// Returns the value of a token that has been read to its end.
fn ended(alloc: Global, folded: Folded) -> Result<Vec<u8>, AllocError>
    ensures { IfOk result (λ value. value.items ≡ folded.value.items ++ gap folded.white.items) }
{
    let mut value = folded.value;
    append_gap(alloc, &mut value, &folded.white)?;
    Ok(value)
}

/// Decodes unquoted text.
fn plain_value(alloc: Global, token: &[u8]) -> Result<Vec<u8>, AllocError>
    ensures { IfOk result (λ value. value.items ≡ folded [] (map piece_of token.now)) }
{
    match plain_part(token) {
        Some(value) => copy_of(alloc, value),
        None => plain_lines(alloc, token),
    }
}

/// Returns the value of unquoted text on one line: the text itself. Returns `None` if the text has a line
/// feed.
fn plain_part(token: &[u8]) -> Option<&[u8]>
    ensures { IfSome result (λ value. folded [] (map piece_of token.now) ≡ value.now) }
{
    if token.contains(&b'\n') {
        None
    } else {
        Some(token)
    }
}

/// Copies bytes into a list.
fn copy_of(alloc: Global, bytes: &[u8]) -> Result<Vec<u8>, AllocError>
    ensures { IfOk result (λ copy. copy.items ≡ bytes.now) }
{
    let mut copy = Vec::new(alloc);
    copy.extend_from_slice(bytes)?;
    Ok(copy)
}

/// Decodes unquoted text over several lines.
#[tactic(auto, unfolding(crate::specs::Values::folded))]
fn plain_lines(alloc: Global, token: &[u8]) -> Result<Vec<u8>, AllocError>
    ensures { IfOk result (λ value. value.items ≡ folded [] (map piece_of token.now)) }
{
    let mut read = nothing_read(alloc);
    let mut rest = token;
    while let [first, tail @ ..] = rest {
        append(alloc, &mut read, piece_of(*first))?;
        rest = tail;
    }
    ended(alloc, read)
}

/// Decodes a token in quotes or of a block scalar. `rest` is the token without its first byte. Returns `None`
/// for other styles, or if the token can't be decoded in its style.
fn value_after(
    alloc: Global,
    style: Style,
    indent: usize,
    rest: &[u8],
) -> Result<Option<Vec<u8>>, AllocError>
    ensures { IfOk result (λ value. option_map (λ bytes. bytes.items) value
        ≡ value_after style indent rest.now) }
{
    match style {
        Style::Single => single_value(alloc, rest),
        Style::Double => double_value(alloc, rest),
        Style::Literal => literal_value(alloc, indent, rest),
        Style::Folded => folded_value(alloc, indent, rest),
        Style::Plain | Style::Alias => Ok(None),
    }
}

/// Returns the piece that a byte in single quotes decodes to, or `None` if the quotes are closed before the
/// byte. If `is_quoted`, the byte before is a quote. That quote closes the single quotes unless `byte` is a
/// quote too.
fn single_step(is_quoted: bool, byte: u8) -> Option<Piece>
    ensures { result ≡ single_step is_quoted byte }
{
    if byte == b'\'' {
        Some(if is_quoted {
            Piece::Byte(byte)
        } else {
            Piece::Nothing
        })
    } else if is_quoted {
        None
    } else {
        Some(piece_of(byte))
    }
}

/// Decodes text after an opening single quote. Returns `None` if the text doesn't end at the closing quote.
#[tactic(auto, unfolding(crate::specs::Decoded::single, crate::specs::Values::folded), using(crate::proofs::DecodedLemmas::prefixed_twice, crate::proofs::DecodedLemmas::folded_more))]
fn single_value(alloc: Global, text: &[u8]) -> Result<Option<Vec<u8>>, AllocError>
    ensures { IfOk result (λ value. option_map (λ bytes. bytes.items) value
        ≡ option_map (folded []) (single false text.now)) }
{
    let mut read = nothing_read(alloc);
    let mut is_quoted = false;
    let mut rest = text;
    while let [first, tail @ ..] = rest {
        let Some(piece) = single_step(is_quoted, *first) else {
            return Ok(None);
        };
        append(alloc, &mut read, piece)?;
        is_quoted = *first == b'\'' && !is_quoted;
        rest = tail;
    }
    if is_quoted {
        Ok(Some(ended(alloc, read)?))
    } else {
        Ok(None)
    }
}

/// Returns the character of an escape with one byte after the backslash.
fn escaped(byte: u8) -> char
    requires { byte < 128 }
    ensures { result ≡ escaped byte }
{
    match byte {
        b'0' => '\0',
        b'a' => '\u{7}',
        b'b' => '\u{8}',
        b't' => '\t',
        b'n' => '\n',
        b'v' => '\u{b}',
        b'f' => '\u{c}',
        b'r' => '\r',
        b'e' => '\u{1b}',
        b'N' => '\u{85}',
        b'_' => '\u{a0}',
        b'L' => '\u{2028}',
        b'P' => '\u{2029}',
        _ => byte as char,
    }
}

/// Returns the piece that a byte in double quotes decodes to. `held` is the escape state before the byte.
fn piece_after(held: Escape, byte: u8) -> Piece
    requires { IsSome (double_step held byte) }
    ensures { result ≡ piece_after held byte }
{
    match held {
        Escape::Nothing if byte == b'\\' => Piece::Nothing,
        Escape::Nothing => piece_of(byte),
        Escape::Escaped if digits_after(byte) > 0 => Piece::Nothing,
        Escape::Escaped if is_line_end(byte) => Piece::EscapedEnd(byte),
        Escape::Escaped => Piece::Character(escaped(byte)),
        Escape::Digits(left, _) if left > 1 => Piece::Nothing,
        Escape::Digits(_, value) => match char::from_u32(value * 16 + hex_value(byte)) {
            Some(character) => Piece::Character(character),
            None => unreachable!(),
        },
    }
}

/// Returns the escape state after a byte between double quotes, or `None` if the byte isn't accepted. `held`
/// is the state before the byte.
fn double_step(held: Escape, byte: u8) -> Option<Escape>
    ensures { result ≡ double_step held byte }
{
    escape_after(held, byte, b"")
}

/// Decodes text after an opening double quote. Returns `None` if an escape is wrong or the closing quote is
/// missing.
#[tactic(auto, unfolding(crate::specs::Decoded::double, crate::specs::Values::folded), using(crate::proofs::DecodedLemmas::prefixed_twice, crate::proofs::DecodedLemmas::folded_more))]
fn double_value(alloc: Global, text: &[u8]) -> Result<Option<Vec<u8>>, AllocError>
    ensures { IfOk result (λ value. option_map (λ bytes. bytes.items) value
        ≡ option_map (folded []) (double Nothing text.now)) }
{
    let mut read = nothing_read(alloc);
    let mut held = Escape::Nothing;
    let mut rest = text;
    while let [first, tail @ ..] = rest {
        if closes(held, *first) {
            return Ok(Some(ended(alloc, read)?));
        }
        let Some(next) = double_step(held, *first) else {
            return Ok(None);
        };
        append(alloc, &mut read, piece_after(held, *first))?;
        held = next;
        rest = tail;
    }
    Ok(None)
}

/// Returns the lines of a block scalar, each without its indentation of `indent` bytes. Each line end becomes
/// a line feed.
#[tactic(auto, unfolding(crate::specs::Decoded::lines_of))]
fn lines_of(alloc: Global, indent: usize, text: &[u8]) -> Result<Vec<u8>, AllocError>
    ensures { IfOk result (λ lines. lines.items ≡ lines_of indent false 0 text.now) }
{
    let mut lines = Vec::new(alloc);
    let mut in_text = false;
    let mut column = 0;
    let mut rest = text;
    while let [first, tail @ ..] = rest {
        if *first == b'\n' {
            lines.push(b'\n')?;
            in_text = false;
            column = 0;
        } else if *first != b'\r' {
            if in_text || column >= indent {
                lines.push(*first)?;
                in_text = true;
            } else {
                column += 1;
            }
        }
        rest = tail;
    }
    Ok(lines)
}

/// Removes the line feed at the end, if there is one.
fn cut_end(lines: &mut Vec<u8>)
    ensures { lines.new.items ≡ without_end lines.old.items }
{
    if let Some(b'\n') = lines.last().copied() {
        let _ = lines.pop();
    }
}

/// Decodes a block scalar in the style `|`. `text` is the text after the `|`. Returns `None` if the header is
/// wrong.
#[tactic(auto, unfolding(crate::specs::Decoded::literal_value))]
fn literal_value(alloc: Global, indent: usize, text: &[u8]) -> Result<Option<Vec<u8>>, AllocError>
    ensures { IfOk result (λ value. option_map (λ bytes. bytes.items) value
        ≡ literal_value indent text.now) }
{
    let Ok((_, _, head)) = header(text) else {
        return Ok(None);
    };
    let body = after_byte(after_byte(head, b'\r'), b'\n');
    let mut lines = lines_of(alloc, indent, body)?;
    if begins(digit_at(text).1, b'-') {
        cut_end(&mut lines);
    }
    Ok(Some(lines))
}

/// Decodes a block scalar in the style `>`. `text` is the text after the `>`. Returns `None` if the header is
/// wrong.
fn folded_value(alloc: Global, indent: usize, text: &[u8]) -> Result<Option<Vec<u8>>, AllocError>
    ensures { IfOk result (λ value. option_map (λ bytes. bytes.items) value
        ≡ option_map (folded_lines None (10 ∷ [])) (literal_value indent text.now)) }
{
    match literal_value(alloc, indent, text)? {
        Some(lines) => Ok(Some(folded_lines(alloc, &lines)?)),
        None => Ok(None),
    }
}

//! Folding: how the lines of a value are joined.

ghost use Rattle.std.specs.Prelude.{◌≡◌, ◌==◌, ◌++◌, [], ◌∷◌, None, drop, filter, option_map, IfOk};
ghost use Rattle.subst_yaml_reader.specs.Values.{added, between, folded_lines, gap, indented, joined, white_after};

use crate::bytes::{begins, is_blank};
use std::alloc::{AllocError, Global};

/// A piece of a value, decoded from a byte of its token.
#[derive(Clone, Copy)]
pub(crate) enum Piece {
    /// No part of the value: the byte begins or continues an escape, or closes quotes.
    Nothing,
    /// White space, which may be folded.
    White(u8),
    /// A line end after a backslash. The byte is the first of the line end.
    EscapedEnd(u8),
    /// A byte of the value.
    Byte(u8),
    /// The character of an escape.
    Character(char),
}

/// A value, decoded up to some byte of its token.
#[derive(Drop)]
pub(crate) struct Folded {
    /// The value so far.
    pub(crate) value: Vec<u8>,
    /// The white space after `value`, not folded yet. It begins with a backslash if its first line end is
    /// escaped.
    pub(crate) white: Vec<u8>,
}

/// Appends all line feeds but the first.
fn append_others(value: &mut Vec<u8>, ends: &[u8]) -> Result<(), AllocError>
    ensures { IfOk result (λ _. value.new.items ≡ value.old.items ++ drop 1 ends.now) }
{
    match ends {
        [] => Ok(()),
        [_, rest @ ..] => value.extend_from_slice(rest),
    }
}

/// Appends white space, folded. `ends` are its line feeds. Without line feeds, `white` is appended; with one,
/// a space; with several, all of them but the first.
fn append_joined(value: &mut Vec<u8>, white: &[u8], ends: &[u8]) -> Result<(), AllocError>
    ensures { IfOk result (λ _. value.new.items ≡ value.old.items ++ joined white.now ends.now) }
{
    match ends {
        [] => value.extend_from_slice(white),
        [_] => value.extend_from_slice(b" "),
        _ => append_others(value, ends),
    }
}

/// Returns the line feeds of white space.
fn line_feeds(alloc: Global, white: &[u8]) -> Result<Vec<u8>, AllocError>
    ensures { IfOk result (λ ends. ends.items ≡ filter (λ b. b == 10) white.now) }
{
    white
        .iter()
        .copied()
        .filter(|byte| *byte == b'\n')
        .collect(alloc)
}

/// Appends white space between words, folded.
pub(crate) fn append_gap(alloc: Global, value: &mut Vec<u8>, white: &[u8]) -> Result<(), AllocError>
    ensures { IfOk result (λ _. value.new.items ≡ value.old.items ++ gap white.now) }
{
    if white.is_empty() {
        return Ok(());
    }
    let ends = line_feeds(alloc, white)?;
    if begins(white, b'\\') {
        append_others(value, &ends)
    } else {
        append_joined(value, white, &ends)
    }
}

/// Folds the white space after the value so far, and appends it, since more of the value follows.
fn end_gap(alloc: Global, folded: &mut Folded) -> Result<(), AllocError>
    ensures value { IfOk result (λ _. folded.new.value.items
        ≡ folded.old.value.items ++ gap folded.old.white.items) }
    ensures white { IfOk result (λ _. folded.new.white.items ≡ []) }
{
    append_gap(alloc, &mut folded.value, &folded.white)?;
    folded.white.clear();
    Ok(())
}

/// Appends the folded white space before a piece, and then the piece. `Nothing` changes nothing. A `White`
/// piece is only kept, and folded later. An `EscapedEnd` is kept too, but the white space before it is folded
/// and appended at once.
pub(crate) fn append(alloc: Global, folded: &mut Folded, piece: Piece) -> Result<(), AllocError>
    ensures value { IfOk result (λ _. folded.new.value.items
        ≡ folded.old.value.items ++ added folded.old.white.items piece) }
    ensures white { IfOk result (λ _. folded.new.white.items
        ≡ white_after folded.old.white.items piece) }
{
    match piece {
        Piece::Nothing => {}
        Piece::White(byte) => folded.white.push(byte)?,
        Piece::EscapedEnd(byte) => {
            end_gap(alloc, folded)?;
            folded.white.extend_from_slice(&[b'\\', byte])?;
        }
        Piece::Byte(byte) => {
            end_gap(alloc, folded)?;
            folded.value.push(byte)?;
        }
        Piece::Character(character) => {
            end_gap(alloc, folded)?;
            let mut buffer = [0; 4];
            let text = character.encode_utf8(&mut buffer);
            folded.value.extend_from_slice(text.as_bytes())?;
        }
    }
    Ok(())
}

/// Appends the line feeds between two lines in the style `>`, folded. `before` is whether the first line
/// begins with a blank, or `None` if there is no first line. `is_indented` is whether the second line begins
/// with a blank.
fn append_between(
    value: &mut Vec<u8>,
    before: Option<bool>,
    is_indented: bool,
    ends: &[u8],
) -> Result<(), AllocError>
    ensures { IfOk result (λ _. value.new.items
        ≡ value.old.items ++ between before is_indented ends.now) }
{
    match before {
        None => append_others(value, ends),
        Some(is_before) if is_before || is_indented => value.extend_from_slice(ends),
        Some(_) => append_joined(value, b"", ends),
    }
}

/// Returns whether the line of `byte` begins with a blank. `before` is the result for the byte before, and
/// `ends` are the line feeds between both bytes. Without line feeds, the result stays `before`.
fn indented(before: Option<bool>, ends: &[u8], byte: u8) -> Option<bool>
    ensures { result ≡ indented before ends.now byte }
{
    if ends.is_empty() {
        before
    } else {
        Some(is_blank(byte))
    }
}

/// Returns the value of a block scalar in the style `>`. `lines` are its lines without their indentation.
#[tactic(auto, unfolding(crate::specs::Values::folded_lines))]
pub(crate) fn folded_lines(alloc: Global, lines: &[u8]) -> Result<Vec<u8>, AllocError>
    ensures { IfOk result (λ value. value.items ≡ folded_lines None (10 ∷ []) lines.now) }
{
    let mut value = Vec::new(alloc);
    let mut before = None;
    let mut ends = Vec::new(alloc);
    ends.push(b'\n')?;
    let mut rest = lines;
    while let [first, tail @ ..] = rest {
        if *first == b'\n' {
            ends.push(b'\n')?;
        } else {
            append_between(&mut value, before, is_blank(*first), &ends)?;
            before = indented(before, &ends, *first);
            ends.clear();
            value.push(*first)?;
        }
        rest = tail;
    }
    append_between(&mut value, before, true, &ends)?;
    Ok(value)
}

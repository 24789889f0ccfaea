//! Excerpts: the line of a source in which a fault begins, with the fault underlined. A long line is cut
//! around the fault.

ghost use Rattle.std.specs.Prelude.{◌≡◌, ◌≤◌, ℕ, List, length, IfOk, string_bytes};
ghost use Rattle.std.specs.Str.{IsAscii};
ghost use Rattle.subst.specs.Highlighting.{underlined};
ghost use Rattle.subst_expander.specs.Messages.{IsShown, IsUnderlinedLine};

use crate::terminal::{are_printable, printable};
use std::alloc::{AllocError, Global};
use std::ops::Range;
use subst::error::Underlined;
use unicode_width::{UnicodeWidthChar, UnicodeWidthStr};

/// The greatest width of a line in an excerpt, in columns, without the indentation. Wider lines are cut
/// around the fault.
const WIDEST: usize = 60;

/// The most bytes of a line that are read on each side of a fault's start.
const AROUND: usize = 512;

/// The most bytes of a line that are read on each side of a fault's start, if each byte takes a column. This
/// number exceeds [`WIDEST`].
const NEAR: usize = 64;

/// The mark that replaces the part of a text that is cut off.
pub const CUT: &str = "…";

/// Returns the line in which a range of a source begins, with carets below the range. Both lines are indented
/// by two spaces. A line wider than 60 columns is cut around the range's start.
pub fn excerpt(alloc: Global, source: &[u8], range: Range<usize>) -> Result<String, AllocError>
    ensures { IfOk result (λ text. IsUnderlinedLine (string_bytes text)) }
{
    let line = around(source, range.start);
    let marked = part(source, range.start..range.end.min(line.end));
    let before = Piece {
        text: printable(alloc, part(source, line.start..range.start))?,
        is_cut: !is_at_line_end(source, line.start.checked_sub(1)),
    };
    let after = Piece {
        text: printable(alloc, part(source, range.start..line.end))?,
        is_cut: !is_at_line_end(source, Some(line.end)),
    };
    let carets = columns(&printable(alloc, marked)?);
    underlined(alloc, &before, &after, carets)
}

/// Returns the bytes in a range, or none if the range isn't in the source.
fn part(source: &[u8], range: Range<usize>) -> &[u8] {
    source.get(range).unwrap_or(&[])
}

/// Returns the range of the line around an offset. A long line is cut to the bytes near the offset.
fn around(source: &[u8], offset: usize) -> Range<usize> {
    let near = within(source, offset, NEAR);
    if are_printable(part(source, near.start..near.end)) {
        near
    } else {
        within(source, offset, AROUND)
    }
}

/// Returns the range of the line around an offset, cut to about `most` bytes before and `most` after the
/// offset.
fn within(source: &[u8], offset: usize, most: usize) -> Range<usize> {
    let first = character_start(source, offset.saturating_sub(most));
    let last = character_start(source, offset.saturating_add(most).min(source.len()));
    let start = match part(source, first..offset)
        .iter()
        .rposition(|b| is_line_end(*b))
    {
        Some(at) => first.saturating_add(at).saturating_add(1),
        None => first,
    };
    let end = match part(source, offset..last)
        .iter()
        .position(|b| is_line_end(*b))
    {
        Some(at) => offset.saturating_add(at),
        None => last.max(offset),
    };
    start..end
}

/// Returns the offset of the first byte of the character at `offset`. If the source isn't UTF-8 there, the
/// result is at most three bytes before `offset`.
fn character_start(source: &[u8], offset: usize) -> usize {
    let mut start = offset;
    for _ in 0..3 {
        match source.get(start) {
            Some(b) if b & 0xc0 == 0x80 => start = start.saturating_sub(1),
            _ => return start,
        }
    }
    start
}

/// Returns whether a byte ends a line.
fn is_line_end(b: u8) -> bool {
    b == b'\n' || b == b'\r'
}

/// Returns whether the byte at an offset ends a line. The result is also `true` if the offset is `None` or
/// outside the source.
fn is_at_line_end(source: &[u8], offset: Option<usize>) -> bool {
    let byte = offset.and_then(|at| source.get(at));
    byte.is_none_or(|b| is_line_end(*b))
}

/// A piece of a line, with its control characters escaped.
#[derive(Drop)]
struct Piece {
    text: String,
    /// Whether the line goes on past this piece, on the side away from the fault.
    is_cut: bool,
}

impl Piece {
    /// Returns the width in columns, including the mark if the piece is cut.
    fn width(&self) -> usize {
        columns(&self.text).saturating_add(usize::from(self.is_cut))
    }

    /// Returns how to fit the piece into `columns` columns: the limit of its text's width, and whether to add
    /// the mark of a cut.
    fn fit(&self, columns: usize) -> (usize, bool) {
        if self.width() <= columns {
            (columns, self.is_cut)
        } else {
            (columns.saturating_sub(1), true)
        }
    }
}

/// Returns the excerpt of a line. The piece `before` ends at the fault's start, and the piece `after` begins
/// there. `carets` is the fault's width in columns.
fn underlined(
    alloc: Global,
    before: &Piece,
    after: &Piece,
    carets: usize,
) -> Result<String, AllocError>
    ensures { IfOk result (λ text. IsUnderlinedLine (string_bytes text)) }
{
    let right = WIDEST
        .saturating_sub(before.width())
        .max(WIDEST / 2)
        .min(after.width());
    let (left, is_left_cut) = before.fit(WIDEST.saturating_sub(right));
    let (right, is_right_cut) = after.fit(right);
    let before = last_columns(&before.text, left);
    let after = first_columns(&after.text, right);
    let mut line = String::new(alloc);
    push_if(&mut line, is_left_cut)?;
    line.push_str(before)?;
    line.push_str(after)?;
    push_if(&mut line, is_right_cut)?;
    let underlined = Underlined {
        line: &line,
        spaces: columns(before).saturating_add(usize::from(is_left_cut)),
        carets: carets.min(columns(after)).max(1),
    };
    format!(in alloc; "{underlined}")
}

/// Appends the mark of a cut if `is_cut` is set.
fn push_if(text: &mut String, is_cut: bool) -> Result<(), AllocError> {
    if is_cut { text.push_str(CUT) } else { Ok(()) }
}

/// Returns the width of an escaped text in columns.
fn columns(text: &str) -> usize {
    if text.is_ascii() {
        text.len()
    } else {
        text.width()
    }
}

/// Returns the end of a text, as far as it fits in `columns` columns.
fn last_columns(text: &str, columns: usize) -> &str {
    if text.is_ascii() {
        return text.get(text.len().saturating_sub(columns)..).unwrap_or("");
    }
    let mut left = text.width();
    for (at, c) in text.char_indices() {
        let width = c.width().unwrap_or(0);
        if left <= columns && width > 0 {
            return text.get(at..).unwrap_or("");
        }
        left = left.saturating_sub(width);
    }
    ""
}

/// Cuts a text to `columns` columns and appends the mark of a cut. A text that isn't wider is returned
/// unchanged.
pub fn cut(alloc: Global, text: String, columns: usize) -> Result<String, AllocError>
    ensures { IfOk result (λ shown. IsShown columns (string_bytes text) (string_bytes shown)) }
{
    let start = first_columns(&text, columns);
    if start.len() < text.len() {
        format!(in alloc; "{start}{CUT}")
    } else {
        Ok(text)
    }
}

/// Returns the start of a text, as far as it fits in `columns` columns.
fn first_columns(text: &str, columns: usize) -> &str
    ensures { IsAscii text.now → length text.now ≤ columns → result.now ≡ text.now }
{
    if text.is_ascii() {
        return text.get(..columns.min(text.len())).unwrap_or("");
    }
    let mut used = 0usize;
    for (at, c) in text.char_indices() {
        used = used.saturating_add(c.width().unwrap_or(0));
        if used > columns {
            return text.get(..at).unwrap_or("");
        }
    }
    text
}

//! Converts byte offsets into lines and columns, fast for increasing offsets.

ghost use Rattle.std.specs.Prelude.{◌≡◌, ◌<◌, ◌≤◌, true, get_or, length, IfOk, IfSome};
ghost use Rattle.subst_expander.specs.Positions.{is_cut, IsPositionAt};

use std::alloc::{AllocError, Global};
use subst::error::line_and_column;

/// A line and a column of a source, both from 1, as `line_and_column` counts them.
#[derive(Clone, Copy, Debug, PartialEq, Eq)]
pub struct Position {
    pub line: usize,
    pub column: usize,
}

/// A converter of byte offsets into lines and columns. If the offsets increase, each byte is read at most
/// twice.
#[derive(Drop)]
pub struct Positions<'s> {
    source: &'s [u8],
    /// The offset from which the converter counts: 0, or the offset of a cut.
    offset: usize,
    /// The position of `offset`.
    last: Position,
    ghost within: { offset ≤ length source.now },
    ghost cut: { 0 < offset → is_cut (get_or source.now offset 0) ≡ true },
    ghost position: { IsPositionAt source.now offset last.line last.column },
}

/// The position at which each source begins.
const START: Position = Position { line: 1, column: 1 };

impl<'s> Positions<'s> {
    /// Returns the converter of a source. Bytes that aren't UTF-8 are read as the replacement character.
    pub fn of(source: &'s [u8]) -> Self
        ensures source { result.source.now ≡ source.now }
        ensures start { result.offset ≡ 0 }
    {
        Positions {
            source,
            offset: 0,
            last: START,
        }
    }

    /// Returns the line and column of an offset, or of the source's end if the offset is past it.
    ///
    /// # Errors
    ///
    /// If allocation fails.
    pub fn at(&mut self, alloc: Global, offset: usize) -> Result<Position, AllocError>
        ensures position { IfOk result
            (λ at. IsPositionAt self.old.source.now offset at.line at.column) }
        ensures source { self.new.source.now ≡ self.old.source.now }
    {
        if offset < self.offset {
            *self = Positions::of(self.source);
        }
        let offset = offset.min(self.source.len());
        self.advance(alloc, offset)?;
        self.after(alloc, offset)
    }

    /// Moves the converter to the last cut before `offset`, if there is one after its own offset.
    fn advance(&mut self, alloc: Global, offset: usize) -> Result<(), AllocError>
        requires from { self.now.offset ≤ offset }
        requires within { offset ≤ length self.now.source.now }
        ensures from { self.new.offset ≤ offset }
        ensures source { self.new.source.now ≡ self.old.source.now }
    {
        let between = self.source.get(self.offset..offset).unwrap_or(&[]);
        if let Some(index) = last_cut(between) {
            let cut = self.offset.saturating_add(index);
            let last = self.after(alloc, cut)?;
            *self = Positions {
                source: self.source,
                offset: cut,
                last,
            };
        }
        Ok(())
    }

    /// Returns the position of an offset that isn't before the converter's own.
    fn after(&self, alloc: Global, offset: usize) -> Result<Position, AllocError>
        requires from { self.now.offset ≤ offset }
        requires within { offset ≤ length self.now.source.now }
        ensures { IfOk result (λ at. IsPositionAt self.now.source.now offset at.line at.column) }
    {
        let between = self.source.get(self.offset..offset).unwrap_or(&[]);
        let text = String::from_utf8_lossy(alloc, between)?;
        let (line, column) = line_and_column(&text, text.len());
        let column = if line == 1 {
            self.last.column.saturating_add(column.saturating_sub(1))
        } else {
            column
        };
        let line = self.last.line.saturating_add(line.saturating_sub(1));
        Ok(Position { line, column })
    }
}

/// Returns the index of the last cut in a text, or `None` if there is none.
fn last_cut(text: &[u8]) -> Option<usize>
    ensures within { IfSome result (λ index. index < length text.now) }
    ensures cut { IfSome result (λ index. is_cut (get_or text.now index 0) ≡ true) }
{
    text.iter().rposition(|b| is_cut(*b))
}

/// Returns whether a text can be cut before this byte, so that the columns of both parts add up. It can't be
/// cut inside an emoji of several characters, some of which begin with an ASCII character.
fn is_cut(b: u8) -> bool
    ensures { result ≡ is_cut b }
{
    b == b' ' || b == b'$' || b == b'\\'
}

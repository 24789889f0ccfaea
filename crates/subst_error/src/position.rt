//! The line and column of an error.

ghost use Rattle.std.specs.Prelude.{◌≡◌, ◌≤◌, length};
ghost use Rattle.std.specs.Str.{IsCharBoundary};
ghost use Rattle.subst_error.specs.ErrorFault.{error_fault};
ghost use Rattle.subst_error.specs.Position.{line_end_count, position_at, position_of};
ghost use Rattle.subst_error.specs.Range.{range_of, IsRangeIn};

use crate::Error;
use crate::line::marked_line;
use unicode_width::UnicodeWidthStr;

impl Error {
    /// Returns the line and column of `source` at which the error's range begins, both from 1. For
    /// `OutOfMemory` it is `(1, 1)`.
    ///
    /// A line ends at a line feed, a carriage return, or a carriage return and a line feed. Columns are those
    /// of a terminal, as `unicode_width` counts them.
    ///
    /// Both ends of the range must be character boundaries of `source`, as they are if substituting `source`
    /// returned the error.
    pub fn source_position(&self, source: &str) -> (usize, usize)
        requires { IsRangeIn source.now (range_of (error_fault self.now)) }
        ensures position { result ≡ position_of (error_fault self.now) source.now }
    {
        line_and_column(source, self.source_range().start)
    }
}

/// Returns the line and column of `source` at a byte offset, both from 1, counted as by
/// [`Error::source_position`].
///
/// The offset must be a character boundary of `source`.
pub fn line_and_column(source: &str, offset: usize) -> (usize, usize)
    requires { IsCharBoundary source.now offset }
    ensures position { result ≡ position_at offset source.now }
{
    let line = marked_line(source, offset..offset);
    let before = &source.as_bytes()[..offset];
    (1 + count_line_ends(before), 1 + line.before.width())
}

/// Returns the number of line ends in a text. A carriage return and the line feed after it are one line end.
fn count_line_ends(text: &[u8]) -> usize
    ensures count { result ≡ line_end_count text.now }
    ensures bound { result ≤ length text.now }
{
    let mut count = 0;
    let mut text = text;
    while let [b, rest @ ..] = text {
        if *b == b'\n' || (*b == b'\r' && !rest.starts_with(b"\n")) {
            count += 1;
        }
        text = rest;
    }
    count
}

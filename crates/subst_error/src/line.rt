//! The line of an error in its source.

ghost use Rattle.std.specs.Prelude.{◌≡◌, ◌-◌, ◌≤◌, take, slice_range};
ghost use Rattle.std.specs.Str.{IsCharBoundary};
ghost use Rattle.subst_error.specs.ErrorFault.{error_fault};
ghost use Rattle.subst_error.specs.Line.{is_line_end, line_around, line_before, line_from, line_of};
ghost use Rattle.subst_error.specs.Range.{range_of, IsRangeIn};

use crate::Error;
use std::ops::Range;

impl Error {
    /// Returns the line of `source` in which the error's range begins, without its line end. A line ends at a
    /// line feed or a carriage return. For `OutOfMemory` it is the first line.
    ///
    /// Both ends of the range must be character boundaries of `source`, as they are if substituting `source`
    /// returned the error.
    pub fn source_line<'a>(&self, source: &'a str) -> &'a str
        requires { IsRangeIn source.now (range_of (error_fault self.now)) }
        ensures line { result.now ≡ line_of (error_fault self.now) source.now }
    {
        marked_line(source, self.source_range()).text
    }
}

/// The line in which a range of a source begins, and the parts of that line before and in the range.
#[derive(Clone, Copy)]
pub(crate) struct MarkedLine<'a> {
    /// The whole line, without its line end.
    pub(crate) text: &'a str,
    /// The part of the line that precedes the range.
    pub(crate) before: &'a str,
    /// The text of the range, cut at the end of the line.
    pub(crate) marked: &'a str,
}

/// Returns the line of `source` in which `range` begins, and the parts of that line before and in the range.
pub(crate) fn marked_line(source: &str, range: Range<usize>) -> MarkedLine<'_>
    requires { IsRangeIn source.now range }
    ensures text { result.text.now ≡ line_around range.start source.now }
    ensures before { result.before.now ≡ line_before range.start source.now }
    ensures marked { result.marked.now
        ≡ take (range.end - range.start) (line_from range.start source.now) }
{
    let start = line_start(source, range.start);
    let end = line_end(source, range.start);
    let marked = range.end.min(end).max(range.start);
    MarkedLine {
        text: &source[start..end],
        before: &source[start..range.start],
        marked: &source[range.start..marked],
    }
}

/// Returns the byte offset of the start of the line that contains `offset`.
fn line_start(source: &str, offset: usize) -> usize
    requires { IsCharBoundary source.now offset }
    ensures before { slice_range source.now result offset ≡ line_before offset source.now }
    ensures within { result ≤ offset }
    ensures boundary { IsCharBoundary source.now result }
{
    let bytes = source.as_bytes();
    let mut start = offset;
    while start > 0 && !is_end(bytes[start - 1]) {
        start -= 1;
    }
    start
}

/// Returns the byte offset of the end of the line that contains `offset`.
fn line_end(source: &str, offset: usize) -> usize
    requires { IsCharBoundary source.now offset }
    ensures from { slice_range source.now offset result ≡ line_from offset source.now }
    ensures within { offset ≤ result }
    ensures boundary { IsCharBoundary source.now result }
{
    let bytes = source.as_bytes();
    let mut end = offset;
    while end < bytes.len() && !is_end(bytes[end]) {
        end += 1;
    }
    end
}

/// Returns whether a byte ends a line: a line feed or a carriage return.
fn is_end(b: u8) -> bool
    ensures { result ≡ is_line_end b }
{
    b == b'\n' || b == b'\r'
}

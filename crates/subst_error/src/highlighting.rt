//! Excerpts of a source: the line of an error, with the error underlined.

ghost use Rattle.std.specs.Prelude.{◌≡◌, [], Some, IsOk, IfOk, OnOk, MatchOption, string_bytes};
ghost use Rattle.std.specs.Fmt.{WritesText};
ghost use Rattle.subst_error.specs.ErrorFault.{error_fault};
ghost use Rattle.subst_error.specs.Highlighting.{highlighting_at, highlighting_of, underlined};
ghost use Rattle.subst_error.specs.Range.{range_of, IsRangeIn};

use crate::Error;
use crate::line::{MarkedLine, marked_line};
use std::alloc::{AllocError, Global};
use std::fmt;
use std::fmt::Write;
use std::ops::Range;
use unicode_width::UnicodeWidthStr;

/// The width of the widest line that is shown, in columns.
const WIDEST: usize = 60;

/// A line in which a range is underlined. It displays as two indented lines.
#[derive(Clone, Copy)]
pub struct Underlined<'a> {
    /// The line, without its line end.
    pub line: &'a str,
    /// The width of the text before the range, in columns.
    pub spaces: usize,
    /// The width of the range, in columns.
    pub carets: usize,
}

impl fmt::Display for Underlined<'_> {
    ghost output = { λ u. Some (underlined u.line.now u.spaces u.carets) };

    fn fmt<W: fmt::Write>(&self, f: &mut fmt::Formatter<W>) -> fmt::Result {
        f.write_str("  ")?;
        f.write_str(self.line)?;
        f.write_str("\n  ")?;
        f.write_repeated(" ", self.spaces)?;
        f.write_repeated("^", self.carets)?;
        f.write_str("\n")
    }
}

impl Error {
    /// Writes the error's line of `source`, with the error's range underlined by carets:
    ///
    /// ```text
    ///   Hello $name!
    ///          ^^^^
    /// ```
    ///
    /// Both lines end in a line feed and are indented by two spaces. If the range goes on past the end of the
    /// line, the carets stop there. Nothing is written for `OutOfMemory`, or if the line is wider than 60
    /// columns. Columns are those of a terminal, as `unicode_width` counts them.
    ///
    /// Both ends of the range must be character boundaries of `source`, as they are if substituting `source`
    /// returned the error.
    ///
    /// # Errors
    ///
    /// If the writer fails. Part of the text may be written then.
    pub fn write_source_highlighting<W: fmt::Write>(&self, f: &mut W, source: &str) -> fmt::Result
        requires { IsRangeIn source.now (range_of (error_fault self.now)) }
        ensures written { OnOk result (WritesText W.write_str_gives f.old
            (Some (highlighting_of (error_fault self.now) source.now)) f.new) }
    {
        match self.underlined(source) {
            Some(underlined) => f.write(underlined),
            None => Ok(()),
        }
    }

    /// Returns the error's line of `source`, with the error's range underlined, as
    /// [`Error::write_source_highlighting`] writes it.
    ///
    /// Both ends of the range must be character boundaries of `source`, as they are if substituting `source`
    /// returned the error.
    ///
    /// # Errors
    ///
    /// If allocation fails. An empty text is never allocated.
    pub fn source_highlighting(&self, alloc: Global, source: &str) -> Result<String, AllocError>
        requires { IsRangeIn source.now (range_of (error_fault self.now)) }
        ensures highlighting { IfOk result (λ text.
            string_bytes text ≡ highlighting_of (error_fault self.now) source.now) }
        ensures nothing { highlighting_of (error_fault self.now) source.now ≡ [] → IsOk result }
    {
        match self {
            Error::OutOfMemory(_) => Ok(String::new(alloc)),
            _ => underline(alloc, source, self.source_range()),
        }
    }

    /// Returns the error's line, with the error's range underlined. `None` for `OutOfMemory`, or if the line
    /// is wider than 60 columns.
    fn underlined<'a>(&self, source: &'a str) -> Option<Underlined<'a>>
        requires { IsRangeIn source.now (range_of (error_fault self.now)) }
        ensures { MatchOption result (highlighting_of (error_fault self.now) source.now ≡ [])
            (λ u. highlighting_of (error_fault self.now) source.now
            ≡ underlined u.line.now u.spaces u.carets) }
    {
        if let Error::OutOfMemory(_) = self {
            return None;
        }
        underlined_line(source, self.source_range())
    }
}

/// Returns the line of `source` in which `range` begins, with the range underlined as by
/// [`Error::source_highlighting`]. The result is empty if the line is wider than 60 columns.
///
/// Both ends of the range must be character boundaries of `source`.
///
/// # Errors
///
/// If allocation fails. An empty text is never allocated.
pub fn underline(alloc: Global, source: &str, range: Range<usize>) -> Result<String, AllocError>
    requires { IsRangeIn source.now range }
    ensures highlighting { IfOk result (λ text.
        string_bytes text ≡ highlighting_at range source.now) }
    ensures nothing { highlighting_at range source.now ≡ [] → IsOk result }
{
    match underlined_line(source, range) {
        Some(underlined) => format!(in alloc; "{underlined}"),
        None => Ok(String::new(alloc)),
    }
}

/// Returns the line in which `range` begins, with the range underlined. `None` if the line is wider than 60
/// columns.
fn underlined_line(source: &str, range: Range<usize>) -> Option<Underlined<'_>>
    requires { IsRangeIn source.now range }
    ensures { MatchOption result (highlighting_at range source.now ≡ [])
        (λ u. highlighting_at range source.now ≡ underlined u.line.now u.spaces u.carets) }
{
    let MarkedLine {
        text,
        before,
        marked,
    } = marked_line(source, range);
    if text.width() > WIDEST {
        return None;
    }
    Some(Underlined {
        line: text,
        spaces: before.width(),
        carets: marked.width(),
    })
}

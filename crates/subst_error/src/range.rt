//! The byte range of an error in its source.

ghost use Rattle.std.specs.Prelude.{◌≡◌, ◌^◌, ◌<◌};
ghost use Rattle.subst_error.specs.ErrorFault.{error_fault, expand_into_fault, substitute_into_fault};
ghost use Rattle.subst_error.specs.Range as range;

use crate::{CharOrByte, Error, ExpandIntoError, SubstituteIntoError};
use std::ops::Range;

impl CharOrByte {
    /// Returns the number of bytes of the character in a source: the length of its UTF-8 encoding, or 1 for a
    /// `Byte`.
    pub fn source_len(&self) -> usize
        ensures len { result ≡ range.source_len self.now }
    {
        match self {
            CharOrByte::Char(c) => c.len_utf8(),
            CharOrByte::Byte(_) => 1,
        }
    }
}

impl Error {
    /// Returns the error's range in the source, in byte offsets. It covers a backslash with the character
    /// after it, a `$` or `${`, an unexpected character, an opening brace, or a name. For `OutOfMemory` it is
    /// `0..0`.
    ///
    /// The end of the range must fit in a `usize`, as it does for every returned error.
    pub fn source_range(&self) -> Range<usize>
        requires { (range.range_of (error_fault self.now)).end < 2 ^ 64 }
        ensures range { result ≡ range.range_of (error_fault self.now) }
    {
        let (start, len) = match self {
            Error::InvalidEscapeSequence(e) => {
                (e.position, 1 + e.character.map_or(0, |c| c.source_len()))
            }
            Error::MissingVariableName(e) => (e.position, e.len),
            Error::UnexpectedCharacter(e) => (e.position, e.character.source_len()),
            Error::MissingClosingBrace(e) => (e.position, 1),
            Error::NoSuchVariable(e) => (e.position, e.name.len()),
            Error::OutOfMemory(_) => (0, 0),
        };
        start..start + len
    }
}

impl ExpandIntoError<'_> {
    /// Returns the range of the unset variable's name in the source, in byte offsets. For `OutOfMemory` it is
    /// `0..0`.
    ///
    /// The end of the range must fit in a `usize`, as it does for every returned error.
    pub fn source_range(&self) -> Range<usize>
        requires { (range.range_of (expand_into_fault self.now)).end < 2 ^ 64 }
        ensures range { result ≡ range.range_of (expand_into_fault self.now) }
    {
        match self {
            ExpandIntoError::NoSuchVariable(e) => e.position..e.position + e.name.len(),
            ExpandIntoError::OutOfMemory(_) => 0..0,
        }
    }
}

impl SubstituteIntoError<'_> {
    /// Returns the error's range in the source, as [`Error::source_range`] does. Never allocates.
    ///
    /// The end of the range must fit in a `usize`, as it does for every returned error.
    pub fn source_range(&self) -> Range<usize>
        requires { (range.range_of (substitute_into_fault self.now)).end < 2 ^ 64 }
        ensures range { result ≡ range.range_of (substitute_into_fault self.now) }
    {
        match self {
            SubstituteIntoError::Parse(e) => Error::from(*e).source_range(),
            SubstituteIntoError::Expand(e) => e.source_range(),
        }
    }
}

//! `Debug` of the sources of byte templates.

use std::fmt::Write;
use std::{fmt, str};

/// Bytes whose `Debug` output is a byte string, as `b"a"`, or a list of numbers if they aren't UTF-8.
#[derive(Clone, Copy)]
pub(super) struct ByteString<'a>(pub(super) &'a [u8]);

impl<'a> fmt::Debug for ByteString<'a> {
    fn fmt<W: fmt::Write>(&self, f: &mut fmt::Formatter<W>) -> fmt::Result {
        match str::from_utf8(self.0) {
            Ok(text) => write!(f, "b{text:?}"),
            Err(_) => fmt::Debug::fmt(&self.0, f),
        }
    }
}

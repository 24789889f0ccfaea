//! The string format of TOML.

ghost use Rattle.std.specs.Prelude.{IfOk, IsTrue};
ghost use Rattle.subst_toml.specs.Filled.{IsFit, IsPartOf, IsQuotedToken, IsSpelledAt};

use super::kind;
use crate::place::{quotes, string_of};
use crate::places::{content_of, reads_as};
use std::alloc::{AllocError, Global};
use std::ops::Range;
use subst_document::{Content, Part, StringFormat, slice};
use toml_parser::starts_string;

/// The string format of TOML, for one document.
#[derive(Clone, Copy)]
pub(crate) struct Quoted {
    /// Whether the document has lines that end in a carriage return and a line feed.
    has_crlf: bool,
}

impl Quoted {
    /// Creates the format for a document without carriage returns, or for one that is only read.
    pub(crate) fn new() -> Quoted {
        Quoted { has_crlf: false }
    }

    /// Creates the format for filling in the document `source`.
    pub(super) fn of(source: &str) -> Quoted {
        Quoted {
            has_crlf: source.contains("\r\n"),
        }
    }
}

impl StringFormat for Quoted {
    ghost is_token = { IsQuotedToken };

    ghost is_part = { IsPartOf };

    ghost is_fit = { IsFit };

    fn spells(&mut self, alloc: Global, token: &str, text: &str) -> Result<bool, AllocError> {
        if !starts_string(token) {
            return Ok(false);
        }
        match string_of(alloc, token)? {
            Some(read) => Ok(read.as_str() == text),
            None => Ok(false),
        }
    }

    fn spells_part(
        &mut self,
        alloc: Global,
        token: &str,
        piece: &str,
        part: &str,
    ) -> Result<bool, AllocError> {
        let Some(quotes) = quotes(token) else {
            return Ok(false);
        };
        reads_as(alloc, quotes, piece, part)
    }

    fn fits(&self, token: &str, value: &str) -> bool {
        kind::fits(token, value)
    }

    fn content(
        &mut self,
        alloc: Global,
        token: &str,
        text: &str,
        parts: &[Range<usize>],
    ) -> Result<Option<Content>, AllocError> {
        content_of(alloc, token, text, parts)
    }

    fn write_value(
        &mut self,
        alloc: Global,
        token: &str,
        value: &str,
        output: &mut String,
    ) -> Result<bool, AllocError> {
        kind::write_value(token, value, self.has_crlf, output)
    }

    fn write_line_end(&mut self, output: &mut String) -> Result<bool, AllocError> {
        kind::write_line_end(self.has_crlf, output)
    }

    fn write(
        &mut self,
        alloc: Global,
        token: &str,
        parts: &[Part<'_>],
    ) -> Result<String, AllocError> {
        kind::double_quoted(alloc, token, parts, self.has_crlf)
    }
}

/// Returns whether a span of `source`, quotes included, spells the string `text`.
pub(crate) fn is_spelled(
    alloc: Global,
    source: &str,
    span: &Range<usize>,
    text: &str,
) -> Result<bool, AllocError>
    ensures { IfOk result (λ is. IsTrue is → IsSpelledAt source.now span.now text.now) }
{
    match slice(source, span) {
        Some(token) => Quoted::new().spells(alloc, token, text),
        None => Ok(false),
    }
}

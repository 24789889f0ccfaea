//! Answers of calls, and their columns in a row.

use crate::encoding::{IN_TEXT, encoded};
use crate::fault;
use std::alloc::{AllocError, Global};
use subst::Error;

/// The answer of a call.
#[derive(Debug, PartialEq, Drop)]
pub enum Answer {
    /// The output of the source.
    Gives(Vec<u8>),
    /// The fault of the source, or of the first refused string of a document. A missing variable is a fault
    /// too.
    Refuses(Error),
    /// The source can't be read. The text names the error: `Json`, `Toml` or `InvalidUtf8`.
    IsNot(&'static str),
    /// The column of the variables and the column of the missing ones, separated by a tab.
    Lists(String),
    /// The answer lacks a property that every answer must have. The text describes the defect.
    Breaks(&'static str),
}

impl Answer {
    /// Returns the answer of a call that returned this result, or the error if memory ran out.
    pub fn of(filled: Result<Vec<u8>, Error>) -> Result<Answer, AllocError> {
        match filled {
            Ok(bytes) => Ok(Answer::Gives(bytes)),
            Err(Error::OutOfMemory(e)) => Err(e),
            Err(fault) => Ok(Answer::Refuses(fault)),
        }
    }

    /// Returns the answer as columns separated by tabs. If no source text is passed, a fault has dots in
    /// place of its source line and underline.
    pub fn columns(&self, alloc: Global, source: Option<&str>) -> Result<String, AllocError> {
        match self {
            Answer::Gives(bytes) => {
                let output = encoded(alloc, bytes, IN_TEXT)?;
                format!(in alloc; "ok\t{output}")
            }
            Answer::Refuses(fault) => fault::columns(alloc, fault, source),
            Answer::IsNot(what) => format!(in alloc; "refused\t{what}"),
            Answer::Lists(lists) => lists.clone(),
            Answer::Breaks(what) => String::from_str(alloc, what),
        }
    }
}

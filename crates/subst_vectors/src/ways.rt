//! The calls for a row, and how their answers differ from the expected one.

use crate::answer::Answer;
use std::alloc::{AllocError, Global};
use std::fmt::Write;
use subst::Error;

/// A call and its answer.
#[derive(Drop)]
pub struct Way {
    /// The name of the call.
    pub name: &'static str,
    /// The answer of the call.
    pub answer: Answer,
}

/// The calls for a row, with their answers.
#[derive(Drop)]
pub struct Ways {
    pub alloc: Global,
    /// The prefix of the names of calls, such as `json::`, or an empty text.
    pub module: &'static str,
    all: Vec<Way>,
}

/// The contents of an output before a call appends to it.
pub const BEFORE: &str = "> ";

impl Ways {
    /// Creates an empty list of calls.
    pub fn new(alloc: Global) -> Ways {
        Ways {
            alloc,
            module: "",
            all: Vec::new(alloc),
        }
    }

    /// Returns the differences from the expected answer as a text: first the expected answer, then each
    /// unexpected one with the calls that returned it. The text is empty if all calls returned the expected
    /// answer.
    pub fn difference(&self, source: Option<&str>, expected: &str) -> Result<String, AllocError> {
        let mut text = String::new(self.alloc);
        let module = self.module;
        let (mut last, mut is_right) = (None, true);
        for Way { name, answer } in self.all.as_slice() {
            if last != Some(answer) {
                last = Some(answer);
                let columns = answer.columns(self.alloc, source)?;
                is_right = is_expected(columns.as_str(), expected);
                if !is_right {
                    write!(text, "\n  came     {columns} by {module}{name}")?;
                }
            } else if !is_right {
                write!(text, ", {module}{name}")?;
            }
        }
        if text.is_empty() {
            return Ok(text);
        }
        format!(in self.alloc; "  expected {expected}{text}")
    }

    /// Adds a call and its answer.
    pub fn add(&mut self, name: &'static str, answer: Answer) -> Result<(), AllocError> {
        self.all.push(Way { name, answer })?;
        Ok(())
    }

    /// Adds a call that returns bytes, and its answer.
    pub fn bytes<E: Drop>(
        &mut self,
        name: &'static str,
        filled: Result<Vec<u8>, E>,
    ) -> Result<(), AllocError>
    where
        Error: From<E>,
    {
        self.add(name, Answer::of(filled.map_err(Error::from))?)
    }

    /// Adds a call that returns a text, and its answer.
    pub fn text<E: Drop>(
        &mut self,
        name: &'static str,
        filled: Result<String, E>,
    ) -> Result<(), AllocError>
    where
        Error: From<E>,
    {
        self.bytes(name, filled.map(|text| text.into_bytes()))
    }

    /// Adds the call `name`, which appended to an output, and its answer. The output was `BEFORE` before the
    /// call, and is `output` after it. If the call failed and `output` isn't `BEFORE`, the answer is
    /// `Breaks`.
    pub fn added(
        &mut self,
        name: &'static str,
        output: &[u8],
        filled: Result<(), Error>,
    ) -> Result<(), AllocError> {
        let added = output.strip_prefix(BEFORE.as_bytes());
        match (added, filled) {
            (Some(added), Ok(())) => {
                let added = Vec::from_slice(self.alloc, added)?;
                self.add(name, Answer::Gives(added))
            }
            (Some([]), Err(fault)) => self.bytes(name, Err(fault)),
            _ => self.add(name, Answer::Breaks("the output isn't as it was")),
        }
    }
}

/// Returns whether `columns` are the expected ones. For a fault, `expected` may end after the case and the
/// position.
fn is_expected(columns: &str, expected: &str) -> bool {
    match columns.strip_prefix(expected) {
        Some("") => true,
        Some(rest) => {
            expected.starts_with("fault\t")
                && expected.split('\t').count() == 3
                && rest.starts_with('\t')
        }
        None => false,
    }
}

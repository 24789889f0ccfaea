//! The filler of a document's strings.

ghost use Rattle.std.specs.Prelude.{◌≡◌, IfOk, Some, string_bytes};
ghost use Rattle.subst.specs.ErrorFault.{error_fault};
ghost use Rattle.subst.specs.Fault as faults;
ghost use Rattle.subst_expander.specs.Strings.{AreFaults};

use crate::fault::Fault;
use crate::kinds::Placeholders;
use crate::layers::Variables;
use crate::part::{fill_bytes, uses_in_bytes};
use crate::placeholders::has_no_dollar;
use std::alloc::{AllocError, Global};
use subst::error::MissingVariableName;
use subst::escape::is_plain;
use subst::{Error, Fill};

/// A filler that expands each string of a document as a text of its own.
#[derive(Clone, Copy)]
pub struct StringFiller<'r, 'w, 'v> {
    /// The placeholders in the strings: which parts of a string are variables.
    pub placeholders: &'r Placeholders<'w>,
    /// The variables, or `None` to only check strings. With `None`, a string without faults is its own
    /// output.
    pub variables: Option<&'r Variables<'v>>,
}

impl StringFiller<'_, '_, '_> {
    /// Returns the faults of a string, in the order of their positions.
    ///
    /// # Errors
    ///
    /// If allocation fails.
    pub fn faults(&self, alloc: Global, text: &str) -> Result<Vec<Fault>, AllocError>
        ensures { IfOk result (λ faults. AreFaults self.now text.now faults.items) }
    {
        let source = text.as_bytes();
        let faults = match self.variables {
            Some(variables) => fill_bytes(alloc, source, self.placeholders, variables)?.err(),
            None => uses_in_bytes(alloc, source, self.placeholders)?.err(),
        };
        let mut faults = faults.unwrap_or(Vec::new(alloc));
        faults.sort_unstable_by_key(|fault| fault.range.start);
        Ok(faults)
    }
}

/// Returns an error that only marks a string as refused; [`StringFiller::faults`] has the reasons.
fn refused() -> Error
    ensures { error_fault result ≡ Some (faults.MissingVariableName 0 0) }
{
    Error::MissingVariableName(MissingVariableName {
        position: 0,
        len: 0,
    })
}

/// Converts the output of a string into text. By `laws::texts_give_texts` the output is always UTF-8.
fn string_of(output: Vec<u8>) -> Result<String, AllocError>
    ensures { IfOk result (λ text. string_bytes text ≡ output.items) }
{
    String::from_utf8(output).map_err(|_| AllocError)
}

impl Fill for StringFiller<'_, '_, '_> {
    ghost use Rattle.subst_expander.specs.Strings.{AnswersBy};

    ghost answers = { AnswersBy };

    fn needs_no_filling(&self, text: &str) -> bool {
        match self.placeholders {
            Placeholders::Own => is_plain(text.as_bytes()),
            Placeholders::Chosen(..) => has_no_dollar(text.as_bytes()),
        }
    }

    // Not inlined, so that the stack frame of a recursive walk that calls this stays small.
    #[inline(never)]
    fn fill(&self, alloc: Global, source: &str) -> Result<String, Error> {
        let Some(variables) = self.variables else {
            return Ok(String::from_str(alloc, source)?);
        };
        match fill_bytes(alloc, source.as_bytes(), self.placeholders, variables)? {
            Ok(output) => Ok(string_of(output)?),
            Err(_) => Err(refused()),
        }
    }

    fn refusal(&self, alloc: Global, source: &str) -> Result<Option<Error>, AllocError> {
        if self.faults(alloc, source)?.is_empty() {
            Ok(None)
        } else {
            Ok(Some(refused()))
        }
    }
}

//! Fills in only the variables in chosen forms and of chosen names.

ghost use Rattle.std.specs.Prelude.{◌≡◌, Some};
ghost use Rattle.subst_error.specs.ErrorFault.{error_fault};
ghost use Rattle.subst_error.specs.Fault as faults;

use std::alloc::{AllocError, Global};
use std::collections::BTreeMap;
use subst_document::Fill;
use subst_error::{Error, MissingVariableName};
use subst_foreign::{Forms, Missing, OnlyNames, ShellMap, Style, TextError};
use subst_template::substitute;

/// A filler that expands only variables in these forms and of these names.
#[derive(Clone, Copy)]
pub(crate) struct Chosen<'r, 't> {
    pub(crate) forms: Forms,
    pub(crate) names: &'r OnlyNames<'t>,
    pub(crate) values: &'r BTreeMap<&'t str, String>,
}

/// Creates the same error for every refused text, whatever is wrong with the text.
fn refused() -> Error
    ensures { error_fault result ≡ Some (faults.MissingVariableName 0 0) }
{
    Error::MissingVariableName(MissingVariableName {
        position: 0,
        len: 0,
    })
}

impl Fill for Chosen<'_, '_> {
    // The contract allows any answer.
    ghost answers = { λ chosen text answer. Unit {0} };

    fn needs_no_filling(&self, text: &str) -> bool {
        !text.as_bytes().contains(&b'$')
    }

    fn fill(&self, alloc: Global, source: &str) -> Result<String, Error> {
        let style = Style {
            forms: self.forms,
            names: self.names,
            missing: Missing::Fault,
        };
        let template = match style.template(alloc, source) {
            Ok(template) => template,
            Err(TextError::OutOfMemory(e)) => return Err(Error::OutOfMemory(e)),
            Err(TextError::Refused(_)) => return Err(refused()),
        };
        match self.forms {
            Forms::Shell => substitute(alloc, template.as_str(), &ShellMap { map: self.values }),
            _ => substitute(alloc, template.as_str(), self.values),
        }
    }

    fn refusal(&self, alloc: Global, source: &str) -> Result<Option<Error>, AllocError> {
        match self.fill(alloc, source) {
            Ok(_) => Ok(None),
            Err(Error::OutOfMemory(e)) => Err(e),
            Err(_) => Ok(Some(refused())),
        }
    }
}

//! The style of a text: the forms and names of its variables, and how an unset variable expands.

ghost use Rattle.std.specs.Prelude.{◌≡◌, ◌↔◌, ◌∷◌, ℕ, List, IfErr, IfOk, IsTrue, string_bytes, [], true};
ghost use Rattle.std.specs.List.{AllByRecursion};
ghost use Rattle.std.specs.Str.{IsUtf8};
ghost use Rattle.subst_language.specs.Language.Name.{IsName, IsNameByte};
ghost use Rattle.subst_foreign.specs.Foreign.{IsShellName};
ghost use Rattle.subst_foreign.specs.Grammar.{is_whole, IsNameOf, IsVariable};
ghost use Rattle.subst_foreign.specs.Reading.{grammar_of, IsReading, IsRefusalOf};
ghost use Rattle.subst_foreign.specs.Template.{IsTemplate};

use crate::convert::{convert, text_of};
use crate::forms::{Forms, Missing};
use crate::names::Names;
use crate::refused::{FormAt, TextError};
use std::alloc::{AllocError, Global};

/// The style of a text: the forms and names of its variables, and how an unset variable expands. Some styles
/// read `$$` as a dollar. All other text is literal or refused.
#[derive_where(Clone, Copy)]
pub struct Style<'n, N> {
    /// The forms of variables.
    pub forms: Forms,
    /// The choice of the names that are variables.
    pub names: &'n N,
    /// How an unset variable without an operator expands.
    pub missing: Missing,
}

impl<'n, N: Names> Style<'n, N> {
    /// Converts a text into a template.
    ///
    /// # Errors
    ///
    /// [`TextError::Refused`] with the first refused form, or [`TextError::OutOfMemory`] if allocation fails.
    pub fn template(&self, alloc: Global, text: &str) -> Result<String, TextError>
        ensures template { IfOk result (λ template. IsTemplate (grammar_of N.all N.counts self.now)
            self.now.missing text.now (string_bytes template)) }
        ensures refused { IfErr result (IsRefusalOf (grammar_of N.all N.counts self.now) text.now) }
    {
        Ok(text_of(self.byte_template(alloc, text.as_bytes())?))
    }

    /// Converts bytes into a template, as [`template`](Style::template) converts a text.
    ///
    /// # Errors
    ///
    /// As [`template`](Style::template).
    pub fn byte_template(&self, alloc: Global, source: &[u8]) -> Result<Vec<u8>, TextError>
        ensures template { IfOk result (λ template. IsTemplate (grammar_of N.all N.counts self.now)
            self.now.missing source.now template.items) }

        // If the source is UTF-8, so is the template.
        ensures is_text { IfOk result (λ template. IsUtf8 source.now → IsUtf8 template.items) }
        ensures refused { IfErr result (IsRefusalOf (grammar_of N.all N.counts self.now)
            source.now) }
    {
        let converted = convert(alloc, source, *self)?;
        match converted.refused.first() {
            Some(first) => Err(TextError::Refused(*first)),
            None => Ok(converted.template),
        }
    }

    /// Lists the refused forms of a text, in order. Reading resumes right after the beginning of a refused
    /// form, except that it ends at a message that never closes. If variables are still open at the end of
    /// the text, the outermost one is listed last.
    pub fn refusals(&self, alloc: Global, source: &[u8]) -> Result<Vec<FormAt>, AllocError>
        ensures refused { IfOk result (λ refused. IsReading (grammar_of N.all N.counts self.now)
            source.now refused.items) }
    {
        Ok(convert(alloc, source, *self)?.refused)
    }

    /// Returns whether the style reads `$$` as a dollar and refuses each `${` that begins none of its forms.
    pub(crate) fn is_whole(&self) -> bool
        ensures { result ≡ is_whole self.now.forms (N.all self.now.names.now) }
    {
        match self.forms {
            Forms::Own | Forms::Envsubst => false,
            Forms::Shell => self.names.are_all(),
            Forms::Common => true,
        }
    }

    /// Returns whether name bytes are the name of a variable. `operated` is whether an operator follows them.
    pub(crate) fn has(&self, name: &[u8], operated: bool) -> bool
        requires { AllByRecursion IsNameByte name.now }
        ensures { IsTrue result ↔ IsVariable (grammar_of N.all N.counts self.now) operated
            name.now }
    {
        is_name_of(name, self.forms) && (self.names.are_all() || self.names.has(name, operated))
    }
}

/// Returns whether name bytes are a name in these forms.
pub(crate) fn is_name_of(name: &[u8], forms: Forms) -> bool
    requires { AllByRecursion IsNameByte name.now }
    ensures { IsTrue result ↔ IsNameOf forms name.now }
{
    match name.first() {
        None => false,
        Some(first) => matches!(forms, Forms::Own) || !first.is_ascii_digit(),
    }
}

//! Templates over borrowed texts. Their contracts are like those of `ByteTemplate`, and are about the bytes
//! of the texts.

ghost use Rattle.std.specs.Prelude.{◌≡◌, ◌≤◌, IfOk, OnErr};
ghost use Rattle.std.specs.Prelude.{string_bytes, string_capacity, string_len};
ghost use Rattle.subst_error.specs.ErrorFault.{expand_fault, expand_into_fault, parse_fault};
ghost use Rattle.subst_language.specs.Language.Sentence.{IsSentence};
ghost use Rattle.subst_language.specs.Language.BadItem.{HasFault};
ghost use Rattle.subst_language.specs.Calls.Variables.{missing_range, variable_range};
ghost use Rattle.subst_language.specs.Calls.Outcome.{OnFault, Expands, ExpandsInto};
ghost use Rattle.subst_language.specs.Calls.Clauses.{ByValue, ByWritten, Overflows, Misses, IsRangedIn, AreVariables, ListsMissing, EachIsRangedIn};

use crate::parse::parse;
use std::alloc::{AllocError, Global};
use std::convert::AsStr;
use std::fmt;
use std::marker::Model;
use subst_error::{ExpandError, ExpandIntoError, NoSuchVariable, ParseError};
use subst_expand::CowParts;
use subst_expand::expand_text::{expand_text, expand_text_into};
use subst_expand::variables::{missing, variables};
use subst_language::{Variable, VariableMap};
use subst_parse::Reads;

/// A template over a borrowed text. Contracts see it as the bytes of its source.
#[derive(Drop)]
pub struct Template<'a> {
    pub(super) source: &'a str,
    pub(super) parts: CowParts<'a>,
}

impl<'a> Model for Template<'a> {
    ghost use Rattle.std.specs.Prelude.{ℕ, List};
    ghost use Rattle.subst_language.specs.Parts.Meaning.{IsTemplateOf};

    ghost Value = { List ℕ };

    ghost view = { λ t. t.source.now };

    ghost invariant = { λ t. IsTemplateOf t.source.now t.parts };
}

impl<'a> Template<'a> {
    /// Parses a source into a template.
    ///
    /// ```rust
    /// let template = Template::from_str(alloc, "Dear ${name:friend},")?;
    /// let output = template.expand(alloc, &NoSubstitution)?;
    /// // Dear friend,
    /// ```
    ///
    /// # Errors
    ///
    /// `InvalidEscapeSequence`, `MissingVariableName`, `UnexpectedCharacter` or `MissingClosingBrace` if the
    /// source isn't a sentence of the template language. The error is the source's first fault, with the
    /// fault's byte offset. `OutOfMemory` if allocation fails.
    pub fn from_str(alloc: Global, source: &'a str) -> Result<Self, ParseError>
        // Only a sentence has a template, and the template's source is this sentence.
        ensures ok { IfOk result (λ template. IsSentence source.now × (template ≡ source.now)) }
        ensures err { OnFault parse_fault result (HasFault 0 source.now) }

        // The range of the fault is in the source, at character boundaries.
        ensures range { IsRangedIn source.now parse_fault result }
    {
        let parts = parse(alloc, source.as_bytes(), &mut Reads::new())?;
        let parts = CowParts::from(parts);
        Ok(Template { source, parts })
    }

    /// Returns the source, a sentence of the template language.
    pub fn source(&self) -> &str
        ensures source { result.now ≡ self.now }
        ensures sentence { IsSentence self.now }
    {
        self.source
    }

    /// Expands the template with the values of `variables`, which are texts.
    ///
    /// # Errors
    ///
    /// `NoSuchVariable` for the first needed name that `variables` has no value for; the names in an unused
    /// default aren't needed. `OutOfMemory` if allocation fails.
    pub fn expand<'b, M: VariableMap<'b>>(
        &self,
        alloc: Global,
        variables: &'b M,
    ) -> Result<String, ExpandError>
    where
        M::Value: AsStr + Drop,
        ensures value { ByValue M.Value.text M.see (M.look_up variables.now) self.now
            (Expands (λ output. string_bytes output) result) }

        // For any map: the source is a sentence, and an error states the source's first missing variable,
        // with a range in the source.
        ensures sentence { IsSentence self.now }
        ensures missing { Misses (M.look_up variables.now) self.now expand_fault result }
        ensures range { IsRangedIn self.now expand_fault result }
    {
        expand_text(alloc, self.source, &self.parts, variables)
    }

    /// Expands the template with the values of `variables`, which are texts, and appends the result to
    /// `output`. Never allocates if `output` has capacity for the result, even if a variable is missing.
    ///
    /// ```rust
    /// let template = Template::from_str(alloc, "Dear ${name:friend},")?;
    /// let mut output = String::from_str(alloc, "> ")?;
    /// let _ = template.expand_into(&mut output, &NoSubstitution);
    /// // > Dear friend,
    /// ```
    ///
    /// # Errors
    ///
    /// As `expand`, with the name of a missing variable borrowed from the source. `OutOfMemory` only if the
    /// spare capacity of `output` is less than the number of bytes to write. These are all bytes of the
    /// expansion, or those before the missing variable if there is one. The text in `output` is unchanged
    /// after any error.
    pub fn expand_into<'b, M: VariableMap<'b>>(
        &self,
        output: &mut String,
        variables: &'b M,
    ) -> Result<(), ExpandIntoError<'a>>
    where
        M::Value: AsStr + Drop,
        ensures value { ByValue M.Value.text M.see (M.look_up variables.now) self.now
            (ExpandsInto (string_bytes output.old) result (string_bytes output.new)) }

        // For any map: an error leaves the text in `output` unchanged, and the capacity of `output` never
        // shrinks.
        ensures kept { OnErr result (string_bytes output.new ≡ string_bytes output.old) }
        ensures capacity { string_capacity output.old ≤ string_capacity output.new }

        // Memory runs out only if the spare capacity is less than the number of bytes to write.
        ensures full { ByWritten M.Value.text M.see (M.look_up variables.now) self.now
            (Overflows (string_capacity output.old) (string_len output.old) result) }
        ensures sentence { IsSentence self.now }
        ensures missing { Misses (M.look_up variables.now) self.now expand_into_fault result }
        ensures range { IsRangedIn self.now expand_into_fault result }
    {
        expand_text_into(self.source, &self.parts, variables, output)
    }

    /// Returns the variables of the source, each with its kind and the byte offset of its name, in the order
    /// of the source. Those in defaults are included. A name that occurs twice is listed twice.
    ///
    /// ```rust
    /// let template = Template::from_str(alloc, "$a ${b:${c?}$a}")?;
    /// let mut output = String::new(alloc);
    /// for variable in template.variables(alloc)? {
    ///     output.push_str(variable.name)?;
    /// }
    /// // abca
    /// ```
    ///
    /// # Errors
    ///
    /// If allocation fails.
    pub fn variables(&self, alloc: Global) -> Result<Vec<Variable<'a>>, AllocError>
        ensures variables { IfOk result (λ list. AreVariables self.now list.items) }
        ensures sentence { IsSentence self.now }
        ensures range { IfOk result (λ list. EachIsRangedIn self.now variable_range list.items) }
    {
        variables(alloc, self.source.as_bytes(), &self.parts)
    }

    /// Returns the missing variables in the order of the source. A variable is missing if an expansion needs
    /// it and `variables` has no value for it. The names in an unused default aren't needed. A name that is
    /// missing twice is listed twice, at both positions.
    ///
    /// The list is empty if the template expands. Otherwise its first variable is the one that the error of
    /// `expand` states. No value is read.
    ///
    /// ```rust
    /// let template = Template::from_str(alloc, "$a ${b:${c?}$a}")?;
    /// let mut output = String::new(alloc);
    /// for e in template.missing(alloc, &NoSubstitution)? {
    ///     output.push_str(format!(in alloc; "{}@{};", e.name, e.position)?.as_str())?;
    /// }
    /// // a@1;a@13;
    /// ```
    ///
    /// # Errors
    ///
    /// If allocation fails.
    pub fn missing<'b, M: VariableMap<'b>>(
        &self,
        alloc: Global,
        variables: &'b M,
    ) -> Result<Vec<NoSuchVariable>, AllocError>
    where
        M::Value: Drop,
        ensures missing { ListsMissing (M.look_up variables.now) self.now result }
        ensures sentence { IsSentence self.now }
        ensures range { IfOk result (λ list. EachIsRangedIn self.now missing_range list.items) }
    {
        missing(alloc, self.source.as_bytes(), &self.parts, variables)
    }
}

/// A clone has the same source. Its parts are copied if the template owns them, and borrowed otherwise.
impl<'a> Clone for Template<'a> {
    ghost use Rattle.std.specs.Prelude.{◌≡◌};

    ghost is_clone = { λ template copy. copy ≡ template };

    fn clone(&self) -> Result<Self, AllocError> {
        let parts = self.parts.clone()?;
        Ok(Template {
            source: self.source,
            parts,
        })
    }
}

/// Formats the source, as `Template("Hello $name!")`.
impl<'a> fmt::Debug for Template<'a> {
    fn fmt<W: fmt::Write>(&self, f: &mut fmt::Formatter<W>) -> fmt::Result {
        f.debug_tuple("Template").field(&self.source).finish()
    }
}

//! Templates that own their texts. Their contracts are like those of `ByteTemplateBuf`, and are about the
//! bytes of the texts.

ghost use Rattle.std.specs.Prelude.{◌≡◌, ◌≤◌, IfOk, OnErr};
ghost use Rattle.std.specs.Prelude.{string_bytes, string_capacity, string_len};
ghost use Rattle.subst_error.specs.ErrorFault.{expand_fault, expand_into_fault, parse_fault};
ghost use Rattle.subst_language.specs.Language.Sentence.{IsSentence};
ghost use Rattle.subst_language.specs.Language.BadItem.{HasFault};
ghost use Rattle.subst_language.specs.Calls.Variables.{missing_range, variable_range};
ghost use Rattle.subst_language.specs.Calls.Outcome.{OnFault, Expands, ExpandsInto};
ghost use Rattle.subst_language.specs.Calls.Clauses.{ByValue, ByWritten, Overflows, Misses, IsRangedIn, AreVariables, ListsMissing, EachIsRangedIn};

use crate::parse::parse;
use crate::template::text_template::Template;
use std::alloc::{AllocError, Global};
use std::convert::AsStr;
use std::fmt;
use std::marker::Model;
use subst_error::{ExpandError, ExpandIntoError, NoSuchVariable, ParseError};
use subst_expand::{CowParts, PartVec};
use subst_language::{Variable, VariableMap};
use subst_parse::Reads;

/// A template that owns its text. Contracts see it as the bytes of its source.
///
/// ```rust
/// let template = TemplateBuf::from_string(String::from_str(alloc, "Dear ${name:friend},")?)?;
/// let output = template.as_template().expand(alloc, &NoSubstitution)?;
/// // Dear friend,
/// ```
#[derive(Drop)]
pub struct TemplateBuf {
    source: String,
    parts: PartVec,
}

impl Model for TemplateBuf {
    ghost use Rattle.std.specs.Prelude.{ℕ, List, string_bytes};
    ghost use Rattle.subst_language.specs.Parts.Meaning.{IsTemplateOf};

    ghost Value = { List ℕ };

    ghost view = { λ t. string_bytes t.source };

    ghost invariant = { λ t. IsTemplateOf (string_bytes t.source) t.parts };
}

impl TemplateBuf {
    /// Parses a source into a template that owns it. A refused source is dropped.
    ///
    /// # Errors
    ///
    /// As [`Template::from_str`].
    pub fn from_string(source: String) -> Result<Self, ParseError>
        // Only a sentence has a template, and the template's source is this sentence.
        ensures ok { IfOk result
            (λ template. IsSentence (string_bytes source) × (template ≡ string_bytes source)) }
        ensures err { OnFault parse_fault result (HasFault 0 (string_bytes source)) }

        // The range of the fault is in the source, at character boundaries.
        ensures range { IsRangedIn (string_bytes source) parse_fault result }
    {
        let alloc = *source.allocator();
        let parts = parse(alloc, source.as_bytes(), &mut Reads::new())?;
        Ok(TemplateBuf { source, parts })
    }

    /// Copies a template, with its source.
    ///
    /// # Errors
    ///
    /// If allocation fails.
    pub fn from_template(alloc: Global, other: &Template<'_>) -> Result<Self, AllocError>
        ensures template { IfOk result (λ template. template ≡ other.now) }
    {
        let source = String::from_str(alloc, other.source)?;
        let parts = other.parts.to_vec(alloc)?;
        Ok(TemplateBuf { source, parts })
    }

    /// Converts a template into one that owns a copy of its source. Owned parts are moved, not copied.
    ///
    /// # Errors
    ///
    /// If allocation fails.
    pub fn of_template(alloc: Global, other: Template<'_>) -> Result<Self, AllocError>
        ensures template { IfOk result (λ template. template ≡ other.entry) }
    {
        let source = String::from_str(alloc, other.source)?;
        let parts = other.parts.into_vec(alloc)?;
        Ok(TemplateBuf { source, parts })
    }

    /// Borrows the template, without allocating.
    pub fn as_template(&self) -> Template<'_>
        ensures template { result ≡ self.now }
    {
        Template {
            source: &self.source,
            parts: CowParts::borrowed(&self.parts),
        }
    }

    /// Returns the source, a sentence of the template language.
    pub fn source(&self) -> &str
        ensures source { result.now ≡ self.now }
        ensures sentence { IsSentence self.now }
    {
        &self.source
    }

    /// Returns the source, and drops the parts.
    pub fn into_source(self) -> String
        ensures source { string_bytes result ≡ self }
        ensures sentence { IsSentence self }
    {
        self.source
    }

    /// Expands the template with the values of `variables`, which are texts.
    ///
    /// # Errors
    ///
    /// As [`Template::expand`].
    pub fn expand<'b, M: VariableMap<'b>>(
        &self,
        alloc: Global,
        variables: &'b M,
    ) -> Result<String, ExpandError>
    where
        M::Value: AsStr + Drop,
        ensures value { ByValue M.Value.text M.see (M.look_up variables.now) self.now
            (Expands (λ output. string_bytes output) result) }

        // For any map: the source is a sentence, and an error states the source's first missing variable,
        // with a range in the source.
        ensures sentence { IsSentence self.now }
        ensures missing { Misses (M.look_up variables.now) self.now expand_fault result }
        ensures range { IsRangedIn self.now expand_fault result }
    {
        self.as_template().expand(alloc, variables)
    }

    /// Expands the template with the values of `variables`, which are texts, and appends the result to
    /// `output`, as [`Template::expand_into`] does.
    ///
    /// # Errors
    ///
    /// As [`Template::expand_into`]. The text in `output` is then unchanged.
    pub fn expand_into<'b, M: VariableMap<'b>>(
        &self,
        output: &mut String,
        variables: &'b M,
    ) -> Result<(), ExpandIntoError<'_>>
    where
        M::Value: AsStr + Drop,
        ensures value { ByValue M.Value.text M.see (M.look_up variables.now) self.now
            (ExpandsInto (string_bytes output.old) result (string_bytes output.new)) }

        // For any map: an error leaves the text in `output` unchanged, and the capacity of `output` never
        // shrinks.
        ensures kept { OnErr result (string_bytes output.new ≡ string_bytes output.old) }
        ensures capacity { string_capacity output.old ≤ string_capacity output.new }

        // Memory runs out only if the spare capacity is less than the number of bytes to write.
        ensures full { ByWritten M.Value.text M.see (M.look_up variables.now) self.now
            (Overflows (string_capacity output.old) (string_len output.old) result) }
        ensures sentence { IsSentence self.now }
        ensures missing { Misses (M.look_up variables.now) self.now expand_into_fault result }
        ensures range { IsRangedIn self.now expand_into_fault result }
    {
        self.as_template().expand_into(output, variables)
    }

    /// Returns the variables of the source, as [`Template::variables`] does.
    ///
    /// # Errors
    ///
    /// If allocation fails.
    pub fn variables(&self, alloc: Global) -> Result<Vec<Variable<'_>>, AllocError>
        ensures variables { IfOk result (λ list. AreVariables self.now list.items) }
        ensures sentence { IsSentence self.now }
        ensures range { IfOk result (λ list. EachIsRangedIn self.now variable_range list.items) }
    {
        self.as_template().variables(alloc)
    }

    /// Returns the missing variables, as [`Template::missing`] does.
    ///
    /// # Errors
    ///
    /// If allocation fails.
    pub fn missing<'b, M: VariableMap<'b>>(
        &self,
        alloc: Global,
        variables: &'b M,
    ) -> Result<Vec<NoSuchVariable>, AllocError>
    where
        M::Value: Drop,
        ensures missing { ListsMissing (M.look_up variables.now) self.now result }
        ensures sentence { IsSentence self.now }
        ensures range { IfOk result (λ list. EachIsRangedIn self.now missing_range list.items) }
    {
        self.as_template().missing(alloc, variables)
    }
}

/// A clone has the same source.
impl Clone for TemplateBuf {
    ghost use Rattle.std.specs.Prelude.{◌≡◌};

    ghost is_clone = { λ template copy. copy ≡ template };

    fn clone(&self) -> Result<Self, AllocError> {
        let source = self.source.clone()?;
        let parts = self.parts.clone()?;
        Ok(TemplateBuf { source, parts })
    }
}

/// Borrows the template, as [`TemplateBuf::as_template`] does.
impl<'a> From<&'a TemplateBuf> for Template<'a> {
    ghost use Rattle.std.specs.Prelude.{◌≡◌};

    ghost from_gives = { λ template borrowed. borrowed ≡ template.now };

    fn from(template: &'a TemplateBuf) -> Self {
        template.as_template()
    }
}

/// Formats the source, as `TemplateBuf("Hello $name!")`.
impl fmt::Debug for TemplateBuf {
    fn fmt<W: fmt::Write>(&self, f: &mut fmt::Formatter<W>) -> fmt::Result {
        f.debug_tuple("TemplateBuf").field(&self.source).finish()
    }
}

//! Templates that own both a byte source and its parts. Such a template can be borrowed as a `ByteTemplate`.

ghost use Rattle.std.specs.Prelude.{◌≡◌, ◌≤◌, IfOk, OnErr};
ghost use Rattle.std.specs.Prelude.{vec_capacity, vec_len};
ghost use Rattle.subst_error.specs.ErrorFault.{expand_fault, expand_into_fault, parse_fault};
ghost use Rattle.subst_language.specs.Language.Sentence.{IsSentence};
ghost use Rattle.subst_language.specs.Language.BadItem.{HasFault};
ghost use Rattle.subst_language.specs.Calls.Variables.{missing_range, variable_range};
ghost use Rattle.subst_language.specs.Calls.Outcome.{OnFault, Expands, ExpandsInto};
ghost use Rattle.subst_language.specs.Calls.Clauses.{ByValue, ByWritten, Overflows, Misses, EndsWithin, AreVariables, ListsMissing, EachEndsWithin};

use crate::parse::parse;
use crate::template::byte_string::ByteString;
use crate::template::byte_template::ByteTemplate;
use std::alloc::{AllocError, Global};
use std::convert::AsSlice;
use std::fmt;
use std::marker::Model;
use subst_error::{ExpandError, ExpandIntoError, NoSuchVariable, ParseError};
use subst_expand::{CowParts, PartVec};
use subst_language::{Variable, VariableMap};
use subst_parse::Reads;

/// A template that owns its byte source. Contracts see the template as its source.
#[derive(Drop)]
pub struct ByteTemplateBuf {
    source: Vec<u8>,
    parts: PartVec,
}

impl Model for ByteTemplateBuf {
    ghost use Rattle.std.specs.Prelude.{ℕ, List};
    ghost use Rattle.subst_language.specs.Parts.Meaning.{IsTemplateOf};

    ghost Value = { List ℕ };

    ghost view = { λ t. t.source.items };

    ghost invariant = { λ t. IsTemplateOf t.source.items t.parts };
}

impl ByteTemplateBuf {
    /// Parses a source into a template that owns it. A refused source is dropped.
    ///
    /// # Errors
    ///
    /// As [`ByteTemplate::from_slice`].
    pub fn from_vec(source: Vec<u8>) -> Result<Self, ParseError>
        // Only a sentence has a template, and the template's source is this sentence.
        ensures ok { IfOk result (λ template. IsSentence source.items × (template ≡ source.items)) }
        ensures err { OnFault parse_fault result (HasFault 0 source.items) }
        ensures range { EndsWithin source.items parse_fault result }
    {
        let alloc = *source.allocator();
        let parts = parse(alloc, &source, &mut Reads::new())?;
        Ok(ByteTemplateBuf { source, parts })
    }

    /// Copies a template, with its source.
    ///
    /// # Errors
    ///
    /// If allocation fails.
    pub fn from_template(alloc: Global, other: &ByteTemplate<'_>) -> Result<Self, AllocError>
        ensures template { IfOk result (λ template. template ≡ other.now) }
    {
        let source = Vec::from_slice(alloc, other.source)?;
        let parts = other.parts.to_vec(alloc)?;
        Ok(ByteTemplateBuf { source, parts })
    }

    /// Converts a template into one that owns a copy of its source. Owned parts are moved, not copied.
    ///
    /// # Errors
    ///
    /// If allocation fails.
    pub fn of_template(alloc: Global, other: ByteTemplate<'_>) -> Result<Self, AllocError>
        ensures template { IfOk result (λ template. template ≡ other.entry) }
    {
        let source = Vec::from_slice(alloc, other.source)?;
        let parts = other.parts.into_vec(alloc)?;
        Ok(ByteTemplateBuf { source, parts })
    }

    /// Borrows the template, without allocating.
    pub fn as_template(&self) -> ByteTemplate<'_>
        ensures template { result ≡ self.now }
    {
        ByteTemplate {
            source: &self.source,
            parts: CowParts::borrowed(&self.parts),
        }
    }

    /// Returns the source, a sentence of the template language.
    pub fn source(&self) -> &[u8]
        ensures source { result.now ≡ self.now }
        ensures sentence { IsSentence self.now }
    {
        &self.source
    }

    /// Returns the source, and drops the parts.
    pub fn into_source(self) -> Vec<u8>
        ensures source { result.items ≡ self }
        ensures sentence { IsSentence self }
    {
        self.source
    }

    /// Expands the template with the values of `variables`.
    ///
    /// # Errors
    ///
    /// As [`ByteTemplate::expand`].
    pub fn expand<'b, M: VariableMap<'b>>(
        &self,
        alloc: Global,
        variables: &'b M,
    ) -> Result<Vec<u8>, ExpandError>
    where
        M::Value: AsSlice<u8> + Drop,
        ensures value { ByValue M.Value.items M.see (M.look_up variables.now) self.now
            (Expands (λ output. output.items) result) }

        // For any map: the source is a sentence, and an error states the source's first missing variable,
        // with a range in the source.
        ensures sentence { IsSentence self.now }
        ensures missing { Misses (M.look_up variables.now) self.now expand_fault result }
        ensures range { EndsWithin self.now expand_fault result }
    {
        self.as_template().expand(alloc, variables)
    }

    /// Expands the template with the values of `variables`, and appends the bytes to `output`, as
    /// [`ByteTemplate::expand_into`] does.
    ///
    /// # Errors
    ///
    /// As [`ByteTemplate::expand_into`]. The items of `output` are then unchanged.
    pub fn expand_into<'b, M: VariableMap<'b>>(
        &self,
        output: &mut Vec<u8>,
        variables: &'b M,
    ) -> Result<(), ExpandIntoError<'_>>
    where
        M::Value: AsSlice<u8> + Drop,
        ensures value { ByValue M.Value.items M.see (M.look_up variables.now) self.now
            (ExpandsInto output.old.items result output.new.items) }

        // For any map: an error leaves the items of `output` unchanged, and the capacity of `output` never
        // shrinks.
        ensures kept { OnErr result (output.new.items ≡ output.old.items) }
        ensures capacity { vec_capacity output.old ≤ vec_capacity output.new }

        // Memory runs out only if the spare capacity is less than the number of bytes to write.
        ensures full { ByWritten M.Value.items M.see (M.look_up variables.now) self.now
            (Overflows (vec_capacity output.old) (vec_len output.old) result) }
        ensures sentence { IsSentence self.now }
        ensures missing { Misses (M.look_up variables.now) self.now expand_into_fault result }
        ensures range { EndsWithin self.now expand_into_fault result }
    {
        self.as_template().expand_into(output, variables)
    }

    /// Returns the variables of the source, as [`ByteTemplate::variables`] does.
    ///
    /// # Errors
    ///
    /// If allocation fails.
    pub fn variables(&self, alloc: Global) -> Result<Vec<Variable<'_>>, AllocError>
        ensures variables { IfOk result (λ list. AreVariables self.now list.items) }
        ensures sentence { IsSentence self.now }
        ensures range { IfOk result (λ list. EachEndsWithin self.now variable_range list.items) }
    {
        self.as_template().variables(alloc)
    }

    /// Returns the missing variables, as [`ByteTemplate::missing`] does.
    ///
    /// # Errors
    ///
    /// If allocation fails.
    pub fn missing<'b, M: VariableMap<'b>>(
        &self,
        alloc: Global,
        variables: &'b M,
    ) -> Result<Vec<NoSuchVariable>, AllocError>
    where
        M::Value: Drop,
        ensures missing { ListsMissing (M.look_up variables.now) self.now result }
        ensures sentence { IsSentence self.now }
        ensures range { IfOk result (λ list. EachEndsWithin self.now missing_range list.items) }
    {
        self.as_template().missing(alloc, variables)
    }
}

/// A clone has the same source.
impl Clone for ByteTemplateBuf {
    ghost use Rattle.std.specs.Prelude.{◌≡◌};

    ghost is_clone = { λ template copy. copy ≡ template };

    fn clone(&self) -> Result<Self, AllocError> {
        let source = self.source.clone()?;
        let parts = self.parts.clone()?;
        Ok(ByteTemplateBuf { source, parts })
    }
}

/// Borrows the template, as [`ByteTemplateBuf::as_template`] does.
impl<'a> From<&'a ByteTemplateBuf> for ByteTemplate<'a> {
    ghost use Rattle.std.specs.Prelude.{◌≡◌};

    ghost from_gives = { λ template borrowed. borrowed ≡ template.now };

    fn from(template: &'a ByteTemplateBuf) -> Self {
        template.as_template()
    }
}

/// Formats the source, as `ByteTemplateBuf(b"Hello $name!")`.
impl fmt::Debug for ByteTemplateBuf {
    fn fmt<W: fmt::Write>(&self, f: &mut fmt::Formatter<W>) -> fmt::Result {
        f.debug_tuple("ByteTemplateBuf")
            .field(&ByteString(&self.source))
            .finish()
    }
}

//! Templates over borrowed byte sources. Each has a source and its parts, and the parts are owned or
//! borrowed. Only a sentence has a template. The template expands to the value of the source's tree.
//! Contracts bound the reads of a parse and count the turns of an expansion.

ghost use Rattle.std.specs.Prelude.{◌≡◌, ◌+◌, ◌*◌, ◌^◌, ◌≤◌, length, IfOk, IfErr, OnErr, OnOk};
ghost use Rattle.std.specs.Prelude.{vec_capacity, vec_len};
ghost use Rattle.subst_error.specs.ErrorFault.{expand_fault, expand_into_fault, parse_fault};
ghost use Rattle.subst_language.specs.Language.Sentence.{IsSentence, ByTree};
ghost use Rattle.subst_language.specs.Language.BadItem.{HasFault};
ghost use Rattle.subst_language.specs.Language.Counts.{visited_count};
ghost use Rattle.subst_language.specs.Calls.Variables.{missing_range, variable_range};
ghost use Rattle.subst_language.specs.Calls.VariableMap.{ByLookUp};
ghost use Rattle.subst_language.specs.Calls.Outcome.{OnFault, Expands};
ghost use Rattle.subst_language.specs.Calls.Outcome.{ExpandsInto, ExpandsIntoSlice, OnOutOfMemory};
ghost use Rattle.subst_language.specs.Calls.Clauses.{ByValue, ByWritten, Overflows, Misses, EndsWithin, AreVariables, ListsMissing, EachEndsWithin};

use crate::parse::parse;
use crate::template::byte_string::ByteString;
use std::alloc::{AllocError, Global};
use std::convert::AsSlice;
use std::fmt;
use std::marker::Model;
use subst_error::{ExpandError, ExpandIntoError, NoSuchVariable, ParseError};
use subst_expand::expand::{expand, expand_into, expand_into_slice};
use subst_expand::variables::{missing, variables};
use subst_expand::{CowParts, SliceBytes, Turns};
use subst_language::{Variable, VariableMap};
use subst_parse::Reads;

/// A template over a borrowed byte source. Contracts see it as its source.
#[derive(Drop)]
pub struct ByteTemplate<'a> {
    pub(super) source: &'a [u8],
    pub(super) parts: CowParts<'a>,
}

impl<'a> Model for ByteTemplate<'a> {
    ghost use Rattle.std.specs.Prelude.{ℕ, List};
    ghost use Rattle.subst_language.specs.Parts.Meaning.{IsTemplateOf};

    ghost Value = { List ℕ };

    ghost view = { λ t. t.source.now };

    ghost invariant = { λ t. IsTemplateOf t.source.now t.parts };
}

impl<'a> ByteTemplate<'a> {
    /// Parses a source into a template.
    ///
    /// # Errors
    ///
    /// `InvalidEscapeSequence`, `MissingVariableName`, `UnexpectedCharacter` or `MissingClosingBrace` if the
    /// source isn't a sentence of the template language: its first fault. `OutOfMemory` if allocation fails.
    pub fn from_slice(alloc: Global, source: &'a [u8]) -> Result<Self, ParseError>
        // Only a sentence has a template, and the template's source is this sentence.
        ensures ok { IfOk result (λ template. IsSentence source.now × (template ≡ source.now)) }
        ensures err { OnFault parse_fault result (HasFault 0 source.now) }
        ensures range { EndsWithin source.now parse_fault result }
    {
        ByteTemplate::from_slice_counted(alloc, source, &mut Reads::new())
    }

    /// Parses a source into a template, as `from_slice`, and counts the reads. A sentence of n bytes takes at
    /// least n reads, and a refused source at least one. Either takes at most 3 n + 8 reads (clause `sharp`).
    /// No contract states that all reads of a refused source are counted.
    ///
    /// # Errors
    ///
    /// As `from_slice`.
    pub fn from_slice_counted(
        alloc: Global,
        source: &'a [u8],
        reads: &mut Reads,
    ) -> Result<Self, ParseError>
        ensures ok { IfOk result (λ template. IsSentence source.now × (template ≡ source.now)) }
        ensures err { OnFault parse_fault result (HasFault 0 source.now) }
        ensures bound { reads.new ≤ reads.old + 8 * length source.now + 8 }
        ensures sharp { reads.new ≤ reads.old + 3 * length source.now + 8 }
        ensures grows { reads.old ≤ reads.new }
        ensures whole { OnOk result (reads.old + length source.now ≤ reads.new) }
        ensures refused { IfErr result (λ e. reads.old + 1 ≤ reads.new) }
        ensures range { EndsWithin source.now parse_fault result }
    {
        let parts = parse(alloc, source, reads)?;
        let parts = CowParts::from(parts);
        Ok(ByteTemplate { source, parts })
    }

    /// Returns the source, a sentence of the template language.
    pub fn source(&self) -> &[u8]
        ensures source { result.now ≡ self.now }
        ensures sentence { IsSentence self.now }
    {
        self.source
    }

    /// Expands the template with the values of `variables`.
    ///
    /// # Errors
    ///
    /// `NoSuchVariable` for the first needed name that `variables` has no value for; the names in an unused
    /// default aren't needed. `OutOfMemory` if allocation fails.
    pub fn expand<'b, M: VariableMap<'b>>(
        &self,
        alloc: Global,
        variables: &'b M,
    ) -> Result<Vec<u8>, ExpandError>
    where
        M::Value: AsSlice<u8> + Drop,
        ensures value { ByValue M.Value.items M.see (M.look_up variables.now) self.now
            (Expands (λ output. output.items) result) }

        // For any map: the source is a sentence, and an error states the first missing variable, with a range
        // in the source.
        ensures sentence { IsSentence self.now }
        ensures missing { Misses (M.look_up variables.now) self.now expand_fault result }
        ensures range { EndsWithin self.now expand_fault result }
    {
        let mut turns = Turns::new();
        self.expand_counted(alloc, variables, &mut turns)
    }

    /// Expands the template, as `expand`, and counts the turns: one for each visited part of the source. No
    /// part of a default is visited if the default's variable has a value.
    ///
    /// # Errors
    ///
    /// As `expand`. If the expansion fails, some parts may remain unvisited, and no contract states that each
    /// visited part is counted.
    pub fn expand_counted<'b, M: VariableMap<'b>>(
        &self,
        alloc: Global,
        variables: &'b M,
        turns: &mut Turns,
    ) -> Result<Vec<u8>, ExpandError>
    where
        M::Value: AsSlice<u8> + Drop,
        ensures value { ByValue M.Value.items M.see (M.look_up variables.now) self.now
            (Expands (λ output. output.items) result) }
        ensures counted { ByLookUp M.Value.items M.see (M.look_up variables.now)
            (λ look. ByTree self.now
            (λ t. OnOk result (turns.new ≡ turns.old + visited_count t look))) }
        ensures at_most { ByLookUp M.Value.items M.see (M.look_up variables.now)
            (λ look. ByTree self.now (λ t. turns.new ≤ turns.old + visited_count t look)) }
        ensures grown { turns.old ≤ turns.new }

        // For any map: the source is a sentence, and an error states the source's first missing variable,
        // with a range in the source.
        ensures sentence { IsSentence self.now }
        ensures missing { Misses (M.look_up variables.now) self.now expand_fault result }
        ensures range { EndsWithin self.now expand_fault result }
    {
        expand::<M, SliceBytes>(alloc, self.source, &self.parts, variables, turns)
    }

    /// Expands the template with the values of `variables`, and appends the bytes to `output`. Never
    /// allocates if `output` has capacity for the bytes, even if a variable is missing.
    ///
    /// ```rust
    /// let template = ByteTemplate::from_slice(alloc, b"Dear ${name:friend},")?;
    /// let mut output = Vec::from_slice(alloc, b"> ")?;
    /// let _ = template.expand_into(&mut output, &NoSubstitution);
    /// // > Dear friend,
    /// ```
    ///
    /// # Errors
    ///
    /// As `expand`, with the name of a missing variable borrowed from the source. `OutOfMemory` only if the
    /// spare capacity of `output` is less than the number of bytes to write. These are all bytes of the
    /// expansion, or those before the missing variable if there is one. The items of `output` are unchanged
    /// after any error.
    pub fn expand_into<'b, M: VariableMap<'b>>(
        &self,
        output: &mut Vec<u8>,
        variables: &'b M,
    ) -> Result<(), ExpandIntoError<'a>>
    where
        M::Value: AsSlice<u8> + Drop,
        ensures value { ByValue M.Value.items M.see (M.look_up variables.now) self.now
            (ExpandsInto output.old.items result output.new.items) }

        // For any map: an error leaves the items of `output` unchanged, and the capacity of `output` never
        // shrinks.
        ensures kept { OnErr result (output.new.items ≡ output.old.items) }
        ensures capacity { vec_capacity output.old ≤ vec_capacity output.new }

        // Memory runs out only if the spare capacity is less than the number of bytes to write.
        ensures full { ByWritten M.Value.items M.see (M.look_up variables.now) self.now
            (Overflows (vec_capacity output.old) (vec_len output.old) result) }
        ensures sentence { IsSentence self.now }
        ensures missing { Misses (M.look_up variables.now) self.now expand_into_fault result }
        ensures range { EndsWithin self.now expand_into_fault result }
    {
        let mut turns = Turns::new();
        expand_into::<M, SliceBytes>(self.source, &self.parts, variables, &mut turns, output)
    }

    /// Expands the template with the values of `variables`, and writes the bytes to the start of a slice,
    /// without allocating. Returns the number of these bytes, even if the slice is too short for them.
    ///
    /// The contents of the slice are unspecified if it is too short, and after an error.
    ///
    /// # Errors
    ///
    /// As `expand_into`, but `OutOfMemory` only if the number of bytes exceeds a `usize`.
    pub fn expand_into_slice<'b, M: VariableMap<'b>>(
        &self,
        slice: &mut [u8],
        variables: &'b M,
    ) -> Result<usize, ExpandIntoError<'a>>
    where
        M::Value: AsSlice<u8> + Drop,
        ensures value { ByValue M.Value.items M.see (M.look_up variables.now) self.now
            (ExpandsIntoSlice slice.old result slice.new) }
        ensures full { ByWritten M.Value.items M.see (M.look_up variables.now) self.now
            (λ x. OnOutOfMemory expand_into_fault result (2 ^ 64 ≤ length x)) }
        ensures sentence { IsSentence self.now }
        ensures missing { Misses (M.look_up variables.now) self.now expand_into_fault result }
        ensures range { EndsWithin self.now expand_into_fault result }
    {
        expand_into_slice::<M, SliceBytes>(self.source, &self.parts, variables, slice)
    }

    /// Returns the variables of the source, each with its kind and the byte offset of its name, in the order
    /// of the source. Those in defaults are included. A name that occurs twice is listed twice.
    ///
    /// # Errors
    ///
    /// If allocation fails.
    pub fn variables(&self, alloc: Global) -> Result<Vec<Variable<'a>>, AllocError>
        ensures variables { IfOk result (λ list. AreVariables self.now list.items) }
        ensures sentence { IsSentence self.now }
        ensures range { IfOk result (λ list. EachEndsWithin self.now variable_range list.items) }
    {
        variables(alloc, self.source, &self.parts)
    }

    /// Returns the missing variables in the order of the source. A variable is missing if an expansion needs
    /// it and `variables` has no value for it. The names in an unused default aren't needed. A name that is
    /// missing twice is listed twice, at both positions.
    ///
    /// The list is empty if the template expands. Otherwise its first variable is the one that the error of
    /// `expand` states. No value is read.
    ///
    /// # Errors
    ///
    /// If allocation fails.
    pub fn missing<'b, M: VariableMap<'b>>(
        &self,
        alloc: Global,
        variables: &'b M,
    ) -> Result<Vec<NoSuchVariable>, AllocError>
    where
        M::Value: Drop,
        ensures missing { ListsMissing (M.look_up variables.now) self.now result }
        ensures sentence { IsSentence self.now }
        ensures range { IfOk result (λ list. EachEndsWithin self.now missing_range list.items) }
    {
        missing(alloc, self.source, &self.parts, variables)
    }
}

/// A clone has the same source. Its parts are copied if the template owns them, and borrowed otherwise.
impl<'a> Clone for ByteTemplate<'a> {
    ghost use Rattle.std.specs.Prelude.{◌≡◌};

    ghost is_clone = { λ template copy. copy ≡ template };

    fn clone(&self) -> Result<Self, AllocError> {
        let parts = self.parts.clone()?;
        Ok(ByteTemplate {
            source: self.source,
            parts,
        })
    }
}

/// Formats the source, as `ByteTemplate(b"Hello $name!")`.
impl<'a> fmt::Debug for ByteTemplate<'a> {
    fn fmt<W: fmt::Write>(&self, f: &mut fmt::Formatter<W>) -> fmt::Result {
        f.debug_tuple("ByteTemplate")
            .field(&ByteString(self.source))
            .finish()
    }
}

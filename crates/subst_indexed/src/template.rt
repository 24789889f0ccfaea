//! Indexed templates over borrowed byte sources.

ghost use Rattle.std.specs.Prelude.{◌≡◌, ◌≤◌, ◌^◌, IfErr, IfOk, length, slice_get};
ghost use Rattle.std.specs.Option.{option_map};
ghost use Rattle.subst_error.specs.ErrorFault.{expand_into_fault};
ghost use Rattle.subst_language.specs.Calls.Outcome.{Expands, OnFault};
ghost use Rattle.subst_language.specs.Language.BadItem.{HasFault};
ghost use Rattle.subst_language.specs.Language.Sentence.{ByTree, IsSentence};
ghost use Rattle.subst_language.specs.Language.Value.{value};
ghost use Rattle.subst_language.specs.Language.Variables.{variables_of};
ghost use Rattle.subst_indexed.specs.Numbering.{first_uses, look_by_number, names_of};
ghost use Rattle.subst_indexed.specs.Parsed.{index_fault};
ghost use Rattle.subst_indexed.specs.Slot.{values_of};
ghost use Rattle.subst_indexed.specs.declared.parse.IndexError.TheVariants as errors;
ghost use Rattle.subst_indexed.specs.Stops.{IsNamedStop, stop_fault};

use crate::cell::Cell;
use crate::expand::expand;
use crate::head::{name_count, name_span};
use crate::parse::{IndexError, parse};
use crate::walk::Stop;
use std::alloc::Global;
use std::marker::Model;
use subst_error::{ExpandError, ExpandIntoError};
use subst_expand::expand as parts;

/// The initial capacity of an output beyond its source's length, in bytes.
const MORE_CAPACITY: usize = 64;

/// A template over a borrowed byte source, in which each distinct name has a number, in the order of first
/// use. It is expanded with a slice of values, the value of each name at the name's number. Contracts see it
/// as its source.
#[derive(Drop)]
pub struct IndexedTemplate<'s> {
    source: &'s [u8],
    cells: Vec<Cell>,
}

impl<'s> Model for IndexedTemplate<'s> {
    ghost use Rattle.std.specs.Prelude.{ℕ, List};
    ghost use Rattle.subst_indexed.specs.Parsed.{IsCellsOf};

    ghost Value = { List ℕ };

    ghost view = { λ t. t.source.now };

    ghost invariant = { λ t. (names : List (List ℕ)) × IsCellsOf t.source.now names t.cells.items };
}

impl<'s> IndexedTemplate<'s> {
    ghost use Rattle.std.specs.Prelude.{ℕ, List};
    ghost use Rattle.subst_indexed.specs.Parsed.{IsCellsOf};

    /// Parses a source into a template.
    ///
    /// # Errors
    ///
    /// - `TooLong` if the source has more than `u32::MAX` bytes.
    /// - `Parse` with the source's first fault if it isn't a sentence of the template language, or with
    ///   `OutOfMemory` if allocation fails.
    pub fn from_slice(alloc: Global, source: &'s [u8]) -> Result<Self, IndexError>
        // Only a sentence has a template, and the template's source is this sentence.
        ensures ok { IfOk result (λ template. IsSentence source.now × (template ≡ source.now)) }
        ensures fault { OnFault index_fault result (HasFault 0 source.now) }
        ensures too_long { IfErr result (λ e. e ≡ errors.TooLong → 2 ^ 32 ≤ length source.now) }
    {
        let cells = parse(alloc, source)?;
        Ok(IndexedTemplate { source, cells })
    }

    /// Returns the source, a sentence of the template language.
    pub fn source(&self) -> &[u8]
        ensures source { result.now ≡ self.now }
        ensures sentence { IsSentence self.now }
    {
        self.source
    }

    /// Returns the cells of the template, as `expand` and `expand_step` take them.
    pub fn cells(&self) -> &[Cell]
        ensures cells { (names : List (List ℕ)) × IsCellsOf self.now names result.now }
    {
        &self.cells
    }

    /// Returns the number of distinct names.
    pub fn name_count(&self) -> usize
        ensures count { ByTree self.now (λ t. result ≡ length (first_uses (variables_of 0 t))) }
    {
        name_count(&self.cells)
    }

    /// Returns the name with a number, or `None` if there is none.
    pub fn name(&self, number: usize) -> Option<&'s [u8]>
        ensures name { ByTree self.now (λ t. option_map (λ name. name.now) result
            ≡ slice_get (names_of (first_uses (variables_of 0 t))) number) }
    {
        let span = name_span(&self.cells, number)?;
        self.source.get(span.start..span.end)
    }

    /// Expands the template with the value of each name at the name's number. A name whose number isn't below
    /// the number of values has no value.
    ///
    /// # Errors
    ///
    /// `NoSuchVariable` for the first needed name without a value, and `OutOfMemory` if allocation fails.
    pub fn expand(&self, alloc: Global, values: &[Option<&[u8]>]) -> Result<Vec<u8>, ExpandError>
        ensures value { ByTree self.now (λ t. Expands (λ output. output.items) result
            (value 0 t (look_by_number t (values_of values.now)))) }
        ensures sentence { IsSentence self.now }
    {
        let mut output = Vec::with_capacity(alloc, self.source.len() + MORE_CAPACITY)?;
        match expand(&self.cells, self.source, values, &mut output) {
            Ok(()) => Ok(output),
            Err(stop) => Err(error_of(self.source, stop).into_owned(alloc)),
        }
    }
}

/// Returns the error of an expansion of a parsed source that stopped.
fn error_of(source: &[u8], stop: Stop) -> ExpandIntoError<'_>
    requires { IsNamedStop source.now stop }
    ensures { expand_into_fault result ≡ stop_fault source.now stop }
{
    let stop = match stop {
        Stop::Full(e) => parts::Stop::Full(e),
        Stop::Missing(name) => parts::Stop::Missing(name),
        Stop::Asks(_) | Stop::NotATemplate => unreachable!(),
    };
    parts::error_of(source, stop)
}

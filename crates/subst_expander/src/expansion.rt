//! The expansion of sources: the output of each, or its refusal. No file is read or written here.

ghost use Rattle.std.specs.Prelude.{◌≡◌, ◌++◌, ◌∷◌, [], ◌⊎◌, ℕ, List, IfErr, IfOk, IsTrue, OnOk, filter, if◌then◌else◌, map, not, string_bytes, vec_items};
ghost use Rattle.subst_expander.specs.Fill.{AreOutputs, IsOutput, IsSourceOutput};
ghost use Rattle.subst_expander.specs.Layers.{Entry as SpecEntry, ForEntries, entries_of, environment_of, is_empty};
ghost use Rattle.subst_expander.specs.Dotenv.{FilesLeave, IsFirstRefused};
ghost use Rattle.subst_expander.specs.FormatRule.{format_of_source};
ghost use Rattle.subst_expander.specs.Refusals.{bytes_of, AreFaultsFor, AreRefusals, IsRefusalOf};
ghost use Rattle.subst_expander.specs.Strings.{FillsFrom};
ghost use Rattle.subst_expander.specs.declared.source.Refused.{Refused as SpecRefused};

use crate::document;
use crate::document::StringFiller;
use crate::dotenv::settings_of;
use crate::entry::Entry;
use crate::format_rule::FormatRule;
use crate::hints::{UnsetHint, unset_hints};
use crate::kinds::{InputFormat, Placeholders};
use crate::layers::{
    Layers, Variables, above, copied, from_pairs, in_order, with_escaped_values, without_empty,
};
use crate::part::{Occurrence, OrFaults, fill_bytes, uses_in_bytes};
use crate::placeholders::has_no_dollar;
use crate::source::{Refused, Source};
use crate::text::{is_text, not_utf8, split_source, text_of};
use std::alloc::{AllocError, Global};
use subst::escape::is_plain;

/// The concatenated outputs of sources, or all refused sources with their faults.
pub type Outputs = Result<Vec<u8>, Vec<Refused>>;

/// An expander of sources, with the formats, placeholders and variables of a run.
#[derive(Drop)]
pub struct Expander<'r, 'w, 'v> {
    /// The rule for the format of each source.
    pub formats: FormatRule<'w>,
    /// The placeholders in the sources: which parts of a source are variables.
    pub placeholders: &'r Placeholders<'w>,
    /// The variables with which the sources are expanded.
    pub variables: Variables<'v>,
}

impl<'w, 'v> Expander<'_, 'w, 'v> {
    /// Expands all sources. Returns the concatenated outputs, or all refused sources.
    ///
    /// # Errors
    ///
    /// If allocation fails.
    pub fn fill_all(&self, alloc: Global, sources: Vec<Source>) -> Result<Outputs, AllocError>
        ensures gives { ForEntries self.now.variables (λ entries. IfOk result (λ outputs.
            IfOk outputs (λ all. AreOutputs self.now.formats self.now.placeholders.now entries
            sources.items all.items))) }
        ensures refused { ForEntries self.now.variables (λ entries. IfOk result (λ outputs.
            IfErr outputs (λ refused. (¬ (refused.items ≡ []))
            × AreRefusals self.now.formats self.now.placeholders.now entries sources.items
            refused.items))) }
    {
        let mut all = Vec::new(alloc);
        let mut refused = Vec::new(alloc);
        for source in sources {
            self.add(alloc, source, &mut all, &mut refused)?;
        }
        if refused.is_empty() {
            Ok(Ok(all))
        } else {
            Ok(Err(refused))
        }
    }

    /// Expands a source. Appends its output to `all`, or the source with its faults to `refused`.
    fn add(
        &self,
        alloc: Global,
        source: Source,
        all: &mut Vec<u8>,
        refused: &mut Vec<Refused>,
    ) -> Result<(), AllocError>
        ensures { ForEntries self.now.variables (λ entries. OnOk result (((x : List ℕ)
            × IsSourceOutput self.now.formats self.now.placeholders.now entries source x
            × (all.new.items ≡ all.old.items ++ x) × (refused.new.items ≡ refused.old.items))
            ⊎ ((it : SpecRefused) × IsRefusalOf self.now.formats self.now.placeholders.now entries
            source it × (refused.new.items ≡ refused.old.items ++ it ∷ [])))) }
    {
        if self.is_its_own_output(&source) {
            return append(all, source.bytes);
        }
        match self.fill(alloc, &source)? {
            Ok(output) => append(all, output),
            Err(faults) => Ok(refused.push(Refused { source, faults })?),
        }
    }

    /// Returns whether a source needn't be expanded because it is known to be its own output.
    pub fn is_its_own_output(&self, source: &Source) -> bool
        ensures itself { IsTrue result → (entries : List SpecEntry)
            → IsSourceOutput self.now.formats self.now.placeholders.now entries source.now
            source.now.bytes.items }
    {
        self.are_unchanged(self.formats.format_of(&source.path), &source.bytes)
    }

    /// Returns whether bytes in a format needn't be expanded because they are known to be their own output.
    fn are_unchanged(&self, format: InputFormat, source: &[u8]) -> bool
        ensures itself { IsTrue result → (entries : List SpecEntry)
            → IsOutput format self.now.placeholders.now entries source.now source.now }
    {
        match (format, self.placeholders) {
            (InputFormat::Text, Placeholders::Own) => { is_plain(source) && is_text(source) }
            (InputFormat::Text, Placeholders::Chosen(..)) => {
                has_no_dollar(source) && is_text(source)
            }
            (InputFormat::Bytes, Placeholders::Own) => is_plain(source),
            (InputFormat::Bytes, Placeholders::Chosen(..)) => has_no_dollar(source),
            (InputFormat::Document(_), _) => false,
        }
    }

    /// Expands a source, or returns its faults.
    ///
    /// # Errors
    ///
    /// If allocation fails.
    pub fn fill(&self, alloc: Global, source: &Source) -> Result<OrFaults<Vec<u8>>, AllocError>
        ensures gives { ForEntries self.now.variables (λ entries. IfOk result (λ outcome.
            IfOk outcome (λ output. IsSourceOutput self.now.formats self.now.placeholders.now
            entries source.now output.items))) }
        ensures refused { ForEntries self.now.variables (λ entries. IfOk result (λ outcome.
            IfErr outcome (λ faults. AreFaultsFor (format_of_source self.now.formats source.now)
            self.now.placeholders.now entries source.now.bytes.items faults.items))) }
    {
        self.fill_as(alloc, self.formats.format_of(&source.path), &source.bytes)
    }

    /// Expands bytes in a format, or returns their faults.
    fn fill_as(
        &self,
        alloc: Global,
        format: InputFormat,
        source: &[u8],
    ) -> Result<OrFaults<Vec<u8>>, AllocError>
        ensures gives { ForEntries self.now.variables (λ entries. IfOk result (λ outcome.
            IfOk outcome (λ output. IsOutput format self.now.placeholders.now entries
            source.now output.items))) }
        ensures refused { ForEntries self.now.variables (λ entries. IfOk result (λ outcome.
            IfErr outcome (λ faults. AreFaultsFor format self.now.placeholders.now entries
            source.now faults.items))) }
    {
        let (kept, filled) = split_source(format, source);
        if let InputFormat::Bytes = format {
            return fill_bytes(alloc, filled, self.placeholders, &self.variables);
        }
        let Some(text) = text_of(filled) else {
            return Ok(Err(not_utf8(alloc, filled)?));
        };
        let InputFormat::Document(format) = format else {
            return fill_bytes(alloc, filled, self.placeholders, &self.variables);
        };
        match document::fill(alloc, format, text, &self.filler())? {
            Ok(output) => Ok(Ok(after(alloc, kept, output)?)),
            Err(faults) => Ok(Err(faults)),
        }
    }

    /// Returns the filler for strings of documents, with the placeholders and variables of this expander.
    fn filler(&self) -> StringFiller<'_, 'w, 'v>
        ensures placeholders { result.placeholders.now ≡ self.now.placeholders.now }
        ensures variables { ForEntries self.now.variables (FillsFrom result) }
    {
        StringFiller {
            placeholders: self.placeholders,
            variables: Some(&self.variables),
        }
    }
}

/// Appends the output of a source to `all`, the outputs of earlier sources.
fn append(all: &mut Vec<u8>, output: Vec<u8>) -> Result<(), AllocError>
    ensures { OnOk result (all.new.items ≡ all.old.items ++ output.items) }
{
    if all.is_empty() {
        *all = output;
        Ok(())
    } else {
        Ok(all.extend_from_slice(&output)?)
    }
}

/// Returns the bytes `kept`, followed by the output of a document.
fn after(alloc: Global, kept: &[u8], output: String) -> Result<Vec<u8>, AllocError>
    ensures { IfOk result (λ bytes. bytes.items ≡ kept.now ++ string_bytes output) }
{
    if kept.is_empty() {
        return Ok(output.into_bytes());
    }
    let mut bytes = Vec::from_slice(alloc, kept)?;
    bytes.extend_from_slice(output.as_bytes())?;
    Ok(bytes)
}

/// Returns the uses of variables in a source, or the source's faults. Each use has the range of its
/// variable's name.
pub fn uses(
    alloc: Global,
    source: &Source,
    formats: FormatRule<'_>,
    placeholders: &Placeholders<'_>,
) -> Result<OrFaults<Vec<Occurrence>>, AllocError> {
    let format = formats.format_of(&source.path);
    let (_, filled) = split_source(format, &source.bytes);
    if format == InputFormat::Bytes {
        return uses_in_bytes(alloc, filled, placeholders);
    }
    let Some(text) = text_of(filled) else {
        return Ok(Err(not_utf8(alloc, filled)?));
    };
    let InputFormat::Document(format) = format else {
        return uses_in_bytes(alloc, filled, placeholders);
    };
    let filler = StringFiller {
        placeholders,
        variables: None,
    };
    document::uses(alloc, format, text, &filler)
}

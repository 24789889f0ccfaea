//! Expanding one source with several rows of pairs. The source is parsed once.

ghost use Rattle.std.specs.Prelude.{◌≡◌, ◌≢◌, ◌⊎◌, ◌<◌, ℕ, List, ◌++◌, ◌∷◌, [], IfErr, IfOk, IfSome, OnOk, drop, length};
ghost use Rattle.subst_error.specs.ErrorFault.{error_fault, expand_fault, parse_fault};
ghost use Rattle.subst_language.specs.Calls.Outcome.{OnFault};
ghost use Rattle.subst_language.specs.Language.Answer.{Answers, Gives, Refuses};
ghost use Rattle.subst_language.specs.Language.BadItem.{HasFault};
ghost use Rattle.subst_language.specs.Language.Sentence.{IsSentence};
ghost use Rattle.subst_c.specs.Each.{AreOutputs, IsRefusedIn};
ghost use Rattle.subst_c.specs.Pairs.{pair_value};
ghost use Rattle.subst_c.specs.RowSource.{source_of};
ghost use Rattle.subst_c.specs.declared.outcome.TheConstants.{DONE, ROOM_TOO_SMALL};

use crate::buffer;
use crate::numbered::NumberedTemplate;
use crate::outcome::{DONE, ROOM_TOO_SMALL};
use crate::pairs::{Pair, Pairs, Row, index_of};
use crate::row_values::RowValues;
use std::alloc::Global;
use subst_error::{Error, ExpandError, ParseError};
use subst_indexed::IndexedTemplate;
use subst_indexed::parse::IndexError;
use subst_template::ByteTemplate;

/// The least number of rows for which an indexed template is no slower.
const FEW_ROWS: usize = 4;

/// The outputs of a source, one for each row of pairs.
#[derive(Drop)]
pub struct Outputs {
    /// The concatenated outputs.
    pub bytes: Vec<u8>,
    /// The positions in `bytes` at which the outputs end.
    pub ends: Vec<usize>,
}

impl Outputs {
    /// Writes the outputs to the front of the buffer, their ends to the front of `ends`, and their total
    /// length in bytes to `needed`. If the buffer or `ends` is too small, both are unchanged.
    pub fn deliver(&self, buffer: &mut [u8], ends: &mut [usize], needed: &mut usize) -> u32
        ensures needed { needed.new ≡ length self.now.bytes.items }
        ensures done { result ≡ DONE
            → (buffer.new ≡ self.now.bytes.items ++ drop (length self.now.bytes.items) buffer.old)
            × (ends.new ≡ self.now.ends.items ++ drop (length self.now.ends.items) ends.old) }
        ensures too_small { result ≡ ROOM_TOO_SMALL
            → (length buffer.old < length self.now.bytes.items)
            ⊎ (length ends.old < length self.now.ends.items) }
        ensures kept { result ≢ DONE → (buffer.new ≡ buffer.old) × (ends.new ≡ ends.old) }
        ensures others { result ≢ DONE → result ≡ ROOM_TOO_SMALL }
    {
        if ends.len() < self.ends.len() {
            *needed = self.bytes.len();
            return ROOM_TOO_SMALL;
        }
        let result = buffer::deliver(&self.bytes, buffer, needed);
        if result == DONE {
            ends[..self.ends.len()].copy_from_slice(&self.ends);
        }
        result
    }
}

/// The first refusal of a source that is expanded with several rows.
#[derive(Drop)]
pub struct Refusal {
    /// The index of the refused row, or 0 if the source is no sentence.
    pub row: usize,
    /// The error.
    pub error: Error,
}

/// A parsed source.
#[derive(Drop)]
pub enum Parsed<'s> {
    /// A source whose values are found once a row.
    Numbered(NumberedTemplate<'s>),
    /// A source with few rows, or one that is too long for an indexed template.
    ByName(ByteTemplate<'s>),
}

impl<'s> Parsed<'s> {
    /// Parses a source that is expanded with this number of rows.
    ///
    /// # Errors
    ///
    /// The source's first fault if it isn't a sentence of the template language, or out of memory.
    fn from_slice(alloc: Global, source: &'s [u8], rows: usize) -> Result<Self, ParseError>
        ensures ok { IfOk result (λ parsed.
            IsSentence source.now × (source_of parsed ≡ source.now)) }
        ensures fault { OnFault parse_fault result (HasFault 0 source.now) }
    {
        if rows < FEW_ROWS {
            return Ok(Parsed::ByName(ByteTemplate::from_slice(alloc, source)?));
        }
        match IndexedTemplate::from_slice(alloc, source) {
            Ok(template) => Ok(Parsed::Numbered(NumberedTemplate::new(alloc, template)?)),
            Err(IndexError::TooLong) => Ok(Parsed::ByName(ByteTemplate::from_slice(
                alloc, source,
            )?)),
            Err(IndexError::Parse(e)) => Err(e),
        }
    }

    /// Appends the output of the source with a row of pairs.
    ///
    /// # Errors
    ///
    /// If the source is refused with the row, or if allocation fails.
    fn append<'r>(
        &self,
        alloc: Global,
        pairs: &[Pair<'r>],
        values: &mut RowValues<'r>,
        output: &mut Vec<u8>,
    ) -> Result<(), ExpandError>
        ensures ok { OnOk result ((x : List ℕ)
            × Answers (source_of self.now) (pair_value pairs.now) (Gives x)
            × (output.new.items ≡ output.old.items ++ x)) }
        ensures err { IfErr result (λ e. IfSome (expand_fault e)
            (λ f. Answers (source_of self.now) (pair_value pairs.now) (Refuses f))) }
    {
        match self {
            Parsed::Numbered(template) => template.append(alloc, pairs, values, output),
            Parsed::ByName(template) => append_by_name(alloc, template, pairs, output),
        }
    }
}

/// Appends the output of a template with a row of pairs. Each placeholder's value is looked up by name.
///
/// # Errors
///
/// If the template is refused with the row, or if allocation fails.
fn append_by_name(
    alloc: Global,
    template: &ByteTemplate,
    pairs: &[Pair],
    output: &mut Vec<u8>,
) -> Result<(), ExpandError>
    ensures ok { OnOk result ((x : List ℕ)
        × Answers template.now (pair_value pairs.now) (Gives x)
        × (output.new.items ≡ output.old.items ++ x)) }
    ensures err { IfErr result (λ e. IfSome (expand_fault e)
        (λ f. Answers template.now (pair_value pairs.now) (Refuses f))) }
{
    let index = index_of(alloc, template.source(), pairs);
    let bytes = template.expand(alloc, &Pairs { pairs, index })?;
    output.extend_from_slice(&bytes)?;
    Ok(())
}

/// Expands the source with each row of pairs.
///
/// # Errors
///
/// If the source is refused with a row, or if allocation fails. The error is that of the first such row.
pub fn fill_in_each(alloc: Global, source: &[u8], rows: &[Row]) -> Result<Outputs, Refusal>
    ensures ok { IfOk result (λ o. AreOutputs source.now rows.now o.bytes.items o.ends.items) }
    ensures err { IfErr result (λ e. IfSome (error_fault e.error)
        (IsRefusedIn source.now rows.now e.row)) }
{
    let parsed = match Parsed::from_slice(alloc, source, rows.len()) {
        Ok(parsed) => parsed,
        Err(e) => {
            return Err(Refusal {
                row: 0,
                error: Error::from(e),
            });
        }
    };
    let mut outputs = Outputs {
        bytes: Vec::new(alloc),
        ends: Vec::new(alloc),
    };
    let mut values = RowValues::new(alloc);
    for row in rows {
        match add(alloc, &parsed, row, &mut values, &mut outputs) {
            Ok(()) => {}
            Err(e) => {
                return Err(Refusal {
                    row: outputs.ends.len(),
                    error: Error::from(e),
                });
            }
        }
    }
    Ok(outputs)
}

/// Appends the output of the source with `row`, and the output's end. If the call fails, no end is appended.
fn add<'r>(
    alloc: Global,
    parsed: &Parsed,
    row: &Row<'r>,
    values: &mut RowValues<'r>,
    outputs: &mut Outputs,
) -> Result<(), ExpandError>
    ensures ok { OnOk result ((output : List ℕ)
        × Answers (source_of parsed.now) (pair_value row.now.pairs.now) (Gives output)
        × (outputs.new.bytes.items ≡ outputs.old.bytes.items ++ output)
        × (outputs.new.ends.items
        ≡ outputs.old.ends.items ++ (length outputs.new.bytes.items ∷ []))) }
    ensures err { IfErr result (λ e. IfSome (expand_fault e)
        (λ f. Answers (source_of parsed.now) (pair_value row.now.pairs.now) (Refuses f))) }
    ensures ends { IfErr result (λ e. outputs.new.ends.items ≡ outputs.old.ends.items) }
{
    parsed.append(alloc, row.pairs, values, &mut outputs.bytes)?;
    outputs.ends.push(outputs.bytes.len())?;
    Ok(())
}

//! A template whose names are bound to the columns of rows, and its outputs for the rows.

ghost use Rattle.std.specs.Prelude.{◌≡◌, ◌++◌, Bool, IfErr, IfOk, IsTrue, List, OnErr, OnOk, [], ◌<◌, false, nat_lt, true, ℕ, if◌then◌else◌};
ghost use Rattle.std.specs.Io.KnownBytes.{Appends};
ghost use Rattle.subst_filter_lib.specs.Device.{AppendsPrefix};
ghost use Rattle.subst_language.specs.Language.LookUp.{LookUp};
ghost use Rattle.subst_rows.specs.Letter.{AreValues, FillsAll, FillsSome, IsNextOutput, LeavesFewer, separated};
ghost use Rattle.subst_rows.specs.Row.{look_in_row};
ghost use Rattle.subst_rows.specs.Rows.{KeepsNames};

use crate::error::RowsError;
use crate::row::{Sources, append_output};
use crate::rows::{RowBuffer, Rows};
use std::alloc::{AllocError, Global};
use subst_error::{ExpandIntoError, NoSuchVariableRef};
use subst_filter_lib::device::{ByteOutput, Failed};
use subst_filter_lib::engine::write_all;
use subst_indexed::IndexedTemplate;

/// The number of bytes of outputs that are written at once.
const CHUNK: usize = 65536;

/// A template, and the sources of the values of its names.
#[derive(Clone, Copy)]
pub struct Bound<'l, 'c> {
    /// The template.
    pub template: &'l IndexedTemplate<'l>,
    /// The sources of the values.
    pub sources: Sources<'c>,
}

/// The outcome of reading the next row.
#[derive(Clone, Copy)]
pub enum Outcome<'l> {
    /// There is no next row.
    Ended,
    /// The row's output is appended.
    Given,
    /// The row is refused.
    Refused(Refusal<'l>),
}

/// The reason why a row is refused.
#[derive(Clone, Copy)]
pub enum Refusal<'l> {
    /// The row can't be read.
    Row(RowsError),
    /// The row that begins on this line has no value for a variable.
    Missing(usize, NoSuchVariableRef<'l>),
}

/// The rows that are refused.
#[derive(Drop)]
pub struct RefusedRows<'l> {
    /// The first ones, at most [`KEPT_REFUSALS`].
    pub first: Vec<Refusal<'l>>,
    /// The number of all.
    pub count: usize,
}

/// The most refusals that are kept.
pub const KEPT_REFUSALS: usize = 20;

impl<'l> RefusedRows<'l> {
    /// Counts a refusal, and keeps it if it is one of the first.
    fn add(&mut self, refusal: Refusal<'l>) -> Result<(), AllocError>
        ensures { OnOk result (0 < self.new.count) }
    {
        self.count = self.count.saturating_add(1);
        if self.first.len() < KEPT_REFUSALS {
            self.first.push(refusal)?;
        }
        Ok(())
    }
}

/// The way in which outputs are written.
#[derive(Clone, Copy)]
pub struct Layout<'l> {
    /// The bytes between the outputs of two rows.
    pub separator: &'l [u8],
    /// Whether refused rows are left out.
    pub leaves_out: bool,
}

/// The reason why the outputs aren't all written.
#[derive(Clone, Copy, PartialEq, Eq)]
pub enum WriteError {
    /// The device failed.
    Failed,
    /// A row is refused.
    Refused,
    /// Memory ran out.
    OutOfMemory,
}

impl From<AllocError> for WriteError {
    ghost use Rattle.subst_rows.specs.declared.bound.WriteError.TheVariants.{OutOfMemory};

    ghost from_gives = { λ _ e. e ≡ OutOfMemory };

    fn from(_e: AllocError) -> WriteError {
        WriteError::OutOfMemory
    }
}

impl From<Failed> for WriteError {
    ghost use Rattle.subst_rows.specs.declared.bound.WriteError.TheVariants.{Failed};

    ghost from_gives = { λ _ e. e ≡ Failed };

    fn from(_e: Failed) -> WriteError {
        WriteError::Failed
    }
}

impl<'l> Bound<'l, '_> {
    /// Reads the next row, and appends the template's output for it.
    ///
    /// # Errors
    ///
    /// If allocation fails.
    pub fn next_output(
        &self,
        alloc: Global,
        rows: &mut Rows<'_>,
        buffer: &mut RowBuffer,
        output: &mut Vec<u8>,
    ) -> Result<Outcome<'l>, AllocError>
        ensures outcome { (fixed fallback : LookUp)
            → AreValues self.now.template.now self.now.sources rows.old.head fixed fallback
            → IfOk result (IsNextOutput self.now.template.now
            (λ row. look_in_row self.now.sources.no_empty row fixed fallback) rows.old rows.new
            output.old.items output.new.items) }
        // Each row that is read leaves one less.
        ensures fewer { IfOk result (LeavesFewer rows.old rows.new) }
        ensures kept { KeepsNames rows.old rows.new }
    {
        let outcome = match rows.next_row(alloc, buffer) {
            Ok(Some(row)) => append_output(alloc, self.template, &self.sources, &row, output),
            Ok(None) => return Ok(Outcome::Ended),
            Err(RowsError::OutOfMemory) => return Err(AllocError),
            Err(e) => return Ok(Outcome::Refused(Refusal::Row(e))),
        };
        match outcome {
            Ok(()) => Ok(Outcome::Given),
            Err(ExpandIntoError::OutOfMemory(e)) => Err(e),
            Err(ExpandIntoError::NoSuchVariable(missing)) => {
                Ok(Outcome::Refused(Refusal::Missing(rows.line(), missing)))
            }
        }
    }

    /// Expands the template for each row that is left, and returns the rows that are refused.
    ///
    /// # Errors
    ///
    /// If allocation fails.
    pub fn refused_rows(
        &self,
        alloc: Global,
        rows: &mut Rows<'_>,
    ) -> Result<RefusedRows<'l>, AllocError>
        ensures ok { (fixed fallback : LookUp)
            → AreValues self.now.template.now self.now.sources rows.old.head fixed fallback
            → IfOk result (λ refused. (outputs : List (List ℕ))
            × FillsAll self.now.template.now
            (λ row. look_in_row self.now.sources.no_empty row fixed fallback)
            rows.old outputs (nat_lt 0 refused.count)) }
    {
        let mut refused = RefusedRows {
            first: Vec::new(alloc),
            count: 0,
        };
        let mut buffer = RowBuffer::new(alloc);
        let mut output = Vec::new(alloc);
        loop {
            output.clear();
            match self.next_output(alloc, rows, &mut buffer, &mut output)? {
                Outcome::Ended => return Ok(refused),
                Outcome::Given => {}
                Outcome::Refused(refusal) => refused.add(refusal)?,
            }
        }
    }

    /// Writes the template's output for each row that is left to a device, in chunks.
    ///
    /// # Errors
    ///
    /// `Failed` if the device fails. `Refused` at the first row that is refused, unless the layout leaves it
    /// out. `OutOfMemory` if allocation fails. The outputs of some of the rows before may be written then.
    pub fn write<O: ByteOutput>(
        &self,
        alloc: Global,
        rows: &mut Rows<'_>,
        layout: Layout<'_>,
        device: &mut O,
    ) -> Result<(), WriteError>
        ensures all { (fixed fallback : LookUp)
            → AreValues self.now.template.now self.now.sources rows.old.head fixed fallback
            → OnOk result ((outputs : List (List ℕ)) × (refused : Bool)
            × FillsAll self.now.template.now
            (λ row. look_in_row self.now.sources.no_empty row fixed fallback)
            rows.old outputs refused × (IsTrue refused → IsTrue layout.entry.leaves_out)
            × Appends (O.written device.old) (O.written device.new)
            (separated layout.entry.separator.now outputs)) }
        ensures some { (fixed fallback : LookUp)
            → AreValues self.now.template.now self.now.sources rows.old.head fixed fallback
            → (outputs : List (List ℕ))
            × FillsSome self.now.template.now
            (λ row. look_in_row self.now.sources.no_empty row fixed fallback)
            rows.old outputs × AppendsPrefix (O.written device.old) (O.written device.new)
            (separated layout.entry.separator.now outputs) }
    {
        let mut buffer = RowBuffer::new(alloc);
        let mut output = Vec::new(alloc);
        let mut pending = Vec::new(alloc);
        let mut is_first = true;
        loop {
            output.clear();
            match self.next_output(alloc, rows, &mut buffer, &mut output)? {
                Outcome::Ended => return finish(&pending, device),
                Outcome::Given => {
                    add(&mut pending, layout.separator, is_first, &output)?;
                    is_first = false;
                    write_if_full(&mut pending, device)?;
                }
                Outcome::Refused(_) if layout.leaves_out => {}
                Outcome::Refused(_) => return Err(WriteError::Refused),
            }
        }
    }
}

/// Writes the last bytes to a device, and flushes it.
///
/// # Errors
///
/// `Failed` if the device fails.
fn finish<O: ByteOutput>(pending: &[u8], device: &mut O) -> Result<(), WriteError>
    ensures ok { OnOk result (Appends (O.written device.old) (O.written device.new) pending.now) }
    ensures prefix { AppendsPrefix (O.written device.old) (O.written device.new) pending.now }
{
    write_all(device, pending)?;
    device.flush()?;
    Ok(())
}

/// Writes the pending bytes to a device if they are enough for a chunk.
///
/// # Errors
///
/// If the device fails.
fn write_if_full<O: ByteOutput>(pending: &mut Vec<u8>, device: &mut O) -> Result<(), Failed>
    ensures ok { OnOk result ((bytes : List ℕ)
        × Appends (O.written device.old) (O.written device.new) bytes
        × (pending.old.items ≡ bytes ++ pending.new.items)) }
    ensures err { OnErr result
        (AppendsPrefix (O.written device.old) (O.written device.new) pending.old.items) }
{
    if pending.len() >= CHUNK {
        write_all(device, pending)?;
        pending.clear();
    }
    Ok(())
}

/// Appends an output to the outputs before it, after the separator unless it is the first.
fn add(
    pending: &mut Vec<u8>,
    separator: &[u8],
    is_first: bool,
    output: &[u8],
) -> Result<(), AllocError>
    ensures { OnOk result (pending.new.items
        ≡ pending.old.items ++ (if is_first then [] else separator.now) ++ output.now) }
{
    if !is_first {
        pending.extend_from_slice(separator)?;
    }
    Ok(pending.extend_from_slice(output)?)
}

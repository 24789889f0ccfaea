//! Letters: a template that is expanded for each row of a text.

ghost use Rattle.std.specs.Prelude.{◌≡◌, ◌≢◌, Bool, IfErr, IfOk, IsTrue, List, OnErr, OnOk, nat_lt, true, ℕ};
ghost use Rattle.std.specs.Io.KnownBytes.{Appends};
ghost use Rattle.subst_filter_lib.specs.Device.{AppendsPrefix};
ghost use Rattle.subst_language.specs.Language.LookUp.{LookUp};
ghost use Rattle.subst_rows.specs.Letter.{AreLetterValues, FillsSomeRows, FillsText, IsOpenedFor, separated};
ghost use Rattle.subst_rows.specs.Row.{look_in_row};
ghost use Rattle.subst_rows.specs.Rows.{IsRefusedText};
ghost use Rattle.subst_rows.specs.declared.error.RowsError.TheVariants as errors;

use crate::bound::Bound;
pub use crate::bound::{KEPT_REFUSALS, Layout, Refusal, RefusedRows, WriteError};
use crate::error::RowsError;
use crate::row::Sources;
use crate::rows::{Rows, RowsFormat};
use std::alloc::Global;
use subst_filter_lib::device::{ByteOutput, Failed};
use subst_indexed::IndexedTemplate;

/// A template, a text of rows, and the values that don't come from the rows.
#[derive(Clone, Copy)]
pub struct Letter<'l> {
    /// The template.
    pub template: &'l IndexedTemplate<'l>,
    /// The names of the template, in the order of their numbers.
    pub names: &'l [&'l [u8]],
    /// The values that come before those of a row, by number.
    pub fixed: &'l [Option<&'l [u8]>],
    /// The values that come after those of a row, by number.
    pub fallback: &'l [Option<&'l [u8]>],
    /// Whether empty values of a row count as missing.
    pub no_empty: bool,
    /// The text of the rows.
    pub text: &'l [u8],
    /// The format of the text.
    pub format: RowsFormat,
    /// Whether the value of an array or an object is its JSON text. Otherwise the row is refused.
    pub nested: bool,
}

impl<'l> Letter<'l> {
    /// Opens the rows of the text.
    ///
    /// # Errors
    ///
    /// Those of [`Rows::open`].
    pub fn open(&self, alloc: Global) -> Result<Rows<'l>, RowsError>
        ensures ok { IfOk result (IsOpenedFor self.now) }
        ensures err { IfErr result (IsRefusedText self.now.format self.now.text.now) }
    {
        Rows::open(alloc, self.text, self.format, self.names, self.nested)
    }

    /// Expands the template for each row, and returns the rows that are refused.
    ///
    /// # Errors
    ///
    /// Those of [`Rows::open`], and out of memory.
    pub fn refused_rows(&self, alloc: Global) -> Result<RefusedRows<'l>, RowsError>
        ensures ok { (fixed fallback : LookUp) → AreLetterValues self.now fixed fallback
            → IfOk result (λ refused. (outputs : List (List ℕ))
            × FillsText self.now (λ row. look_in_row self.now.no_empty row fixed fallback)
            outputs (nat_lt 0 refused.count)) }
        ensures err { IfErr result (λ e. e ≢ errors.OutOfMemory
            → IsRefusedText self.now.format self.now.text.now e) }
    {
        let mut rows = self.open(alloc)?;
        let Ok(columns) = rows.columns(alloc) else {
            return Err(RowsError::OutOfMemory);
        };
        match self.bound(&columns).refused_rows(alloc, &mut rows) {
            Ok(refused) => Ok(refused),
            Err(_) => Err(RowsError::OutOfMemory),
        }
    }

    /// Writes the template's output for each row to a device, in chunks.
    ///
    /// # Errors
    ///
    /// `Failed` if the device fails. `Refused` if the text of the rows is refused, or at the first row that
    /// is refused, unless the layout leaves it out. `OutOfMemory` if allocation fails. The outputs of some of
    /// the rows before may be written then.
    pub fn write<O: ByteOutput>(
        &self,
        alloc: Global,
        layout: Layout<'_>,
        device: &mut O,
    ) -> Result<(), WriteError>
        ensures all { (fixed fallback : LookUp) → AreLetterValues self.now fixed fallback
            → OnOk result ((outputs : List (List ℕ)) × (refused : Bool)
            × FillsText self.now (λ row. look_in_row self.now.no_empty row fixed fallback)
            outputs refused × (IsTrue refused → IsTrue layout.entry.leaves_out)
            × Appends (O.written device.old) (O.written device.new)
            (separated layout.entry.separator.now outputs)) }
        ensures some { (fixed fallback : LookUp) → AreLetterValues self.now fixed fallback
            → (outputs : List (List ℕ))
            × FillsSomeRows self.now (λ row. look_in_row self.now.no_empty row fixed fallback)
            outputs × AppendsPrefix (O.written device.old) (O.written device.new)
            (separated layout.entry.separator.now outputs) }
    {
        let mut rows = match self.open(alloc) {
            Ok(rows) => rows,
            Err(RowsError::OutOfMemory) => return Err(WriteError::OutOfMemory),
            Err(_) => return Err(WriteError::Refused),
        };
        let columns = rows.columns(alloc)?;
        self.bound(&columns).write(alloc, &mut rows, layout, device)
    }

    /// Returns the template's outputs for all rows.
    ///
    /// # Errors
    ///
    /// Those of [`Letter::write`]; `Failed` if allocation fails while bytes are appended.
    pub fn collect(&self, alloc: Global, layout: Layout<'_>) -> Result<Vec<u8>, WriteError>
        ensures all { (fixed fallback : LookUp) → AreLetterValues self.now fixed fallback
            → IfOk result (λ all. (outputs : List (List ℕ)) × (refused : Bool)
            × FillsText self.now (λ row. look_in_row self.now.no_empty row fixed fallback)
            outputs refused × (IsTrue refused → IsTrue layout.entry.leaves_out)
            × (all.items ≡ separated layout.entry.separator.now outputs)) }
    {
        let mut memory = Memory {
            bytes: Vec::new(alloc),
            has_failed: false,
            is_flushed: false,
        };
        self.write(alloc, layout, &mut memory)?;
        Ok(memory.bytes)
    }

    /// Returns the template with these columns.
    fn bound<'c>(&self, columns: &'c [Option<usize>]) -> Bound<'l, 'c>
    where
        'l: 'c,
        ensures template { result.template.now ≡ self.now.template.now }
        ensures sources { result.sources ≡ record {
          fixed = self.now.fixed;
          columns = columns.entry;
          fallback = self.now.fallback;
          no_empty = self.now.no_empty;
        } }
    {
        Bound {
            template: self.template,
            sources: Sources {
                fixed: self.fixed,
                columns,
                fallback: self.fallback,
                no_empty: self.no_empty,
            },
        }
    }
}

/// A device that keeps the bytes that are written to it.
#[derive(Drop)]
struct Memory {
    bytes: Vec<u8>,
    has_failed: bool,
    is_flushed: bool,
}

impl ByteOutput for Memory {
    ghost use Rattle.std.specs.Prelude.{Some};

    ghost written = { λ memory. Some memory.bytes.items };

    ghost has_failed = { λ memory. memory.has_failed };

    ghost is_flushed = { λ memory. memory.is_flushed };

    fn write(&mut self, bytes: &[u8]) -> Result<usize, Failed> {
        self.is_flushed = false;
        if self.bytes.extend_from_slice(bytes).is_err() {
            self.has_failed = true;
            return Err(Failed);
        }
        Ok(bytes.len())
    }

    fn flush(&mut self) -> Result<(), Failed> {
        self.is_flushed = true;
        Ok(())
    }

    fn failed(&self) -> bool {
        self.has_failed
    }
}

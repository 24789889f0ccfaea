//! The rows of a text in one of the formats, one after the other.

ghost use Rattle.std.specs.Prelude.{◌≡◌, Bool, Err, IfErr, IfOk, List, true, ℕ};
ghost use Rattle.subst_language.specs.Language.LookUp.{LookUp};
ghost use Rattle.subst_rows.specs.Columns.{bytes_of, columns_in};
ghost use Rattle.subst_rows.specs.Rows.{IsNextRow, IsOpened, IsRefusedTable, IsRefusedText, IsTableOf, KeepsNames, is_memory};
ghost use Rattle.subst_rows.specs.RowsView.{head_of, source_view};
ghost use Rattle.subst_rows.specs.declared.rows.Source.TheVariants as sources;
ghost use Rattle.subst_rows.specs.declared.error.RowsError.TheVariants as errors;

use crate::columns::columns_of;
use crate::error::RowsError;
use crate::json_lines::JsonLines;
use crate::json_row::{JsonRow, json_row};
use crate::row::Row;
use crate::table::{Table, cells_of, check};
use csv::ByteRecord;
use json::Scratch;
use std::alloc::{AllocError, Global};
use std::marker::Model;

/// The format of a text of rows.
#[derive(Clone, Copy, PartialEq, Eq)]
pub enum RowsFormat {
    /// A table with commas between cells.
    Csv,
    /// A table with tabs between cells.
    Tsv,
    /// A JSON object on each line.
    JsonLines,
}

/// The rows of a borrowed text, read one after the other. Contracts see the names of the columns, and the
/// records or lines that are left.
#[derive(Drop)]
pub struct Rows<'t> {
    source: Source<'t>,
    names: &'t [&'t [u8]],
    nested: bool,
    failed: bool,
}

/// The source of rows.
#[derive(Drop)]
enum Source<'t> {
    /// A table.
    Table(Table<'t>),
    /// The lines of JSON Lines.
    Json(JsonLines<'t>),
}

impl<'t> Model for Rows<'t> {
    ghost use Rattle.subst_rows.specs.Columns.{bytes_of};
    ghost use Rattle.subst_rows.specs.RowsView.{RowsView, source_view};

    ghost Value = { RowsView };

    ghost view = { λ r. source_view r.source r.nested (bytes_of r.names.now) r.failed };
}

/// The memory of a row, which the next row reuses.
#[derive(Drop)]
pub struct RowBuffer {
    row: ByteRecord,
    scratch: Scratch,
}

impl RowBuffer {
    /// Creates a buffer without a row.
    pub fn new(alloc: Global) -> Self {
        RowBuffer {
            row: ByteRecord::new(alloc),
            scratch: Scratch::new(alloc),
        }
    }
}

/// A row that was read.
#[derive(Drop)]
pub enum CurrentRow<'r> {
    /// A record of a table.
    Table(&'r ByteRecord),
    /// The row of a JSON line.
    Json(JsonRow<'r>),
}

impl<'r> Row for CurrentRow<'r> {
    ghost use Rattle.subst_rows.specs.Rows.{row_cells};

    ghost cells = { row_cells };

    fn cell(&self, column: usize) -> Option<&[u8]> {
        match self {
            CurrentRow::Table(row) => row.get(column),
            CurrentRow::Json(row) => row.cell(column),
        }
    }
}

impl<'t> Rows<'t> {
    /// Opens the rows of a text, for a template with these names. The text of a table is checked as a whole,
    /// and its head is read. `nested` is that of [`json_row`].
    ///
    /// # Errors
    ///
    /// For a table, those of [`check`], `NoHead` and out of memory. JSON Lines can always be opened.
    pub fn open(
        alloc: Global,
        text: &'t [u8],
        format: RowsFormat,
        names: &'t [&'t [u8]],
        nested: bool,
    ) -> Result<Self, RowsError>
        ensures ok { IfOk result (IsOpened format nested (bytes_of names.now) text.now) }
        ensures err { IfErr result (IsRefusedText format text.now) }
    {
        let source = match format {
            RowsFormat::Csv => open_table(alloc, text, b',')?,
            RowsFormat::Tsv => open_table(alloc, text, b'\t')?,
            RowsFormat::JsonLines => Source::Json(JsonLines::new(text)),
        };
        Ok(Rows {
            source,
            names,
            nested,
            failed: false,
        })
    }

    /// Returns the names of the columns: the head of a table, or the template's names for JSON Lines.
    ///
    /// # Errors
    ///
    /// If allocation fails.
    pub fn head(&self, alloc: Global) -> Result<Vec<&[u8]>, AllocError>
        ensures { IfOk result (λ head. bytes_of head.items ≡ self.now.head) }
    {
        match &self.source {
            Source::Table(table) => cells_of(alloc, table.head()),
            Source::Json(_) => self.names.to_vec(alloc),
        }
    }

    /// Returns the index of the column of each name of the template, or `None` for a name without a column.
    ///
    /// # Errors
    ///
    /// If allocation fails.
    pub fn columns(&self, alloc: Global) -> Result<Vec<Option<usize>>, AllocError>
        ensures { IfOk result (λ columns. columns.items ≡ columns_in self.now.head self.now.names) }
    {
        let head = self.head(alloc)?;
        columns_of(alloc, self.names, &head)
    }

    /// Reads the next row into a buffer, and returns it, or `None` if there is none.
    ///
    /// # Errors
    ///
    /// `Length` for a table, and the errors of [`json_row`] for JSON Lines. The next call then goes on with
    /// the row after it. `OutOfMemory` if allocation fails. Each later call then fails too.
    pub fn next_row<'r>(
        &mut self,
        alloc: Global,
        buffer: &'r mut RowBuffer,
    ) -> Result<Option<CurrentRow<'r>>, RowsError>
    where
        't: 'r,
        ensures row { IsNextRow self.old self.new result }
        ensures kept { KeepsNames self.old self.new }
        ensures failed { self.new.failed ≡ is_memory result }
        ensures fails { self.old.failed ≡ true → result ≡ Err errors.OutOfMemory }
    {
        if self.failed {
            return Err(RowsError::OutOfMemory);
        }
        let next = next_of(alloc, &mut self.source, self.names, self.nested, buffer);
        self.failed = matches!(next, Err(RowsError::OutOfMemory));
        next
    }

    /// Returns the line on which the row that was read last begins, from 1.
    pub fn line(&mut self) -> usize
        ensures { self.new ≡ self.old }
    {
        match &mut self.source {
            Source::Table(table) => table.line(),
            Source::Json(lines) => lines.line(),
        }
    }
}

/// Opens a table, after a check of its text. `delimiter` is the byte between cells.
///
/// # Errors
///
/// Those of [`check`], `NoHead`, and out of memory.
fn open_table<'t>(alloc: Global, text: &'t [u8], delimiter: u8) -> Result<Source<'t>, RowsError>
    ensures ok { IfOk result (IsTableOf delimiter text.now) }
    ensures err { IfErr result (IsRefusedTable delimiter text.now) }
{
    check(text, delimiter)?;
    Ok(Source::Table(Table::new(alloc, text, delimiter)?))
}

/// Reads the next row of a source into a buffer, and returns it, or `None` if there is none.
///
/// # Errors
///
/// `Length`, and those of [`json_row`].
fn next_of<'t: 'r, 'r>(
    alloc: Global,
    source: &mut Source<'t>,
    names: &[&[u8]],
    nested: bool,
    buffer: &'r mut RowBuffer,
) -> Result<Option<CurrentRow<'r>>, RowsError>
    ensures row { (before after : Bool) →
        IsNextRow (source_view source.old nested (bytes_of names.now) before)
        (source_view source.new nested (bytes_of names.now) after) result }
    ensures head { (names : List (List ℕ)) → head_of source.new names ≡ head_of source.old names }
{
    match source {
        Source::Table(table) => next_record(table, &mut buffer.row),
        Source::Json(lines) => next_object(alloc, lines, names, nested, &mut buffer.scratch),
    }
}

/// Reads the next row of a table into `row`, and returns it, or `None` if there is none.
///
/// # Errors
///
/// `Length`, and out of memory.
fn next_record<'r>(
    table: &mut Table<'_>,
    row: &'r mut ByteRecord,
) -> Result<Option<CurrentRow<'r>>, RowsError>
    ensures row { (nested : Bool) (names : List (List ℕ)) (before after : Bool) →
        IsNextRow (source_view (sources.Table table.old) nested names before)
        (source_view (sources.Table table.new) nested names after) result }
    ensures head { table.new.head ≡ table.old.head }
{
    if !table.next_row()? {
        return Ok(None);
    }
    table.swap_row(row);
    Ok(Some(CurrentRow::Table(row)))
}

/// Reads the next line as a row, and returns it, or `None` if there is none.
///
/// # Errors
///
/// Those of [`json_row`].
fn next_object<'t: 'r, 'r>(
    alloc: Global,
    lines: &mut JsonLines<'t>,
    names: &[&[u8]],
    nested: bool,
    scratch: &'r mut Scratch,
) -> Result<Option<CurrentRow<'r>>, RowsError>
    ensures { (before after : Bool) →
        IsNextRow (source_view (sources.Json lines.old) nested (bytes_of names.now) before)
        (source_view (sources.Json lines.new) nested (bytes_of names.now) after) result }
{
    let Some(line) = lines.next_line() else {
        return Ok(None);
    };
    let row = json_row(alloc, line.number, line.bytes, names, nested, scratch)?;
    Ok(Some(CurrentRow::Json(row)))
}

//! Tables: rows of cells in CSV, under a head with the names of the columns.

ghost use Rattle.std.specs.Prelude.{◌≡◌, ◌∷◌, [], Err, IfErr, IfOk, ◌≤◌, true, drop, length, false};
ghost use Rattle.csv.specs.Reading.{records, strip_bom};
ghost use Rattle.csv.specs.Records.{fields_of};
ghost use Rattle.subst_rows.specs.Columns.{bytes_of};
ghost use Rattle.subst_rows.specs.Quotes.{EndsInQuotes, table_config};
ghost use Rattle.subst_rows.specs.TableView.{IsReading, ReadsRow};
ghost use Rattle.subst_rows.specs.Table.{IsChecked, IsOfLength, IsRefusedHead, MovesOn};
ghost use Rattle.subst_rows.specs.declared.error.RowsError.TheVariants as errors;

use crate::error::RowsError;
use crate::lines::Lines;
use crate::mark::without_mark;
use crate::quotes::open_quote;
use csv::{ByteRecord, Reader, ReaderBuilder};
use std::alloc::{AllocError, Global};
use std::marker::Model;
use std::mem::swap;

/// Checks that the text of a table is UTF-8, and that it doesn't end inside quotes. `delimiter` is the byte
/// between cells.
///
/// # Errors
///
/// `NotUtf8`, and `OpenQuote`.
pub fn check(text: &[u8], delimiter: u8) -> Result<(), RowsError>
    ensures { IsChecked delimiter text.now result }
{
    if let Err(e) = simdutf8::compat::from_utf8(text) {
        let line = Lines::new(text).line_at(e.valid_up_to());
        return Err(RowsError::NotUtf8 { line });
    }
    let text = without_mark(text);
    if let Some(at) = open_quote(text, delimiter) {
        let line = Lines::new(text).line_at(at);
        return Err(RowsError::OpenQuote { line });
    }
    Ok(())
}

/// A table over a borrowed text. It has a current row, at first one without cells, and moves on to the next.
/// Contracts see the names in its head, the cells of the current row, and the rows after it.
#[derive(Drop)]
pub struct Table<'t> {
    reader: Reader<&'t [u8]>,
    lines: Lines<'t>,
    text: &'t [u8],
    head: ByteRecord,
    row: ByteRecord,
    start: usize,
    progress: Progress,
}

/// How far the rows of a table are read.
#[derive(Clone, Copy)]
enum Progress {
    /// There may be more rows.
    Reading,
    /// There are no more rows.
    Ended,
    /// Allocation failed while a row was read.
    Failed,
}

impl<'t> Model for Table<'t> {
    ghost use Rattle.csv.specs.Records.{fields_of};
    ghost use Rattle.subst_rows.specs.TableView.{IsReadingIf, TableView, is_failed, rest_of};

    ghost Value = { TableView };

    ghost view = { λ t. record {
      head = fields_of t.head;
      row = fields_of t.row;
      rest = rest_of t.progress t.reader;
      failed = is_failed t.progress;
    } };

    ghost invariant = { λ t. IsReadingIf t.progress t.reader };
}

impl<'t> Table<'t> {
    /// Opens the table of a text and reads its head. `delimiter` is the byte between cells.
    ///
    /// # Errors
    ///
    /// `NoHead` if the text has no row, and out of memory.
    pub fn new(alloc: Global, text: &'t [u8], delimiter: u8) -> Result<Self, RowsError>
        ensures ok { IfOk result (λ table. (table.failed ≡ false)
            × (records (table_config delimiter) (strip_bom text.now) ≡ table.head ∷ table.rest)) }
        ensures err { IfErr result (IsRefusedHead delimiter text.now) }
    {
        let mut reader = ReaderBuilder::new()
            .has_headers(false)
            .flexible(true)
            .delimiter(delimiter)
            .from_reader(alloc, text);
        let mut head = ByteRecord::new(alloc);
        if !read(&mut reader, &mut head)? {
            return Err(RowsError::NoHead);
        }
        Ok(Table {
            reader,
            lines: Lines::new(text),
            text,
            head,
            row: ByteRecord::new(alloc),
            start: 0,
            progress: Progress::Reading,
        })
    }

    /// Returns the names in the head.
    pub fn head(&self) -> &ByteRecord
        ensures { fields_of result.now ≡ self.now.head }
    {
        &self.head
    }

    /// Returns the current row.
    pub fn row(&self) -> &ByteRecord
        ensures { fields_of result.now ≡ self.now.row }
    {
        &self.row
    }

    /// Moves on to the next row, and returns whether there is one.
    ///
    /// # Errors
    ///
    /// `Length` if the row has more or fewer cells than the head has names. The row is still the current one,
    /// and the table can move on. `OutOfMemory` if allocation fails. Each later call then fails too.
    pub fn next_row(&mut self) -> Result<bool, RowsError>
        ensures moves { MovesOn self.old self.new result }
        ensures failed { self.old.failed ≡ true → result ≡ Err errors.OutOfMemory }
    {
        match self.progress {
            Progress::Reading => {}
            Progress::Ended => return Ok(false),
            Progress::Failed => return Err(RowsError::OutOfMemory),
        }
        match read(&mut self.reader, &mut self.row) {
            Ok(true) => self.row_of_length(),
            Ok(false) => {
                self.progress = Progress::Ended;
                Ok(false)
            }
            Err(e) => {
                self.progress = Progress::Failed;
                Err(e)
            }
        }
    }

    /// Returns `true` for a row that has as many cells as the head has names.
    ///
    /// # Errors
    ///
    /// `Length` for any other row.
    fn row_of_length(&mut self) -> Result<bool, RowsError>
        ensures length { IsOfLength self.old result }
        ensures same { self.new ≡ self.old }
    {
        self.start = row_start(self.text, &self.row);
        let (cells, names) = (self.row.len(), self.head.len());
        if cells != names {
            let line = self.line();
            return Err(RowsError::Length { line, cells, names });
        }
        Ok(true)
    }

    /// Swaps the current row with another record. The line stays that of the row that was read last.
    pub fn swap_row(&mut self, other: &mut ByteRecord)
        ensures table { self.new ≡ record self.old { row = fields_of other.old } }
        ensures other { fields_of other.new ≡ self.old.row }
    {
        swap(&mut self.row, other);
    }

    /// Returns the line on which the row that was read last begins, from 1.
    pub fn line(&mut self) -> usize
        ensures { self.new ≡ self.old }
    {
        self.lines.line_at(self.start)
    }
}

/// Reads the next row of a table, and returns whether there is one.
///
/// # Errors
///
/// If allocation fails.
fn read(reader: &mut Reader<&[u8]>, row: &mut ByteRecord) -> Result<bool, RowsError>
    requires { IsReading reader.old }
    ensures ok { IfOk result (λ found. ReadsRow reader.old reader.new found (fields_of row.new)) }
    ensures err { IfErr result (λ e. e ≡ errors.OutOfMemory) }
{
    match reader.read_byte_record(row) {
        Ok(found) => Ok(found),
        Err(_) => Err(RowsError::OutOfMemory),
    }
}

/// Returns the offset of the first byte of a row that was read: the first one after the line ends before it.
fn row_start(text: &[u8], row: &ByteRecord) -> usize
    ensures { result ≤ length text.now }
{
    let Some(position) = row.position() else {
        return 0;
    };
    let Ok(from) = usize::try_from(position.byte) else {
        return 0;
    };
    let from = from.min(text.len());
    let rest = &text[from..];
    let ends = rest
        .iter()
        .position(|byte| *byte != b'\n' && *byte != b'\r');
    from + ends.unwrap_or(0)
}

/// Returns the cells of a record.
///
/// # Errors
///
/// If allocation fails.
pub fn cells_of(alloc: Global, record: &ByteRecord) -> Result<Vec<&[u8]>, AllocError>
    ensures { IfOk result (λ cells. bytes_of cells.items ≡ fields_of «record».now) }
{
    let mut cells = Vec::with_capacity(alloc, record.len())?;
    for index in 0..record.len() {
        match record.get(index) {
            Some(cell) => cells.push(cell)?,
            None => return Ok(cells),
        }
    }
    Ok(cells)
}

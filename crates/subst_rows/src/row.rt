//! The values of a template's names in a row, and the template's output for the row.

ghost use Rattle.std.specs.Prelude.{◌≡◌, ◌<◌, IfOk, List, OnErr, Option, Some, length, ℕ};
ghost use Rattle.std.specs.Option.{option_map, option_and_then};
ghost use Rattle.subst_error.specs.ErrorFault.{expand_into_fault};
ghost use Rattle.subst_language.specs.Calls.Outcome.{ExpandsInto};
ghost use Rattle.subst_language.specs.Language.LookUp.{LookUp};
ghost use Rattle.subst_language.specs.Language.Sentence.{ByTree};
ghost use Rattle.subst_language.specs.Language.Value.{value};
ghost use Rattle.subst_indexed.specs.Slot.{values_of};
ghost use Rattle.subst_indexed.specs.Stops.{IsNamedStop, stop_fault};
ghost use Rattle.subst_rows.specs.Columns.{columns_in, names_at};
ghost use Rattle.subst_rows.specs.Row.{IsLookOf, given_cell, kept_cell, row_look, value_in};

use csv::ByteRecord;
use std::alloc::{AllocError, Global};
use subst_error::ExpandIntoError;
use subst_expand::expand as parts;
use subst_indexed::IndexedTemplate;
use subst_indexed::expand::expand;
use subst_indexed::walk::Stop;

/// A row of cells.
///
/// Contracts see it as `cells`: the bytes of the cell of each column, or `None` if the row has none.
pub trait Row {
    ghost cells: { Self → ℕ → Option (List ℕ) };

    /// Returns the cell of the column with an index, or `None` if the row has none.
    fn cell(&self, column: usize) -> Option<&[u8]>
        ensures { option_map (λ cell. cell.now) result ≡ cells self.now column };
}

/// A record of a table.
impl Row for ByteRecord {
    ghost use Rattle.csv.specs.Records.{field_at, fields_of};

    ghost cells = { λ row column. field_at (fields_of row) column };

    fn cell(&self, column: usize) -> Option<&[u8]> {
        self.get(column)
    }
}

/// The sources of the values of a template's names. Each slice has the source of a name at the name's number.
/// Past the end of a slice, there are none.
#[derive(Clone, Copy)]
pub struct Sources<'v> {
    /// The values that come before those of the row.
    pub fixed: &'v [Option<&'v [u8]>],
    /// The indices of the row's columns.
    pub columns: &'v [Option<usize>],
    /// The values that come after those of the row.
    pub fallback: &'v [Option<&'v [u8]>],
    /// Whether empty cells count as missing.
    pub no_empty: bool,
}

/// Appends the output of a template for a row. The value of a name is the one in `sources.fixed`, else the
/// row's cell in the name's column, else the one in `sources.fallback`.
///
/// # Errors
///
/// `NoSuchVariable` for the first needed name without a value, and out of memory. The items of `output` are
/// then unchanged.
pub fn append_output<'t, R: Row>(
    alloc: Global,
    template: &'t IndexedTemplate<'_>,
    sources: &Sources<'_>,
    row: &R,
    output: &mut Vec<u8>,
) -> Result<(), ExpandIntoError<'t>>
    // The look-ups are by name. They agree with the slices of values, which are by number.
    ensures value { (head : List (List ℕ)) (fixed fallback : LookUp) → ByTree template.now (λ t.
        sources.now.columns.now ≡ columns_in head (names_at t)
        → IsLookOf (names_at t) (values_of sources.now.fixed.now) fixed
        → IsLookOf (names_at t) (values_of sources.now.fallback.now) fallback
        → ExpandsInto output.old.items result output.new.items (value 0 t
        (row_look head (given_cell sources.now.no_empty (R.cells row.now)) fixed fallback))) }
    ensures kept { OnErr result (output.new.items ≡ output.old.items) }
{
    let values = values_of(alloc, template.name_count(), sources, row)?;
    let source = template.source();
    match expand(template.cells(), source, &values, output) {
        Ok(()) => Ok(()),
        Err(stop) => Err(error_of(source, stop)),
    }
}

/// Returns the values of a template's names in a row, by number. `count` is the number of names.
///
/// # Errors
///
/// If allocation fails.
pub fn values_of<'r, R: Row>(
    alloc: Global,
    count: usize,
    sources: &Sources<'r>,
    row: &'r R,
) -> Result<Vec<Option<&'r [u8]>>, AllocError>
    ensures { IfOk result (λ values. (number : ℕ) → number < count
        → values_of values.items number ≡ value_in sources.now (R.cells row.now) number) }
{
    let mut values = Vec::with_capacity(alloc, count)?;
    for number in 0..count {
        values.push(value_at(sources, row, number))?;
    }
    Ok(values)
}

/// Returns the value of the name with a number in a row.
fn value_at<'r, R: Row>(sources: &Sources<'r>, row: &'r R, number: usize) -> Option<&'r [u8]>
    ensures { option_map (λ bytes. bytes.now) result
        ≡ value_in sources.now (R.cells row.now) number }
{
    let fixed = given_at(sources.fixed, number);
    if fixed.is_some() {
        return fixed;
    }
    let cell = cell_at(sources, row, number);
    if cell.is_some() {
        return cell;
    }
    given_at(sources.fallback, number)
}

/// Returns the value with a number.
fn given_at<'v>(values: &[Option<&'v [u8]>], number: usize) -> Option<&'v [u8]>
    ensures { option_map (λ bytes. bytes.now) result ≡ values_of values.now number }
{
    match values.get(number) {
        Some(value) => *value,
        None => None,
    }
}

/// Returns the cell in the column of the name with a number, or `None` if it counts as missing.
fn cell_at<'r, R: Row>(sources: &Sources<'_>, row: &'r R, number: usize) -> Option<&'r [u8]>
    ensures { option_map (λ bytes. bytes.now) result
        ≡ kept_cell sources.now (R.cells row.now) number }
{
    let column = sources.columns.get(number)?;
    let cell = row.cell((*column)?)?;
    if sources.no_empty && cell.is_empty() {
        return None;
    }
    Some(cell)
}

/// Returns the error of an expansion of a parsed source that stopped.
fn error_of(source: &[u8], stop: Stop) -> ExpandIntoError<'_>
    requires { IsNamedStop source.now stop }
    ensures { expand_into_fault result ≡ stop_fault source.now stop }
{
    let stop = match stop {
        Stop::Full(e) => parts::Stop::Full(e),
        Stop::Missing(name) => parts::Stop::Missing(name),
        Stop::Asks(_) | Stop::NotATemplate => unreachable!(),
    };
    parts::error_of(source, stop)
}

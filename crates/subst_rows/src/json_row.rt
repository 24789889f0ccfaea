//! The row of a JSON line: the members of an object, by the numbers of a template's names.

ghost use Rattle.std.specs.Prelude.{◌≡◌, ◌≢◌, ◌++◌, ◌∷◌, [], IfErr, IfOk, IfSome, OnOk, option_map};
ghost use Rattle.json.specs.Find.{get_member};
ghost use Rattle.json.specs.Json.{Members, object};
ghost use Rattle.json.specs.Tree.{HasNumbers, MembersHaveNumbers};
ghost use Rattle.json.specs.Value.{members_view, value_view};
ghost use Rattle.json.specs.declared.error.Error.TheVariants as parsing;
ghost use Rattle.subst_rows.specs.declared.error.RowsError.TheVariants as errors;
ghost use Rattle.subst_rows.specs.Columns.{bytes_of};
ghost use Rattle.subst_rows.specs.JsonRow.{AreCells, IsRefusedLine, IsRefusedName, IsRefusedValue, IsRowOf, cell_bytes, cell_value, refusal_of};

use crate::error::RowsError;
use crate::row::Row;
use json::{Error, Scratch, Value, to_vec};
use std::alloc::{AllocError, Global};

/// A row of a JSON line. The column of a name is the name's number.
#[derive(Drop)]
pub struct JsonRow<'r> {
    cells: Vec<JsonCell<'r>>,
}

/// A cell of a JSON line.
#[derive(Drop)]
enum JsonCell<'r> {
    /// The object has no such member, or the member is `null`.
    Missing,
    /// The text of a string, a number, `true` or `false`.
    Text(&'r [u8]),
    /// The JSON text of an array or an object.
    Nested(Vec<u8>),
}

impl<'r> Row for JsonRow<'r> {
    ghost use Rattle.subst_rows.specs.JsonRow.{json_cell};

    ghost cells = { λ row column. json_cell row.cells.items column };

    fn cell(&self, column: usize) -> Option<&[u8]> {
        match self.cells.get(column)? {
            JsonCell::Missing => None,
            JsonCell::Text(text) => Some(*text),
            JsonCell::Nested(text) => Some(text.as_slice()),
        }
    }
}

/// Reads a line as a row: the cell of a name is the member with this key. The cell of a string is its text,
/// and that of a number, `true` or `false` is its JSON text. A member that is `null` counts as missing. If
/// `nested` is set, the cell of an array or an object is its JSON text, without spaces. The line has this
/// number.
///
/// # Errors
///
/// `NotUtf8`, `NotJson`, `KeyTwice`, `NotAnObject`, and out of memory. If `nested` isn't set, also `Nested`
/// for the first name whose member is an array or an object.
pub fn json_row<'r>(
    alloc: Global,
    number: usize,
    line: &'r [u8],
    names: &[&[u8]],
    nested: bool,
    scratch: &'r mut Scratch,
) -> Result<JsonRow<'r>, RowsError>
    ensures ok { IfOk result
        (λ row. IsRowOf nested (bytes_of names.now) line.now row.cells.items) }
    ensures err { IfErr result (IsRefusedLine nested (bytes_of names.now) number line.now) }
{
    let Ok(text) = simdutf8::compat::from_utf8(line) else {
        return Err(RowsError::NotUtf8 { line: number });
    };
    match Value::parse_strict(alloc, text, scratch) {
        Ok(value) => object_row(alloc, number, value, names, nested),
        Err(e) => Err(error_of(e, number)),
    }
}

/// Returns the row of the value on a line.
///
/// # Errors
///
/// `NotAnObject`, `Nested`, and out of memory.
fn object_row<'r>(
    alloc: Global,
    line: usize,
    value: Value<'r>,
    names: &[&[u8]],
    nested: bool,
) -> Result<JsonRow<'r>, RowsError>
    requires { HasNumbers (value_view value) }
    ensures ok { IfOk result (λ row. (ms : Members) × (value_view value.entry ≡ object ms)
        × AreCells nested (bytes_of names.now) ms row.cells.items) }
    ensures err { IfErr result
        (IsRefusedValue nested (bytes_of names.now) line (value_view value.entry)) }
{
    match value {
        Value::Object(members) => cells_of(alloc, line, &members, names, nested),
        _ => Err(RowsError::NotAnObject { line }),
    }
}

/// Returns the error of a line that isn't read.
fn error_of(e: Error, line: usize) -> RowsError
    requires { e ≢ parsing.TooLong }
    ensures { result ≡ refusal_of e line }
{
    match e {
        Error::Invalid => RowsError::NotJson { line },
        Error::DuplicateKey => RowsError::KeyTwice { line },
        Error::OutOfMemory | Error::TooLong => RowsError::OutOfMemory,
    }
}

/// Returns the cells of the names in the members of an object on a line.
///
/// # Errors
///
/// `Nested`, and out of memory.
fn cells_of<'r>(
    alloc: Global,
    line: usize,
    members: &Vec<(&'r str, Value<'r>)>,
    names: &[&[u8]],
    nested: bool,
) -> Result<JsonRow<'r>, RowsError>
    requires { MembersHaveNumbers (members_view members.now.items) }
    ensures ok { IfOk result (λ row.
        AreCells nested (bytes_of names.now) (members_view members.now.items) row.cells.items) }
    ensures err { IfErr result
        (IsRefusedName nested (bytes_of names.now) line (members_view members.now.items)) }
{
    let mut cells = Vec::new(alloc);
    for (number, name) in names.iter().enumerate() {
        match cell_of(alloc, find(members, name), nested) {
            Ok(Some(cell)) => push(&mut cells, cell)?,
            Ok(None) => return Err(RowsError::Nested { line, number }),
            Err(_) => return Err(RowsError::OutOfMemory),
        }
    }
    Ok(JsonRow { cells })
}

/// Returns the value of the last member with a key, or `None` if there is none.
fn find<'v, 'r>(members: &'v Vec<(&'r str, Value<'r>)>, key: &[u8]) -> Option<&'v Value<'r>>
    ensures { option_map (λ v. value_view v.now) result
        ≡ get_member key.now (members_view members.now.items) }
{
    let mut left = members.len();
    while left > 0 {
        left -= 1;
        let member = &members[left];
        if member.0.as_bytes() == key {
            return Some(&member.1);
        }
    }
    None
}

/// Returns the cell of a member, which may be missing, or `None` if the member is an array or an object and
/// `nested` isn't set.
///
/// # Errors
///
/// If allocation fails.
fn cell_of<'r>(
    alloc: Global,
    member: Option<&Value<'r>>,
    nested: bool,
) -> Result<Option<JsonCell<'r>>, AllocError>
    requires { IfSome member (λ v. HasNumbers (value_view v.now)) }
    ensures { IfOk result (λ cell. option_map cell_bytes cell
        ≡ cell_value nested (option_map (λ v. value_view v.now) member.entry)) }
{
    let Some(value) = member else {
        return Ok(Some(JsonCell::Missing));
    };
    match value {
        Value::Null => Ok(Some(JsonCell::Missing)),
        Value::Bool(true) => Ok(Some(JsonCell::Text(b"true"))),
        Value::Bool(false) => Ok(Some(JsonCell::Text(b"false"))),
        Value::Number(text) | Value::String(text) => Ok(Some(JsonCell::Text(text.as_bytes()))),
        Value::Array(_) | Value::Object(_) => {
            if nested {
                Ok(Some(JsonCell::Nested(to_vec(alloc, value)?)))
            } else {
                Ok(None)
            }
        }
    }
}

/// Appends a cell.
///
/// # Errors
///
/// If allocation fails.
fn push<'r>(cells: &mut Vec<JsonCell<'r>>, cell: JsonCell<'r>) -> Result<(), RowsError>
    ensures ok { OnOk result (cells.new.items ≡ cells.old.items ++ cell.entry ∷ []) }
    ensures err { IfErr result (λ e. e ≡ errors.OutOfMemory) }
{
    match cells.push(cell) {
        Ok(()) => Ok(()),
        Err(_) => Err(RowsError::OutOfMemory),
    }
}

//! Filling in of a document's strings in place. All else is kept byte for byte, such as comments, keys and
//! the order of lines.
//!
//! A walk over the text finds its strings, and each one that changes is rewritten. The output is then read,
//! and its tree is compared with the filled-in tree.

ghost use Rattle.std.specs.Prelude.{◌≡◌, Some, IfOk, IfSome, IsTrue, string_bytes};
ghost use Rattle.toml.specs.Parse.{parse_document};
ghost use Rattle.toml.specs.View.{table_view};
ghost use Rattle.subst_language.specs.Calls.Clauses.{AnswersText};
ghost use Rattle.subst_language.specs.Language.Several.{GivesBy};
ghost use Rattle.subst_toml.specs.Filled.{IsFilledIn};
ghost use Rattle.subst_toml.specs.InPlace.{FillsIn};

use crate::error::Error;
use crate::{changes, text_of};
use same::is_same_table;
use std::alloc::{AllocError, Global};
use std::convert::AsStr;
use subst_document::{Change, Fill, Filler, ListedStrings, filled_in};
use subst_language::VariableMap;
use token::Quoted;
use toml::Table;

pub(crate) mod indexed;
mod kind;
pub(crate) mod listing;
mod same;
pub(crate) mod token;
pub(crate) mod tokens;

/// Returns a TOML document with its strings filled in from `variables`, whose values are texts. Every other
/// byte is kept, and so is each string that doesn't change. In a string that changes, only the placeholders
/// are rewritten, and its quotes are kept. If a value doesn't fit into single quotes, the string gets double
/// quotes.
///
/// ```rust
/// let output = toml::fill_in(alloc, "home = '${home:/root}' # where it is\n", &NoSubstitution)?;
/// // Some("home = '/root' # where it is\n")
/// ```
///
/// The result is `None` if a string changes and the output isn't read as the filled-in tree; no document is
/// known for which that happens. If no string changes, the output is the source.
///
/// # Errors
///
/// As [`value_from_str`](crate::value_from_str).
pub fn fill_in<'a, M: VariableMap<'a>>(
    alloc: Global,
    source: &str,
    variables: &'a M,
) -> Result<Option<String>, Error>
where
    M::Value: AsStr + Drop,
    ensures filled { FillsIn
        (AnswersText M.Value.text M.see (M.look_up variables.now)) source.now result }
{
    fill_in_by(alloc, source, &Filler { variables })
}

/// Fills in the strings of `source`, the bytes of a TOML document, as [`fill_in`] does.
///
/// # Errors
///
/// As [`value_from_slice`](crate::value_from_slice).
pub fn fill_in_slice<'a, M: VariableMap<'a>>(
    alloc: Global,
    source: &[u8],
    variables: &'a M,
) -> Result<Option<String>, Error>
where
    M::Value: AsStr + Drop,
    ensures filled { FillsIn
        (AnswersText M.Value.text M.see (M.look_up variables.now)) source.now result }
{
    fill_in(alloc, text_of(source)?, variables)
}

/// Fills in the strings of a TOML document by `filler`, as [`fill_in`] does.
///
/// # Errors
///
/// As [`fill_in`].
pub fn fill_in_by<F: Fill>(alloc: Global, source: &str, filler: &F) -> Result<Option<String>, Error>
    ensures filled { FillsIn (F.answers filler.now) source.now result }
{
    let mut table = toml::table_from_str(alloc, source)?;
    let changes = match changes::change_of_members(alloc, &table, filler)? {
        Change::Kept(_) => return Ok(Some(String::from_str(alloc, source)?)),
        Change::Text(_) => return Ok(None),
        Change::Inside(changes) => changes,
    };
    let Some(output) = written(alloc, source, filler)? else {
        return Ok(None);
    };
    changes::make_members(&mut table, changes);
    if is_read_as(alloc, output.as_str(), &table)? {
        Ok(Some(output))
    } else {
        Ok(None)
    }
}

/// Returns a document with its strings filled in. Returns `None` if a string is refused. The result is also
/// `None` if a string changes and isn't spelled at its span, or if no token for its new value is found.
fn written<F: Fill>(alloc: Global, source: &str, filler: &F) -> Result<Option<String>, AllocError>
    ensures { IfOk result (λ output. IfSome output (λ output.
        IsFilledIn (GivesBy (F.answers filler.now)) source.now (string_bytes output))) }
{
    let Some(found) = tokens::strings_in(alloc, source)? else {
        return Ok(None);
    };
    let mut strings = ListedStrings {
        list: found.as_slice(),
    };
    let mut format = Quoted::of(source);
    match filled_in(alloc, source, &mut strings, &mut format, filler, false) {
        Ok(Some(filled)) => Ok(Some(filled.text)),
        Err(subst_error::Error::OutOfMemory(e)) => Err(e),
        Ok(None) | Err(_) => Ok(None),
    }
}

/// Returns whether reading `text` yields the table `table`.
fn is_read_as(alloc: Global, text: &str, table: &Table) -> Result<bool, AllocError>
    ensures { IfOk result
        (λ is. IsTrue is → parse_document text.now ≡ Some (table_view table.now)) }
{
    match toml::table_from_str(alloc, text) {
        Ok(read) => Ok(is_same_table(&read, table)),
        Err(e) if e.is_memory() => Err(AllocError),
        Err(_) => Ok(false),
    }
}

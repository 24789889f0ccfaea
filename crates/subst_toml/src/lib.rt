//! TOML whose strings are filled in after it was read, so that no value can break out of its string.
//!
//! Each string of the tree is expanded as by `substitute` of `subst`. Keys, numbers, booleans, dates and the
//! shape of the tree are kept. Arrays are visited by index, and tables in the byte order of their keys; the
//! error is that of the first refused string.
//!
//! [`substitute_string_values`] fills in a tree in place. [`value_from_str`] and [`value_from_slice`] first
//! read a document; its tree is a table. [`from_str`] and [`from_slice`] also convert the filled-in tree into
//! a type of the caller's, by `serde`.
//!
//! [`fill_in`], [`fill_in_slice`] and [`fill_in_by`] fill in the strings of a document, and keep every other
//! byte of it. [`strings`] lists the strings of a document, and [`refusals_in`] the refused ones.
//! [`place_in`] finds the span of a part of a string, such as the range of a fault.
//!
//! The walk recurses into nested arrays and tables. The reader allows 80 parts in a key, and 80 arrays and
//! inline tables in one another, so a document nests up to 6,639 deep. 7.5 MiB of stack were enough for that.
//! A deeper tree, built by a caller, takes proportionally more stack.
#![tactic(auto)]

ghost use Rattle.std.specs.Prelude.{◌≡◌, IfErr, IfOk, IsUtf8, MatchResult, None, OnErr, OnOk};
ghost use Rattle.std.specs.Str.{IsValidUpTo, valid_up_to};
ghost use Rattle.toml.specs.Data.{table};
ghost use Rattle.toml.specs.Errors.{IsWithin};
ghost use Rattle.toml.specs.Parse.{parse_document};
ghost use Rattle.toml.specs.View.{view, table_view};
ghost use Rattle.subst_error.specs.ErrorFault.{error_fault};
ghost use Rattle.subst_language.specs.Calls.Outcome.{OnFault};
ghost use Rattle.subst_language.specs.Calls.Clauses.{AnswersText};
ghost use Rattle.subst_language.specs.Language.Several.{GivesBy, RefusesFirst};
ghost use Rattle.subst_document.specs.Texts.{HasRange};
ghost use Rattle.subst_toml.specs.Mapped.{strings, IsEach};
ghost use Rattle.subst_toml.specs.Errors.{HasOwnMemory};
ghost use Rattle.subst_toml.specs.Outcome.{ReadsAsTree, IfToml, OnToml, OnSubst, StatesUtf8, ReturnsTree, ReadsType, StatesFirst, StatesReading};

pub use document::listing::{RefusalAt, refusals_by, refusals_in, strings};
pub use document::{fill_in, fill_in_by, fill_in_slice};
pub use error::Error;
pub use path::Path;
pub use place::place_in;
pub use places::places_in;
pub use reports::report;
use std::alloc::Global;
use std::convert::AsStr;
use std::str::{self, Utf8Error};
pub use subst_document::{Fill, Filler, PathStep, StringAt};
use subst_language::VariableMap;
use toml::{Table, Value};
use typed::FromText;

mod changes;
mod document;
mod error;
pub mod laws;
mod path;
mod place;
mod places;
mod reports;
mod typed;

/// Fills in the strings of a tree in place from `variables`, whose values are texts.
///
/// # Errors
///
/// The error that `substitute` returns for the first refused string. Positions are byte offsets in that
/// string. `OutOfMemory` if allocation fails. After an error the tree is unchanged.
pub fn substitute_string_values<'a, M: VariableMap<'a>>(
    alloc: Global,
    value: &mut Value,
    variables: &'a M,
) -> Result<(), subst_error::Error>
where
    M::Value: AsStr + Drop,

    // Each string is expanded from the map, and all else is unchanged.
    ensures ok { OnOk result
        (IsEach (GivesBy (AnswersText M.Value.text M.see (M.look_up variables.now)))
        (view value.old) (view value.new)) }
    ensures err { OnFault error_fault result
        (RefusesFirst (AnswersText M.Value.text M.see (M.look_up variables.now))
        (strings (view value.old))) }

    // The range of a fault fits into `usize`.
    ensures range { OnFault error_fault result HasRange }
    ensures unchanged { OnErr result (value.new ≡ value.old) }
{
    let change = changes::change_of(alloc, value, &Filler { variables })?;
    changes::make(value, change);
    Ok(())
}

/// Reads a TOML document, and fills in the strings of its tree from `variables`, whose values are texts. The
/// tree is a table.
///
/// ```rust
/// let tree = toml::value_from_str(alloc, "home = '${home:/root}/.config'", &NoSubstitution)?;
/// let output = format!(in alloc; "{tree}")?;
/// // { home = "/root/.config" }
/// ```
///
/// # Errors
///
/// - `Toml` if the source isn't a document for `toml`, even if a string is refused; the error has the line.
/// - `Subst` for the first refused string. Positions are byte offsets in that string.
/// - `OutOfMemory` if allocation fails.
pub fn value_from_str<'a, M: VariableMap<'a>>(
    alloc: Global,
    source: &str,
    variables: &'a M,
) -> Result<Value, Error>
where
    M::Value: AsStr + Drop,

    // The tree of the source, with its strings filled in.
    ensures ok { ReturnsTree M.Value.text M.see (M.look_up variables.now) source.now result }

    // A text is UTF-8, so the error is never `InvalidUtf8`.
    ensures utf8 { StatesUtf8 source.now result }
    ensures toml { OnToml result (parse_document source.now ≡ None) }

    // The span of the error is a range of the source.
    ensures span { IfToml result (IsWithin source.now) }
    ensures subst { StatesFirst M.Value.text M.see (M.look_up variables.now) source.now result }
    ensures range { OnSubst result HasRange }

    // A failure to allocate is `OutOfMemory`, and never the inner error of `Toml` or `Subst`.
    ensures memory { IfErr result HasOwnMemory }
{
    Ok(Value::Table(filled_table(alloc, source, variables)?))
}

/// Reads a TOML document from bytes, and fills in its strings, as [`value_from_str`] does.
///
/// # Errors
///
/// `InvalidUtf8` if the bytes aren't UTF-8, which is checked before anything is read; otherwise as
/// [`value_from_str`].
pub fn value_from_slice<'a, M: VariableMap<'a>>(
    alloc: Global,
    source: &[u8],
    variables: &'a M,
) -> Result<Value, Error>
where
    M::Value: AsStr + Drop,
    ensures ok { ReturnsTree M.Value.text M.see (M.look_up variables.now) source.now result }

    // `InvalidUtf8`, with the length of the valid prefix, is returned exactly if the bytes aren't UTF-8.
    ensures utf8 { StatesUtf8 source.now result }
    ensures toml { OnToml result (parse_document source.now ≡ None) }
    ensures span { IfToml result (IsWithin source.now) }
    ensures subst { StatesFirst M.Value.text M.see (M.look_up variables.now) source.now result }
    ensures range { OnSubst result HasRange }
    ensures memory { IfErr result HasOwnMemory }
{
    value_from_str(alloc, text_of(source)?, variables)
}

/// Reads a TOML document, fills in its strings from `variables`, whose values are texts, and converts the
/// tree into a `T`.
///
/// A filled-in string stays a string, so no variable can supply a number or a date to a `T`.
///
/// # Errors
///
/// As [`value_from_str`]. Also `Toml` if the filled-in tree isn't a `T`, or possibly if it nests more than 80
/// deep. The position of such an error refers to the printed tree, from which a `T` is read.
pub fn from_str<'a, T: FromText, M: VariableMap<'a>>(
    alloc: Global,
    source: &str,
    variables: &'a M,
) -> Result<T, Error>
where
    M::Value: AsStr + Drop,

    // The returned value is converted from the printed text of the filled-in tree.
    ensures ok { ReadsType M.Value.text M.see (M.look_up variables.now) T.reads source.now result }
    ensures utf8 { StatesUtf8 source.now result }

    // The inner error of `Toml` is the reader's if the source isn't a document; otherwise it is that of the
    // conversion.
    ensures toml { StatesReading M.Value.text M.see (M.look_up variables.now) T.reads
        source.now result }
    ensures subst { StatesFirst M.Value.text M.see (M.look_up variables.now) source.now result }
    ensures range { OnSubst result HasRange }
    ensures memory { IfErr result HasOwnMemory }
{
    let table = filled_table(alloc, source, variables)?;
    let text = typed::printed(alloc, &table)?;
    Ok(T::from_text(alloc, text.as_str())?)
}

/// Reads a TOML document from bytes, fills in its strings, and converts the tree into a `T`, as [`from_str`]
/// does.
///
/// # Errors
///
/// As [`value_from_slice`] and [`from_str`].
pub fn from_slice<'a, T: FromText, M: VariableMap<'a>>(
    alloc: Global,
    source: &[u8],
    variables: &'a M,
) -> Result<T, Error>
where
    M::Value: AsStr + Drop,
    ensures ok { ReadsType M.Value.text M.see (M.look_up variables.now) T.reads source.now result }
    ensures utf8 { StatesUtf8 source.now result }
    ensures toml { StatesReading M.Value.text M.see (M.look_up variables.now) T.reads
        source.now result }
    ensures subst { StatesFirst M.Value.text M.see (M.look_up variables.now) source.now result }
    ensures range { OnSubst result HasRange }
    ensures memory { IfErr result HasOwnMemory }
{
    from_str(alloc, text_of(source)?, variables)
}

/// Returns bytes as a text.
///
/// # Errors
///
/// If the bytes aren't UTF-8. The error has the length of the valid prefix.
fn text_of(source: &[u8]) -> Result<&str, Utf8Error>
    ensures { MatchResult result (λ text. (text.now ≡ source.now) × IsUtf8 source.now)
        (λ e. ¬ (IsUtf8 source.now) × IsValidUpTo source.now (valid_up_to e)) }
{
    match simdutf8::basic::from_utf8(source) {
        Ok(text) => Ok(text),
        Err(_) => str::from_utf8(source),
    }
}

/// Returns the table of a document, with its strings filled in.
fn filled_table<'a, M: VariableMap<'a>>(
    alloc: Global,
    source: &str,
    variables: &'a M,
) -> Result<Table, Error>
where
    M::Value: AsStr + Drop,
    ensures ok { IfOk result (λ filled. ReadsAsTree source.now
        (λ d. IsEach (GivesBy (AnswersText M.Value.text M.see (M.look_up variables.now)))
        d (table (table_view filled)))) }
    ensures utf8 { StatesUtf8 source.now result }
    ensures toml { OnToml result (parse_document source.now ≡ None) }
    ensures span { IfToml result (IsWithin source.now) }
    ensures subst { StatesFirst M.Value.text M.see (M.look_up variables.now) source.now result }
    ensures range { OnSubst result HasRange }
    ensures memory { IfErr result HasOwnMemory }
{
    let table = toml::table_from_str(alloc, source)?;
    Ok(changes::filled_members(alloc, table, &Filler { variables })?)
}

//! JSON whose strings are filled in after it was read, so that no value can break out of its string.
//!
//! Each string of the tree is expanded as by `substitute` of `subst`. Keys, numbers, booleans, nulls and the
//! shape of the tree are kept. Arrays are visited by index, and objects in the byte order of their keys; the
//! error is that of the first refused string.
//!
//! [`substitute_string_values`] fills in a tree in place. [`value_from_str`] and [`value_from_slice`] read a
//! tree first. [`from_str`] and [`from_slice`] also convert the filled-in tree into a type of the caller's,
//! by `serde`.
//!
//! [`fill_in`], [`fill_in_slice`] and [`fill_in_by`] fill in the strings of a text, and keep every other byte
//! of it. [`strings`] lists the strings of a text, and [`refusals_in`] the refused ones.
//!
//! The walk recurses into nested arrays and objects. The reader refuses a nesting depth of more than 127; a
//! deeper tree, built by a caller, takes proportionally more stack.
#![tactic(auto)]

ghost use Rattle.std.specs.Prelude.{◌≡◌, ◌⊎◌, Err, IfErr, IfOk, IsUtf8, None, OnErr, OnOk};
ghost use Rattle.serde_json.specs.Errors.{IsOfText};
ghost use Rattle.serde_json.specs.Read.{read};
ghost use Rattle.serde_json.specs.View.{view};
ghost use Rattle.subst_error.specs.ErrorFault.{error_fault};
ghost use Rattle.subst_language.specs.Calls.Outcome.{OnFault};
ghost use Rattle.subst_language.specs.Calls.Clauses.{AnswersText};
ghost use Rattle.subst_language.specs.Language.Several.{GivesBy, RefusesFirst};
ghost use Rattle.subst_document.specs.Texts.{HasRange};
ghost use Rattle.subst_json.specs.Mapped.{strings, IsEach};
ghost use Rattle.subst_json.specs.Errors.{HasOwnMemory};
ghost use Rattle.subst_json.specs.Outcome.{ReadsAsTree, IsReadFilledIn, IfJson, OnJson, OnSubst, ReturnsTree, ReadsType, StatesFirst};

pub use document::{fill_in, fill_in_by, fill_in_slice};
pub use error::Error;
pub use listing::{RefusalAt, refusals_by, refusals_in, strings};
pub use path::Path;
pub use place::place_in;
pub use places::{RangeFinder, places_in};
pub use reports::report;
use serde_json::Value;
use std::alloc::Global;
use std::convert::AsStr;
pub use stop::{ReaderStop, reader_stop};
pub use subst_document::{Fill, Filler, PathStep, StringAt};
use subst_language::VariableMap;
use typed::FromTree;

mod changes;
mod compared;
mod document;
mod error;
mod exact_spans;
pub mod laws;
mod listing;
mod nesting;
mod path;
mod paths;
mod place;
mod places;
mod reports;
mod stop;
mod tokens;
mod typed;

/// Fills in the strings of a tree in place from `variables`, whose values are texts.
///
/// # Errors
///
/// The error of the first refused string, as of `substitute`: positions are byte offsets in that string.
/// `OutOfMemory` if allocation fails. After an error the tree is unchanged.
pub fn substitute_string_values<'a, M: VariableMap<'a>>(
    alloc: Global,
    value: &mut Value,
    variables: &'a M,
) -> Result<(), subst_error::Error>
where
    M::Value: AsStr + Drop,

    // Each string is expanded from the map, and all else is unchanged.
    ensures ok { OnOk result
        (IsEach (GivesBy (AnswersText M.Value.text M.see (M.look_up variables.now)))
        (view value.old) (view value.new)) }
    ensures err { OnFault error_fault result
        (RefusesFirst (AnswersText M.Value.text M.see (M.look_up variables.now))
        (strings (view value.old))) }

    // The range of a fault fits into `usize`.
    ensures range { OnFault error_fault result HasRange }
    ensures unchanged { OnErr result (value.new ≡ value.old) }
{
    let change = changes::change_of(alloc, value, &Filler { variables })?;
    changes::make(value, change);
    Ok(())
}

/// Reads a JSON tree, and fills in its strings from `variables`, whose values are texts.
///
/// ```rust
/// let source = r#"{"$home": "${home:/root}/.config"}"#;
/// let tree = json::value_from_str(alloc, source, &NoSubstitution)?;
/// let output = format!(in alloc; "{tree}")?;
/// // {"$home":"/root/.config"}
/// ```
///
/// # Errors
///
/// - `Json` if the source isn't JSON for `serde_json`, even if a string is refused; the error has the line.
/// - `Subst` for the first refused string. Positions are byte offsets in that string.
/// - `OutOfMemory` if allocation fails.
pub fn value_from_str<'a, M: VariableMap<'a>>(
    alloc: Global,
    source: &str,
    variables: &'a M,
) -> Result<Value, Error>
where
    M::Value: AsStr + Drop,

    // The tree of the source, with its strings filled in.
    ensures ok { ReturnsTree M.Value.text M.see (M.look_up variables.now) source.now result }
    ensures json { OnJson result (read source.now ≡ None) }

    // A `Json` error is about the text, and never about a type that the tree doesn't fit.
    ensures kind { IfJson result IsOfText }
    ensures subst { StatesFirst M.Value.text M.see (M.look_up variables.now) source.now result }
    ensures range { OnSubst result HasRange }

    // Neither `Json` nor `Subst` wraps a failure to allocate.
    ensures memory { IfErr result HasOwnMemory }
{
    let value = Value::from_str(alloc, source)?;
    fill_tree(alloc, value, variables)
}

/// Reads a JSON tree from bytes, and fills in its strings, as [`value_from_str`] does.
///
/// # Errors
///
/// As [`value_from_str`]. Also `Json` if the bytes aren't UTF-8.
pub fn value_from_slice<'a, M: VariableMap<'a>>(
    alloc: Global,
    source: &[u8],
    variables: &'a M,
) -> Result<Value, Error>
where
    M::Value: AsStr + Drop,
    ensures ok { ReturnsTree M.Value.text M.see (M.look_up variables.now) source.now result }

    // Strings are filled in, or refused, only if the bytes are UTF-8.
    ensures utf8 { OnOk result (IsUtf8 source.now) }
    ensures refused_utf8 { OnSubst result (λ f. IsUtf8 source.now) }
    ensures json { OnJson result (IsUtf8 source.now → read source.now ≡ None) }
    ensures kind { IfJson result IsOfText }
    ensures subst { StatesFirst M.Value.text M.see (M.look_up variables.now) source.now result }
    ensures range { OnSubst result HasRange }
    ensures memory { IfErr result HasOwnMemory }
{
    let value = Value::from_slice(alloc, source)?;
    fill_tree(alloc, value, variables)
}

/// Reads JSON, fills in its strings from `variables`, whose values are texts, and converts the tree into a
/// `T`.
///
/// A filled-in string stays a string, so no variable can supply a number to a `T`.
///
/// ```rust
/// let output: String = json::from_str(alloc, r#""${home:/root}/.config""#, &NoSubstitution)?;
/// // /root/.config
/// ```
///
/// # Errors
///
/// As [`value_from_str`]. Also `Json` if the filled-in tree isn't a `T`.
pub fn from_str<'a, T: FromTree, M: VariableMap<'a>>(
    alloc: Global,
    source: &str,
    variables: &'a M,
) -> Result<T, Error>
where
    M::Value: AsStr + Drop,

    // The value into which the filled-in tree of the source is converted.
    ensures ok { ReadsType M.Value.text M.see (M.look_up variables.now) T.reads source.now result }

    // `Json` is either the reader's error for a text that isn't JSON, or the error of the conversion.
    ensures json { IfJson result (λ e. ((read source.now ≡ None) × IsOfText e)
        ⊎ ReadsAsTree source.now (λ d. IsReadFilledIn
        (AnswersText M.Value.text M.see (M.look_up variables.now)) T.reads d (Err e))) }
    ensures subst { StatesFirst M.Value.text M.see (M.look_up variables.now) source.now result }
    ensures range { OnSubst result HasRange }
    ensures memory { IfErr result HasOwnMemory }
{
    let tree = value_from_str(alloc, source, variables)?;
    Ok(T::from_tree(alloc, tree)?)
}

/// Reads JSON from bytes, fills in its strings, and converts the tree into a `T`, as [`from_str`] does.
///
/// # Errors
///
/// As [`value_from_slice`]. Also `Json` if the filled-in tree isn't a `T`.
pub fn from_slice<'a, T: FromTree, M: VariableMap<'a>>(
    alloc: Global,
    source: &[u8],
    variables: &'a M,
) -> Result<T, Error>
where
    M::Value: AsStr + Drop,
    ensures ok { ReadsType M.Value.text M.see (M.look_up variables.now) T.reads source.now result }

    // Strings are filled in, or refused, only if the bytes are UTF-8.
    ensures utf8 { OnOk result (IsUtf8 source.now) }
    ensures refused_utf8 { OnSubst result (λ f. IsUtf8 source.now) }
    ensures json { IfJson result
        (λ e. ((IsUtf8 source.now → read source.now ≡ None) × IsOfText e)
        ⊎ ReadsAsTree source.now (λ d. IsReadFilledIn
        (AnswersText M.Value.text M.see (M.look_up variables.now)) T.reads d (Err e))) }
    ensures subst { StatesFirst M.Value.text M.see (M.look_up variables.now) source.now result }
    ensures range { OnSubst result HasRange }
    ensures memory { IfErr result HasOwnMemory }
{
    let tree = value_from_slice(alloc, source, variables)?;
    Ok(T::from_tree(alloc, tree)?)
}

/// Fills in the strings of a tree that was read, and returns it.
fn fill_tree<'a, M: VariableMap<'a>>(
    alloc: Global,
    mut value: Value,
    variables: &'a M,
) -> Result<Value, Error>
where
    M::Value: AsStr + Drop,
    ensures ok { IfOk result
        (λ tree. IsEach (GivesBy (AnswersText M.Value.text M.see (M.look_up variables.now)))
        (view value) (view tree)) }
    ensures json { OnJson result ⊥ }
    ensures subst { OnSubst result
        (RefusesFirst (AnswersText M.Value.text M.see (M.look_up variables.now))
        (strings (view value))) }
    ensures range { OnSubst result HasRange }
    ensures memory { IfErr result HasOwnMemory }
{
    substitute_string_values(alloc, &mut value, variables)?;
    Ok(value)
}

//! Fills in the strings of a JSON text, and keeps every other byte.

ghost use Rattle.std.specs.Prelude.{◌≡◌, ⊤, IfErr, IfNone, IfOk, IfSome, None, Some, string_bytes};
ghost use Rattle.json.specs.Lex.{tokens};
ghost use Rattle.serde_json.specs.Errors.{IsOfText};
ghost use Rattle.serde_json.specs.Read.{read};
ghost use Rattle.subst_error.specs.ErrorFault.{error_fault};
ghost use Rattle.subst_language.specs.Calls.Clauses.{AnswersText};
ghost use Rattle.subst_language.specs.Language.Several.{GivesBy};
ghost use Rattle.subst_document.specs.Stays.{AreValues};
ghost use Rattle.subst_json.specs.Errors.{HasOwnMemory};
ghost use Rattle.subst_json.specs.Filled.{strings_in};
ghost use Rattle.subst_json.specs.InPlace.{FillsIn, FillsInBytes};
ghost use Rattle.subst_json.specs.Mapped.{IsEach};
ghost use Rattle.subst_json.specs.Outcome.{ReadsAsTree, IfJson, OnJson, OnSubst};

use crate::Error;
use crate::compared::is_filled;
use crate::tokens::filled_in;
use serde_json::Value;
use std::alloc::Global;
use std::convert::AsStr;
use std::str::from_utf8;
use subst_document::{Fill, Filled, Filler};
use subst_language::VariableMap;

/// Returns a JSON text with its strings filled in from `variables`, whose values are texts. Every other byte
/// is kept: white space, keys and their order, repeated keys, and the spelling of numbers and of each string
/// that doesn't change. In a string that changes, only the placeholders are rewritten. If several members
/// have the same key, the string of each is filled in.
///
/// ```rust
/// let source = r#"{ "$home": "${home:/root}/.config", "scale": 1.50 }"#;
/// let output = json::fill_in(alloc, source, &NoSubstitution)?;
/// // Some("{ \"$home\": \"/root/.config\", \"scale\": 1.50 }")
/// ```
///
/// If a string changes, the output is read and compared with the source before it is returned. The result is
/// `None` if this check fails; no text is known for which the check fails.
///
/// # Errors
///
/// - `Json` if the source isn't JSON for `serde_json`, even if a string is refused; the error has the line.
/// - `Subst` for the first refused string, in document order. Positions are byte offsets in that string.
/// - `OutOfMemory` if allocation fails.
pub fn fill_in<'a, M: VariableMap<'a>>(
    alloc: Global,
    source: &str,
    variables: &'a M,
) -> Result<Option<String>, Error>
where
    M::Value: AsStr + Drop,
    ensures filled { FillsIn
        (AnswersText M.Value.text M.see (M.look_up variables.now)) source.now result }
{
    fill_in_by(alloc, source, &Filler { variables })
}

/// Fills in the strings of `source`, the bytes of a JSON text, as [`fill_in`] does.
///
/// # Errors
///
/// As [`fill_in`]. Also `Json` if the bytes aren't UTF-8.
pub fn fill_in_slice<'a, M: VariableMap<'a>>(
    alloc: Global,
    source: &[u8],
    variables: &'a M,
) -> Result<Option<String>, Error>
where
    M::Value: AsStr + Drop,
    ensures filled { FillsInBytes
        (AnswersText M.Value.text M.see (M.look_up variables.now)) source.now result }
{
    match from_utf8(source) {
        Ok(text) => fill_in(alloc, text, variables),
        Err(_) => {
            Value::from_slice(alloc, source)?;
            Ok(None)
        }
    }
}

/// Fills in the strings of a JSON text by `filler`, as [`fill_in`] does. A string is skipped if
/// [`Fill::needs_no_filling`] returns `true` for it.
///
/// # Errors
///
/// As [`fill_in`].
pub fn fill_in_by<F: Fill>(alloc: Global, source: &str, filler: &F) -> Result<Option<String>, Error>
    ensures filled { FillsIn (F.answers filler.now) source.now result }
{
    match filled_in(alloc, source, filler) {
        Ok(Some(filled)) if filled.is_changed => confirmed(alloc, source, filled, filler),
        Ok(Some(filled)) => unchanged(alloc, source, filled.text),
        Ok(None) => unconfirmed(alloc, source),
        Err(e) => refused(alloc, source, e),
    }
}

/// Returns a filled-in text, or `None` if the comparison with the source fails.
///
/// # Errors
///
/// `Json` if the source isn't JSON, or `OutOfMemory` if allocation fails.
fn confirmed<F: Fill>(
    alloc: Global,
    source: &str,
    filled: Filled,
    filler: &F,
) -> Result<Option<String>, Error>
    requires { AreValues (GivesBy (F.answers filler.now)) 0 (strings_in (tokens source.now))
        filled.values.list.items (string_bytes filled.values.text) }
    ensures same { IfOk result
        (λ confirmed. IfSome confirmed (λ confirmed. confirmed ≡ filled.text)) }
    ensures none { IfOk result (λ confirmed. IfNone confirmed (ReadsAsTree source.now (λ _. ⊤))) }
    ensures each { IfOk result (λ output. IfSome output (λ output. ReadsAsTree source.now
        (λ d. ReadsAsTree (string_bytes output) (IsEach (GivesBy (F.answers filler.now)) d)))) }
    ensures json { OnJson result (read source.now ≡ None) }
    ensures kind { IfJson result IsOfText }
    ensures subst { OnSubst result (λ _. ⊥) }
    ensures memory { IfErr result HasOwnMemory }
{
    if is_filled(alloc, source, &filled.text, &filled.values, filler)? {
        Ok(Some(filled.text))
    } else {
        unconfirmed(alloc, source)
    }
}

/// Returns `output` if `source` is JSON. `output` equals `source`, since no string changes.
///
/// # Errors
///
/// `Json` if the source isn't JSON, or `OutOfMemory` if allocation fails.
fn unchanged(alloc: Global, source: &str, output: String) -> Result<Option<String>, Error>
    ensures same { IfOk result
        (λ confirmed. (confirmed ≡ Some output) × ReadsAsTree source.now (λ _. ⊤)) }
    ensures json { OnJson result (read source.now ≡ None) }
    ensures kind { IfJson result IsOfText }
    ensures subst { OnSubst result (λ _. ⊥) }
    ensures memory { IfErr result HasOwnMemory }
{
    Value::from_str(alloc, source)?;
    Ok(Some(output))
}

/// Returns `None` if the source is JSON. `None` is the result for a source whose filled-in text isn't
/// confirmed.
///
/// # Errors
///
/// `Json` if the source isn't JSON, or `OutOfMemory` if allocation fails.
fn unconfirmed(alloc: Global, source: &str) -> Result<Option<String>, Error>
    ensures none { IfOk result (λ output. (output ≡ None) × ReadsAsTree source.now (λ _. ⊤)) }
    ensures json { OnJson result (read source.now ≡ None) }
    ensures kind { IfJson result IsOfText }
    ensures subst { OnSubst result (λ _. ⊥) }
    ensures memory { IfErr result HasOwnMemory }
{
    Value::from_str(alloc, source)?;
    Ok(None)
}

/// Returns the final error, where `e` is the error of filling in `source`.
///
/// # Errors
///
/// `Json` if the source isn't JSON, and otherwise the error of the string.
fn refused(alloc: Global, source: &str, e: subst_error::Error) -> Result<Option<String>, Error>
    ensures never { IfOk result (λ _. ⊥) }
    ensures json { OnJson result (read source.now ≡ None) }
    ensures kind { IfJson result IsOfText }
    ensures subst { OnSubst result
        (λ f. (error_fault e ≡ Some f) × ReadsAsTree source.now (λ _. ⊤)) }
    ensures memory { IfErr result HasOwnMemory }
{
    Value::from_str(alloc, source)?;
    Err(e.into())
}

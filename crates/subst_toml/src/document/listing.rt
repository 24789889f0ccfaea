//! Lists of a document's strings and of its refused strings, with their spans.

ghost use Rattle.std.specs.Prelude.{IfOk, IfSome, IsTrue};
ghost use Rattle.std.specs.List.{AllByRecursion};
ghost use Rattle.toml.specs.View.{view};
ghost use Rattle.subst_language.specs.Calls.Clauses.{AnswersText};
ghost use Rattle.subst_toml.specs.Filled.{IsFound};
ghost use Rattle.subst_toml.specs.InPlace.{Lists};
ghost use Rattle.subst_toml.specs.Listed.{AreAllRefused, AreRefusedIn, IsListing};

use super::indexed::TomlPaths;
use super::token::{Quoted, is_spelled};
use super::tokens;
use crate::error::Error;
use crate::path::Path;
use crate::place::string_at;
use std::alloc::{AllocError, Global};
use std::convert::AsStr;
use subst_document::{Fill, Filler, StringAt, are_spelled, refusals};
use subst_language::VariableMap;
use toml::Value;

/// A refused string of a document.
pub type RefusalAt = subst_document::RefusalAt<Path>;

/// Lists the string values of a TOML document, in order, each with the byte range that spells it. Keys aren't
/// listed.
///
/// The result is `None` if a string isn't found, or if a range doesn't spell its string. No document is known
/// for which this happens.
///
/// # Errors
///
/// `Toml` if the source isn't a document, or `OutOfMemory` if allocation fails.
pub fn strings(alloc: Global, source: &str) -> Result<Option<Vec<StringAt>>, Error>
    ensures listed { Lists (IsListing source.now) source.now result }
{
    let _ = toml::table_from_str(alloc, source)?;
    let Some(found) = tokens::strings_in(alloc, source)? else {
        return Ok(None);
    };
    if are_spelled(alloc, source, found.as_slice(), &mut Quoted::new())? {
        Ok(Some(found))
    } else {
        Ok(None)
    }
}

/// Lists in document order the strings of `source`, a TOML document, that are refused when filled in from
/// `variables`.
///
/// The result is `None` if a string isn't found, if a path doesn't lead to its string, or if a range doesn't
/// spell it. No document is known for which this happens.
///
/// # Errors
///
/// `Toml` if the source isn't a document, or `OutOfMemory` if allocation fails.
pub fn refusals_in<'a, M: VariableMap<'a>>(
    alloc: Global,
    source: &str,
    variables: &'a M,
) -> Result<Option<Vec<RefusalAt>>, Error>
where
    M::Value: AsStr + Drop,
    ensures listed { Lists
        (AreAllRefused (AnswersText M.Value.text M.see (M.look_up variables.now)) source.now)
        source.now result }
{
    refusals_by(alloc, source, &Filler { variables })
}

/// Lists the strings that `filler` refuses in a TOML document, as [`refusals_in`] does.
///
/// # Errors
///
/// As [`refusals_in`].
pub fn refusals_by<F: Fill>(
    alloc: Global,
    source: &str,
    filler: &F,
) -> Result<Option<Vec<RefusalAt>>, Error>
    ensures listed { Lists (AreAllRefused (F.answers filler.now) source.now) source.now result }
{
    let tree = Value::Table(toml::table_from_str(alloc, source)?);
    Ok(refusals_of(alloc, source, &tree, filler)?)
}

/// Returns the refused strings of `source`, or `None` if the path or the span of one isn't confirmed. `tree`
/// is the tree of `source`.
fn refusals_of<F: Fill>(
    alloc: Global,
    source: &str,
    tree: &Value,
    filler: &F,
) -> Result<Option<Vec<RefusalAt>>, AllocError>
    ensures { IfOk result (λ all. IfSome all
        (λ all. AreRefusedIn (F.answers filler.now) source.now all.items
        × AllByRecursion (IsFound source.now (view tree.now)) all.items)) }
{
    let Some(found) = tokens::strings_in(alloc, source)? else {
        return Ok(None);
    };
    let list = found.as_slice();
    let Some(all) = refusals(alloc, list, &TomlPaths { source, list }, filler)? else {
        return Ok(None);
    };
    if are_found(alloc, source, tree, &all)? {
        Ok(Some(all))
    } else {
        Ok(None)
    }
}

/// Returns whether each refused string is at its path in `tree`, and spelled at its span in `source`.
fn are_found(
    alloc: Global,
    source: &str,
    tree: &Value,
    refused: &Vec<RefusalAt>,
) -> Result<bool, AllocError>
    ensures { IfOk result
        (λ are. IsTrue are
        → AllByRecursion (IsFound source.now (view tree.now)) refused.now.items) }
{
    for it in refused.iter() {
        if !is_found(alloc, source, tree, it)? {
            return Ok(false);
        }
    }
    Ok(true)
}

/// Returns whether the refused string `it` is at its path in `tree`, and spelled at its span in `source`.
fn is_found(alloc: Global, source: &str, tree: &Value, it: &RefusalAt) -> Result<bool, AllocError>
    ensures { IfOk result (λ is. IsTrue is → IsFound source.now (view tree.now) it.now) }
{
    match string_at(tree, it.path.steps.as_slice()) {
        Some(text) if text == it.text.as_str() => is_spelled(alloc, source, &it.span, text),
        _ => Ok(false),
    }
}

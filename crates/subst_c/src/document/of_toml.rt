//! Filling in TOML documents.

ghost use Rattle.std.specs.Prelude.{IfOk};
ghost use Rattle.subst_language.specs.Calls.VariableMap.{ByLookUp};
ghost use Rattle.subst_c.specs.DocumentNames.{IsNamesResult};
ghost use Rattle.subst_c.specs.Documents.{IfRefused, IsInvalid, IsRefusal, IsResultOf, Toml};
ghost use Rattle.subst_c.specs.Pairs.{pair_value};

use super::by_names::{EveryName, names_of};
use super::{Unfilled, invalid, refused};
use crate::pairs::TextPairs;
use std::alloc::{AllocError, Global};
use std::convert::AsStr;
use subst_language::VariableMap;
use subst_toml::{Error, place_in, refusals_in, strings};

/// Fills in the strings of a TOML document from pairs, and returns the output.
///
/// # Errors
///
/// If the source isn't TOML, if a string is refused, if the output isn't confirmed, or if allocation fails.
pub fn fill_in(alloc: Global, source: &str, pairs: &TextPairs<'_>) -> Result<String, Unfilled>
    ensures { IsResultOf Toml (pair_value pairs.now.pairs.pairs.now) source.now result }
{
    match subst_toml::fill_in(alloc, source, pairs) {
        Ok(filled) => match filled {
            Some(text) => Ok(text),
            None => Err(Unfilled::NotConfirmed),
        },
        Err(e) => match e {
            Error::Toml(e) => Err(text_refusal(alloc, source, &e)?),
            Error::Subst(_) => Err(first_refusal(alloc, source, pairs)?),
            Error::OutOfMemory(e) => Err(Unfilled::OutOfMemory(e)),
            // This never happens, since `source` is UTF-8.
            Error::InvalidUtf8(_) => Err(Unfilled::NotConfirmed),
        },
    }
}

/// Returns the names of the variables in the strings of a TOML document, each once, in the order of first
/// use.
///
/// # Errors
///
/// If the source isn't TOML, if a string has a fault, or if allocation fails.
pub fn names(alloc: Global, source: &str) -> Result<Vec<String>, Unfilled>
    ensures { IsNamesResult Toml source.now result }
{
    let list = match strings(alloc, source) {
        Ok(Some(list)) => list,
        Err(Error::Toml(e)) => return Err(text_refusal(alloc, source, &e)?),
        Err(Error::OutOfMemory(e)) => return Err(Unfilled::OutOfMemory(e)),
        _ => return Err(Unfilled::NotConfirmed),
    };
    match names_of(alloc, &list)? {
        Some(names) => Ok(names),
        None => Err(first_refusal(alloc, source, &EveryName)?),
    }
}

/// Returns the refusal of a text that isn't TOML, with the reader's message.
///
/// # Errors
///
/// If allocation fails.
fn text_refusal(alloc: Global, source: &str, e: &toml::de::Error) -> Result<Unfilled, AllocError>
    ensures { IfOk result (λ refusal. IfRefused refusal (IsInvalid source.now)) }
{
    let message = String::from_str(alloc, e.message())?;
    Ok(invalid(source, e.span().unwrap_or(0..0), message))
}

/// Returns the refusal of the first refused string, or `NotConfirmed` if that string or the place of its
/// fault isn't found.
///
/// # Errors
///
/// If allocation fails.
fn first_refusal<'a, M: VariableMap<'a>>(
    alloc: Global,
    source: &str,
    variables: &'a M,
) -> Result<Unfilled, AllocError>
where
    M::Value: AsStr + Drop,
    ensures { ByLookUp M.Value.text M.see (M.look_up variables.now) (λ look.
        IfOk result (λ refusal. IfRefused refusal (IsRefusal Toml look source.now))) }
{
    let all = match refusals_in(alloc, source, variables) {
        Ok(Some(all)) => all,
        Err(Error::OutOfMemory(e)) => return Err(e),
        _ => return Ok(Unfilled::NotConfirmed),
    };
    let Some(first) = all.first() else {
        return Ok(Unfilled::NotConfirmed);
    };
    let token = first.span.start..first.span.end;
    match place_in(alloc, source, token, first.error.source_range())? {
        Some(place) => {
            let path = format!(in alloc; "{}", first.path)?;
            refused(alloc, &path, &first.error, place)
        }
        None => Ok(Unfilled::NotConfirmed),
    }
}

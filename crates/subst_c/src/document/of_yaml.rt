//! Filling in YAML documents.

ghost use Rattle.std.specs.Prelude.{IfOk};
ghost use Rattle.subst_language.specs.Calls.VariableMap.{ByLookUp};
ghost use Rattle.subst_c.specs.DocumentNames.{IsNamesResult};
ghost use Rattle.subst_c.specs.Documents.{IfRefused, IsInvalid, IsRefusal, IsResultOf, Yaml};
ghost use Rattle.subst_c.specs.Pairs.{pair_value};

use super::by_names::{EveryName, names_of};
use super::{Unfilled, invalid, refused};
use crate::pairs::TextPairs;
use std::alloc::{AllocError, Global};
use std::convert::AsStr;
use subst_language::VariableMap;
use subst_yaml::{Error, Fault, place_in, refusals_in, strings};

/// Fills in the values of a YAML document from pairs, and returns the output.
///
/// # Errors
///
/// If the source isn't YAML, if a value is refused, if the output isn't confirmed, or if allocation fails.
pub fn fill_in(alloc: Global, source: &str, pairs: &TextPairs<'_>) -> Result<String, Unfilled>
    ensures { IsResultOf Yaml (pair_value pairs.now.pairs.pairs.now) source.now result }
{
    match subst_yaml::fill_in(alloc, source, pairs) {
        Ok(filled) => match filled {
            Some(text) => Ok(text),
            None => Err(Unfilled::NotConfirmed),
        },
        Err(e) => match e {
            Error::Yaml(fault) => Err(text_refusal(alloc, source, &fault)?),
            Error::Subst(_) => Err(first_refusal(alloc, source, pairs)?),
            Error::OutOfMemory(e) => Err(Unfilled::OutOfMemory(e)),
        },
    }
}

/// Returns the names of the variables in the values of a YAML document, each once, in the order of first use.
///
/// # Errors
///
/// If the source isn't YAML, if a value has a fault, or if allocation fails.
pub fn names(alloc: Global, source: &str) -> Result<Vec<String>, Unfilled>
    ensures { IsNamesResult Yaml source.now result }
{
    let list = match strings(alloc, source) {
        Ok(list) => list,
        Err(Error::Yaml(fault)) => return Err(text_refusal(alloc, source, &fault)?),
        Err(Error::OutOfMemory(e)) => return Err(Unfilled::OutOfMemory(e)),
        Err(Error::Subst(_)) => return Err(Unfilled::NotConfirmed),
    };
    match names_of(alloc, &list)? {
        Some(names) => Ok(names),
        None => Err(first_refusal(alloc, source, &EveryName)?),
    }
}

/// Returns the refusal of a text that isn't YAML, with the reader's message.
///
/// # Errors
///
/// If allocation fails.
fn text_refusal(alloc: Global, source: &str, fault: &Fault) -> Result<Unfilled, AllocError>
    ensures { IfOk result (λ refusal. IfRefused refusal (IsInvalid source.now)) }
{
    let message = format!(in alloc; "{}", fault.reason)?;
    Ok(invalid(source, fault.span.start..fault.span.end, message))
}

/// Returns the refusal of the first refused value, or `NotConfirmed` if that value or the place of its fault
/// isn't found.
///
/// # Errors
///
/// If allocation fails.
fn first_refusal<'a, M: VariableMap<'a>>(
    alloc: Global,
    source: &str,
    variables: &'a M,
) -> Result<Unfilled, AllocError>
where
    M::Value: AsStr + Drop,
    ensures { ByLookUp M.Value.text M.see (M.look_up variables.now) (λ look.
        IfOk result (λ refusal. IfRefused refusal (IsRefusal Yaml look source.now))) }
{
    let all = match refusals_in(alloc, source, variables) {
        Ok(all) => all,
        Err(Error::OutOfMemory(e)) => return Err(e),
        Err(_) => return Ok(Unfilled::NotConfirmed),
    };
    let Some(first) = all.first() else {
        return Ok(Unfilled::NotConfirmed);
    };
    let token = first.span.start..first.span.end;
    match place_in(alloc, source, token, first.error.source_range())? {
        Some(place) => {
            let path = format!(in alloc; "{}", first.path)?;
            refused(alloc, &path, &first.error, place)
        }
        None => Ok(Unfilled::NotConfirmed),
    }
}

//! Lists of a JSON text's strings and of its refused strings, with their spans.

ghost use Rattle.std.specs.Prelude.{IfOk, IfSome};
ghost use Rattle.subst_language.specs.Calls.Clauses.{AnswersText};
ghost use Rattle.subst_json.specs.InPlace.{Lists};
ghost use Rattle.subst_json.specs.Listed.{AreAllRefused, IsListing};

use crate::exact_spans::are_exact;
use crate::paths::JsonPaths;
use crate::tokens::{JsonStrings, JsonTokens};
use crate::{Error, Path};
use json::Scratch;
use serde_json::Value;
use std::alloc::{AllocError, Global};
use std::convert::AsStr;
use subst_document::{Fill, Filler, StringAt, refusals};
use subst_language::VariableMap;

/// A refused string of a JSON text, with its path and span.
pub type RefusalAt = subst_document::RefusalAt<Path>;

/// Lists the string values of `source`, a JSON text, in document order. Keys aren't listed. If several
/// members have the same key, the string of each is listed. Each span is checked before it is returned, by
/// reading it again. The result is `None` if this check fails; no text is known for which the check fails.
///
/// # Errors
///
/// `Json` if the source isn't JSON, as `serde_json` decides, or `OutOfMemory` if allocation fails.
pub fn strings(alloc: Global, source: &str) -> Result<Option<Vec<StringAt>>, Error>
    ensures listed { Lists (IsListing source.now) source.now result }
{
    Value::from_str(alloc, source)?;
    Ok(listed(alloc, source)?)
}

/// Lists in document order the strings of `source`, a JSON text, that are refused when filled in from
/// `variables`. The values of `variables` are texts. Each span is checked before it is returned, by reading
/// it again. The result is `None` if this check fails; no text is known for which the check fails.
///
/// # Errors
///
/// `Json` if the source isn't JSON, as `serde_json` decides, or `OutOfMemory` if allocation fails.
pub fn refusals_in<'a, M: VariableMap<'a>>(
    alloc: Global,
    source: &str,
    variables: &'a M,
) -> Result<Option<Vec<RefusalAt>>, Error>
where
    M::Value: AsStr + Drop,
    ensures listed { Lists
        (AreAllRefused (AnswersText M.Value.text M.see (M.look_up variables.now)) source.now)
        source.now result }
{
    refusals_by(alloc, source, &Filler { variables })
}

/// Lists the strings that `filler` refuses in `source`, a JSON text, as [`refusals_in`] does.
///
/// # Errors
///
/// As [`refusals_in`].
pub fn refusals_by<F: Fill>(
    alloc: Global,
    source: &str,
    filler: &F,
) -> Result<Option<Vec<RefusalAt>>, Error>
    ensures listed { Lists (AreAllRefused (F.answers filler.now) source.now) source.now result }
{
    Value::from_str(alloc, source)?;
    Ok(refusals_of(alloc, source, filler)?)
}

/// Returns the strings among the tokens of a text, or `None` if a span isn't confirmed.
fn listed(alloc: Global, source: &str) -> Result<Option<Vec<StringAt>>, AllocError>
    ensures { IfOk result (λ list. IfSome list (λ list. IsListing source.now list.items)) }
{
    let mut scratch = Scratch::new(alloc);
    let mut format = JsonStrings::new(alloc);
    let mut strings = JsonTokens::new(source, &mut scratch)?;
    let Some(list) = subst_document::listed(alloc, source, &mut strings, &mut format)? else {
        return Ok(None);
    };
    if are_exact(alloc, source, list.as_slice())? {
        Ok(Some(list))
    } else {
        Ok(None)
    }
}

/// Returns the refused strings among the tokens of a text, or `None` if a span isn't confirmed or a path
/// isn't found.
///
/// # Errors
///
/// If allocation fails.
pub(crate) fn refusals_of<F: Fill>(
    alloc: Global,
    source: &str,
    filler: &F,
) -> Result<Option<Vec<RefusalAt>>, AllocError>
    ensures { IfOk result (λ list. IfSome list
        (λ list. AreAllRefused (F.answers filler.now) source.now list.items)) }
{
    let Some(list) = listed(alloc, source)? else {
        return Ok(None);
    };
    refusals(alloc, list.as_slice(), &JsonPaths { source }, filler)
}

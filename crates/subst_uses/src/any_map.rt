//! Callers with maps of any kind. Contracts state the position of a refusal, even if the bytes of values are
//! unknown. For maps of bytes, contracts state the output too.

ghost use Rattle.std.specs.Prelude.{◌≡◌, ◌≤◌, length, IfErr, IfOk, IfSome};
ghost use Rattle.subst.specs.ErrorFault.{error_fault};
ghost use Rattle.subst.specs.Range.{range_of};
ghost use Rattle.subst.specs.Language.Answer.{Answers, Refuses};
ghost use Rattle.subst.specs.Calls.Clauses.{HasOutput};
ghost use Rattle.subst.specs.Calls.VariableMap.{ByNames};
ghost use Rattle.subst.specs.Calls.Outcome.{OnFault, answer_of};

use std::alloc::Global;
use std::convert::AsSlice;
use std::ops::Range;
use subst::{BytesMap, Error, VariableMap, substitute_bytes};

/// The error of a source, and its range.
#[derive(Debug, PartialEq, Eq, Drop)]
pub struct Refusal {
    pub error: Error,
    /// The byte range of the source that the error is about. It is empty if memory ran out.
    pub range: Range<usize>,
}

/// Expands a source from a map of any kind, or returns the source's error with its range.
///
/// # Errors
///
/// As `substitute_bytes`.
pub fn filled_or_refused<'a, M: VariableMap<'a>>(
    alloc: Global,
    source: &[u8],
    variables: &'a M,
) -> Result<Vec<u8>, Refusal>
where
    M::Value: AsSlice<u8> + Drop,
    ensures complete { IfOk result (λ output. HasOutput (M.look_up variables.now) source.now) }
    ensures refusal { ByNames (M.look_up variables.now)
        (λ look. OnFault (λ refusal. error_fault refusal.error) result
        (λ f. Answers source.now look (Refuses f))) }
    ensures place { IfErr result (λ refusal. refusal.range ≡ range_of (error_fault refusal.error)) }
    ensures within { IfErr result (λ refusal. refusal.range.end ≤ length source.now) }
{
    match substitute_bytes(alloc, source, variables) {
        Ok(output) => Ok(output),
        Err(error) => {
            let range = error.source_range();
            Err(Refusal { error, range })
        }
    }
}

/// Expands a source from a map of bytes.
///
/// # Errors
///
/// As `substitute_bytes`.
pub fn filled_in<'a, M: BytesMap<'a>>(
    alloc: Global,
    source: &[u8],
    variables: &'a M,
) -> Result<Vec<u8>, Error>
where
    M::Value: AsSlice<u8> + Drop,
    ensures { IfSome (answer_of (λ output. output.items) result)
        (Answers source.now (M.look_up_bytes variables.now)) }
{
    substitute_bytes(alloc, source, variables)
}

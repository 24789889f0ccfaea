//! Substitutions into a caller's buffer. Their errors never allocate.

ghost use Rattle.std.specs.Prelude.{◌≡◌, ◌≤◌, IfOk, OnErr};
ghost use Rattle.std.specs.Prelude.{string_bytes, string_capacity, string_len, vec_capacity, vec_len};
ghost use Rattle.subst_error.specs.ErrorFault.{substitute_into_fault};
ghost use Rattle.subst_language.specs.Language.Sentence.{IsSentence};
ghost use Rattle.subst_language.specs.Calls.VariableMap.{ByLookUp};
ghost use Rattle.subst_language.specs.Calls.Outcome.{SubstitutesInto};
ghost use Rattle.subst_language.specs.Calls.Clauses.{ByWritten, HasOutput, NeedsMemory, OverflowsParsed, StatesRefusal, StatesKind, EndsWithin, IsRangedIn};

use crate::one_pass;
use std::alloc::Global;
use std::convert::{AsSlice, AsStr};
use subst_error::SubstituteIntoError;
use subst_expand::SliceBytes;
use subst_language::VariableMap;
use subst_parse::plain_len;

/// Expands `source` as [`substitute_bytes`](crate::substitute_bytes) does, and appends the bytes to `output`.
///
/// ```rust
/// let mut output = Vec::from_slice(alloc, b"> ")?;
/// let _ = substitute_bytes_into(alloc, b"Hello ${name:nobody}!", &mut output, &NoSubstitution);
/// // > Hello nobody!
/// ```
///
/// # Errors
///
/// As [`substitute_bytes`](crate::substitute_bytes), with the name of a missing variable borrowed from the
/// source. The items of `output` are then unchanged.
///
/// - `Parse(OutOfMemory)` only if a default begins in the source, as in `${name:`: open defaults are kept in
///   memory.
/// - `Expand(OutOfMemory)` only if the spare capacity of `output` is too small for the bytes to write: the
///   whole output or, if a variable is missing, the output before it.
pub fn substitute_bytes_into<'s, 'a, M: VariableMap<'a>>(
    alloc: Global,
    source: &'s [u8],
    output: &mut Vec<u8>,
    variables: &'a M,
) -> Result<(), SubstituteIntoError<'s>>
where
    M::Value: AsSlice<u8> + Drop,

    // The result states the source's only answer under the map's look-up.
    ensures answer { ByLookUp M.Value.items M.see (M.look_up variables.now)
        (λ look. SubstitutesInto source.now output.old.items result output.new.items look) }

    // For any map, an error leaves the items unchanged, and the capacity only grows.
    ensures kept { OnErr result (output.new.items ≡ output.old.items) }
    ensures capacity { vec_capacity output.old ≤ vec_capacity output.new }

    // The parse runs out of memory only if a default begins in the source. The expansion runs out of memory
    // only if the spare capacity is too small for the bytes that it has to write.
    ensures cause { NeedsMemory source.now result }
    ensures full { ByWritten M.Value.items M.see (M.look_up variables.now) source.now
        (OverflowsParsed (vec_capacity output.old) (vec_len output.old) result) }

    // Only a sentence has an output or a missing variable, and never both; any other source has a fault. The
    // range of an error ends within the source.
    ensures sentence { IfOk result (λ done. IsSentence source.now) }
    ensures complete { IfOk result (λ done. HasOutput (M.look_up variables.now) source.now) }
    ensures kind { StatesKind source.now result }
    ensures refusal { StatesRefusal (M.look_up variables.now) source.now
        substitute_into_fault result }
    ensures range { EndsWithin source.now substitute_into_fault result }
{
    let plain = plain_len(source);
    one_pass::substitute_into::<M, SliceBytes>(alloc, source, plain, variables, output)
}

/// Expands `source` as [`substitute`](crate::substitute) does, and appends the text to `output`.
///
/// ```rust
/// let mut output = String::from_str(alloc, "> ")?;
/// let _ = substitute_into(alloc, "Hello ${name:nobody}!", &mut output, &NoSubstitution);
/// // > Hello nobody!
/// ```
///
/// # Errors
///
/// As [`substitute_bytes_into`]. The text in `output` is then unchanged.
pub fn substitute_into<'s, 'a, M: VariableMap<'a>>(
    alloc: Global,
    source: &'s str,
    output: &mut String,
    variables: &'a M,
) -> Result<(), SubstituteIntoError<'s>>
where
    M::Value: AsStr + Drop,

    // The result states the source's only answer under the map's look-up.
    ensures answer { ByLookUp M.Value.text M.see (M.look_up variables.now)
        (λ look. SubstitutesInto source.now (string_bytes output.old) result
        (string_bytes output.new) look) }

    // For any map, an error leaves the text unchanged, and the capacity only grows.
    ensures kept { OnErr result (string_bytes output.new ≡ string_bytes output.old) }
    ensures capacity { string_capacity output.old ≤ string_capacity output.new }

    // The parse runs out of memory only if a default begins in the source. The expansion runs out of memory
    // only if the spare capacity is too small for the bytes that it has to write.
    ensures cause { NeedsMemory source.now result }
    ensures full { ByWritten M.Value.text M.see (M.look_up variables.now) source.now
        (OverflowsParsed (string_capacity output.old) (string_len output.old) result) }

    // Only a sentence has an output or a missing variable, and never both; any other source has a fault. The
    // range of an error is in the source.
    ensures sentence { IfOk result (λ done. IsSentence source.now) }
    ensures complete { IfOk result (λ done. HasOutput (M.look_up variables.now) source.now) }
    ensures kind { StatesKind source.now result }
    ensures refusal { StatesRefusal (M.look_up variables.now) source.now
        substitute_into_fault result }
    ensures range { IsRangedIn source.now substitute_into_fault result }
{
    let plain = plain_len(source.as_bytes());
    one_pass::substitute_text_into(alloc, source, plain, variables, output)
}

//! Substitutions in owned sources. A source without variables and escapes is returned as it is, without a
//! copy.

ghost use Rattle.std.specs.Prelude.{◌≡◌, ◌↔◌, IfOk, IfSome, IsTrue, Ok, string_bytes};
ghost use Rattle.std.specs.List.{All};
ghost use Rattle.subst_error.specs.ErrorFault.{error_fault};
ghost use Rattle.subst_language.specs.Language.Answer.{Answers};
ghost use Rattle.subst_language.specs.Language.Bytes.{IsPlain};
ghost use Rattle.subst_language.specs.Language.Sentence.{IsSentence};
ghost use Rattle.subst_language.specs.Calls.VariableMap.{ByLookUp, ByNames};
ghost use Rattle.subst_language.specs.Calls.Outcome.{answer_of, refusal_of};
ghost use Rattle.subst_language.specs.Calls.Clauses.{EndsWithin, HasOutput, IsRangedIn};

use crate::one_pass;
use std::alloc::Global;
use std::convert::{AsSlice, AsStr};
use subst_error::Error;
use subst_expand::SliceBytes;
use subst_language::VariableMap;
use subst_parse::plain_len;

/// The initial capacity of an output beyond its source's length, in bytes. It is small, since outputs of
/// owned sources are often kept, for example as the strings of a JSON tree.
const KEPT_CAPACITY: u8 = 24;

/// Returns whether a source has no `$` and no `\`. It then expands to itself, whatever the variables.
///
/// ```rust
/// let output = format!(in alloc; "{} {}", escape::is_plain(b"{a: b}"), escape::is_plain(b"$a"))?;
/// // true false
/// ```
pub fn is_plain(source: &[u8]) -> bool
    ensures plain { IsTrue result ↔ All IsPlain source.now }
{
    plain_len(source) == source.len()
}

/// Expands the bytes of an owned `source`, as [`substitute_bytes`] does. A source without `$` and `\` is
/// returned as it is, without allocating.
///
/// ```rust
/// let source = Vec::from_slice(alloc, b"Hello ${name:nobody}!")?;
/// let output = substitute_bytes_owned(alloc, source, &NoSubstitution)?;
/// // Hello nobody!
/// ```
///
/// # Errors
///
/// As [`substitute_bytes`]. A source without `$` and `\` has no error.
pub fn substitute_bytes_owned<'a, M: VariableMap<'a>>(
    alloc: Global,
    source: Vec<u8>,
    variables: &'a M,
) -> Result<Vec<u8>, Error>
where
    M::Value: AsSlice<u8> + Drop,

    // The result states the source's only answer under the map's look-up.
    ensures answer { ByLookUp M.Value.items M.see (M.look_up variables.now)
        (λ look. IfSome (answer_of (λ output. output.items) result)
        (Answers source.items look)) }

    // For any map: only a sentence has an output, and only if no variable is missing. An error states the
    // source's refusal, whose range ends within the source.
    ensures sentence { IfOk result (λ output. IsSentence source.items) }
    ensures complete { IfOk result (λ output. HasOutput (M.look_up variables.now) source.items) }
    ensures refusal { ByNames (M.look_up variables.now)
        (λ look. IfSome (refusal_of result) (Answers source.items look)) }
    ensures range { EndsWithin source.items error_fault result }

    // A plain source is returned as it is, even if no memory is left.
    ensures plain { All IsPlain source.items → result ≡ Ok source }
{
    let plain = plain_len(&source);
    if plain == source.len() {
        return Ok(source);
    }
    one_pass::substitute::<M, SliceBytes>(alloc, &source, plain, KEPT_CAPACITY, variables)
}

/// Expands an owned text `source`, as [`substitute`] does. A source without `$` and `\` is returned as it is,
/// without allocating.
///
/// ```rust
/// let source = String::from_str(alloc, "Hello ${name:nobody}!")?;
/// let output = substitute_owned(alloc, source, &NoSubstitution)?;
/// // Hello nobody!
/// ```
///
/// # Errors
///
/// As [`substitute`]. A source without `$` and `\` has no error.
pub fn substitute_owned<'a, M: VariableMap<'a>>(
    alloc: Global,
    source: String,
    variables: &'a M,
) -> Result<String, Error>
where
    M::Value: AsStr + Drop,

    // The result states the source's only answer under the map's look-up.
    ensures answer { ByLookUp M.Value.text M.see (M.look_up variables.now)
        (λ look. IfSome (answer_of (λ output. string_bytes output) result)
        (Answers (string_bytes source) look)) }

    // For any map: only a sentence has an output, and only if no variable is missing. An error states the
    // source's refusal, with a range in the source, as `source_line` and `source_highlighting` require.
    ensures sentence { IfOk result (λ output. IsSentence (string_bytes source)) }
    ensures complete { IfOk result
        (λ output. HasOutput (M.look_up variables.now) (string_bytes source)) }
    ensures refusal { ByNames (M.look_up variables.now)
        (λ look. IfSome (refusal_of result) (Answers (string_bytes source) look)) }
    ensures range { IsRangedIn (string_bytes source) error_fault result }

    // A plain source is returned as it is, even if no memory is left.
    ensures plain { All IsPlain (string_bytes source) → result ≡ Ok source }
{
    let plain = plain_len(source.as_bytes());
    if plain == source.len() {
        return Ok(source);
    }
    one_pass::substitute_text(alloc, source.as_str(), plain, KEPT_CAPACITY, variables)
}

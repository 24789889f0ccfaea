//! Templates over byte strings and texts. `substitute_bytes` and `substitute` parse and expand a source in
//! one pass.
//!
//! `subst` re-exports all public items of this crate, and describes the language.
#![tactic(auto)]

ghost use Rattle.std.specs.Prelude.{IfOk, IfSome, string_bytes};
ghost use Rattle.subst_error.specs.ErrorFault.{error_fault};
ghost use Rattle.subst_language.specs.Language.Answer.{Answers};
ghost use Rattle.subst_language.specs.Language.Sentence.{IsSentence};
ghost use Rattle.subst_language.specs.Calls.VariableMap.{ByLookUp, ByNames};
ghost use Rattle.subst_language.specs.Calls.Outcome.{answer_of, refusal_of};
ghost use Rattle.subst_language.specs.Calls.Clauses.{EndsWithin, HasOutput, IsRangedIn};

pub use into::{substitute_bytes_into, substitute_into};
pub use owned::{is_plain, substitute_bytes_owned, substitute_owned};
use std::alloc::Global;
use std::convert::{AsSlice, AsStr};
use subst_error::Error;
use subst_expand::SliceBytes;
use subst_language::VariableMap;
use subst_parse::plain_len;
pub use template::{ByteTemplate, ByteTemplateBuf, Template, TemplateBuf};

mod into;
mod one_pass;
mod owned;
mod parse;
mod template;

/// The initial capacity of an output beyond its source's length, in bytes. Most values are longer than their
/// placeholders.
const MORE_CAPACITY: u8 = 64;

/// Expands the bytes of `source` with the values of `variables`.
///
/// For every byte source and variable map, want of memory aside, `substitute_bytes` answers bytes exactly
/// where the source is the text of a well-formed written tree whose value under the map is these bytes;
/// otherwise it answers the source's one fault, or for a sentence the first name that its evaluation needs
/// and the map lacks, each at its place.
///
/// ```rust
/// let mut variables = BTreeMap::new(alloc);
/// variables.insert("name", b"world")?;
/// let output = substitute_bytes(alloc, b"Hello ${name:nobody}!", &variables)?;
/// // Hello world!
/// ```
///
/// # Errors
///
/// Positions are byte offsets in the whole source, from 0.
///
/// - `InvalidEscapeSequence`, `MissingVariableName`, `UnexpectedCharacter` or `MissingClosingBrace` if the
///   source isn't a sentence of the template language: its first fault.
/// - Otherwise `NoSuchVariable` for the first needed name that `variables` has no value for.
/// - `OutOfMemory` if allocation fails.
pub fn substitute_bytes<'a, M: VariableMap<'a>>(
    alloc: Global,
    source: &[u8],
    variables: &'a M,
) -> Result<Vec<u8>, Error>
where
    M::Value: AsSlice<u8> + Drop,

    // The result states the source's only answer under the map's look-up.
    ensures answer { ByLookUp M.Value.items M.see (M.look_up variables.now)
        (λ look. IfSome (answer_of (λ output. output.items) result) (Answers source.now look)) }

    // For any map: only a sentence has an output, and only if no variable is missing. An error states the
    // source's refusal, whose range ends within the source.
    ensures sentence { IfOk result (λ output. IsSentence source.now) }
    ensures complete { IfOk result (λ output. HasOutput (M.look_up variables.now) source.now) }
    ensures refusal { ByNames (M.look_up variables.now)
        (λ look. IfSome (refusal_of result) (Answers source.now look)) }
    ensures range { EndsWithin source.now error_fault result }
{
    let plain = plain_len(source);
    if plain == source.len() {
        return Ok(Vec::from_slice(alloc, source)?);
    }
    one_pass::substitute::<M, SliceBytes>(alloc, source, plain, MORE_CAPACITY, variables)
}

/// Expands the text `source` with `variables`, whose values are texts.
///
/// The output is that of [`substitute_bytes`] for the bytes of the source and of the values. It is proved to
/// be UTF-8, so there is no error for invalid UTF-8.
///
/// ```rust
/// let mut variables = BTreeMap::new(alloc);
/// variables.insert("name", "$world")?;
/// let output = substitute(alloc, "Hello $name${title?}, ${a:or ${b:you}}!", &variables)?;
/// // Hello $world, or you!
/// ```
///
/// # Errors
///
/// As [`substitute_bytes`]. Positions are byte offsets in the whole source, from 0.
pub fn substitute<'a, M: VariableMap<'a>>(
    alloc: Global,
    source: &str,
    variables: &'a M,
) -> Result<String, Error>
where
    M::Value: AsStr + Drop,

    // The result states the source's only answer under the map's look-up.
    ensures answer { ByLookUp M.Value.text M.see (M.look_up variables.now)
        (λ look. IfSome (answer_of (λ output. string_bytes output) result)
        (Answers source.now look)) }

    // For any map: only a sentence has an output, and only if no variable is missing. An error states the
    // source's refusal, with a range in the source, as `source_line` and `source_highlighting` require.
    ensures sentence { IfOk result (λ output. IsSentence source.now) }
    ensures complete { IfOk result (λ output. HasOutput (M.look_up variables.now) source.now) }
    ensures refusal { ByNames (M.look_up variables.now)
        (λ look. IfSome (refusal_of result) (Answers source.now look)) }
    ensures range { IsRangedIn source.now error_fault result }
{
    let plain = plain_len(source.as_bytes());
    if plain == source.len() {
        return Ok(String::from_str(alloc, source)?);
    }
    one_pass::substitute_text(alloc, source, plain, MORE_CAPACITY, variables)
}

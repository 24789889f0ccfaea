//! The expansion of a source that is a text. The output is a text too, and the range of an error begins and
//! ends at character boundaries of the source.

ghost use Rattle.std.specs.Prelude.{◌≡◌, ◌+◌, ◌<◌, ◌≤◌, length, IfErr, IfSome, OnErr};
ghost use Rattle.std.specs.Prelude.{string_bytes, string_capacity, string_len};
ghost use Rattle.std.specs.String.{string_vec};
ghost use Rattle.std.specs.Str.{IsUtf8};
ghost use Rattle.subst_error.specs.ErrorFault.{expand_fault, expand_into_fault};
ghost use Rattle.subst_error.specs.Range.{range_of, IsRangeIn};
ghost use Rattle.subst_language.specs.Language.Answer.{IsMissing};
ghost use Rattle.subst_language.specs.Language.Sentence.{ByTree};
ghost use Rattle.subst_language.specs.Language.Value.{value};
ghost use Rattle.subst_language.specs.Calls.VariableMap.{ByLookUp, ByNames};
ghost use Rattle.subst_language.specs.Language.Written.{written};
ghost use Rattle.subst_language.specs.Calls.Outcome.{Expands, ExpandsInto, OnOutOfMemory};
ghost use Rattle.subst_language.specs.Parts.Meaning.{IsTemplateOf};

use crate::expand::{expand, expand_into};
use crate::part_vec::CowParts;
use crate::read_value::TextBytes;
use crate::turns::Turns;
use std::alloc::Global;
use std::convert::AsStr;
use std::mem;
use subst_error::{ExpandError, ExpandIntoError};
use subst_language::VariableMap;

/// Expands the parts of a text with the values of `variables`.
///
/// # Errors
///
/// `NoSuchVariable` for the first needed name without a value, or out of memory.
pub fn expand_text<'a, M: VariableMap<'a>>(
    alloc: Global,
    source: &str,
    parts: &CowParts<'_>,
    variables: &'a M,
) -> Result<String, ExpandError>
where
    M::Value: AsStr + Drop,
    requires { IsTemplateOf source.now parts.now }
    ensures value { ByLookUp M.Value.text M.see (M.look_up variables.now)
        (λ look. ByTree source.now
        (λ t. Expands (λ output. string_bytes output) result (value 0 t look))) }
    ensures missing { ByNames (M.look_up variables.now) (λ look. ByTree source.now
        (λ t. IfErr result (λ e. IfSome (expand_fault e) (IsMissing (value 0 t look))))) }
    ensures range { IfErr result (λ e. IsRangeIn source.now (range_of (expand_fault e))) }
{
    let mut turns = Turns::new();
    match expand::<M, TextBytes>(alloc, source.as_bytes(), parts, variables, &mut turns) {
        Ok(output) => Ok(text_of(output)),
        Err(e) => Err(e),
    }
}

/// Appends the result of `expand_text` to `output`.
///
/// # Errors
///
/// As `expand_text`. The text in `output` is then unchanged.
pub fn expand_text_into<'s, 'a, M: VariableMap<'a>>(
    source: &'s str,
    parts: &CowParts<'_>,
    variables: &'a M,
    output: &mut String,
) -> Result<(), ExpandIntoError<'s>>
where
    M::Value: AsStr + Drop,
    requires { IsTemplateOf source.now parts.now }
    ensures value { ByLookUp M.Value.text M.see (M.look_up variables.now)
        (λ look. ByTree source.now (λ t. ExpandsInto (string_bytes output.old) result
        (string_bytes output.new) (value 0 t look))) }
    ensures kept { OnErr result (string_bytes output.new ≡ string_bytes output.old) }

    // Out of memory only if the capacity is less than the output needs.
    ensures full { ByLookUp M.Value.text M.see (M.look_up variables.now)
        (λ look. ByTree source.now (λ t. OnOutOfMemory expand_into_fault result
        (string_capacity output.old < string_len output.old + length (written 0 t look)))) }
    ensures capacity { string_capacity output.old ≤ string_capacity output.new }
    ensures missing { ByNames (M.look_up variables.now) (λ look. ByTree source.now
        (λ t. IfErr result (λ e. IfSome (expand_into_fault e) (IsMissing (value 0 t look))))) }
    ensures range { IfErr result (λ e. IsRangeIn source.now (range_of (expand_into_fault e))) }
{
    let mut bytes = mem::replace(output, String::new(*output.allocator())).into_bytes();
    let mut turns = Turns::new();
    let source = source.as_bytes();
    let outcome = expand_into::<M, TextBytes>(source, parts, variables, &mut turns, &mut bytes);
    *output = text_of(bytes);
    outcome
}

/// Converts bytes that are UTF-8 into a text, without testing them.
pub fn text_of(bytes: Vec<u8>) -> String
    requires { IsUtf8 bytes.items }
    ensures bytes { string_bytes result ≡ bytes.items }
    ensures vec { string_vec result ≡ bytes }
{
    unsafe { String::from_utf8_unchecked(bytes) }
}

//! Expanding a source with pairs, describing the source's fault, and checking whether source and values are
//! UTF-8.

ghost use Rattle.std.specs.Prelude.{◌≡◌, ◌≤◌, IfErr, IfOk, IfSome, MatchOption, length, string_bytes, true, false};
ghost use Rattle.std.specs.Str.{is_utf8};
ghost use Rattle.subst_language.specs.Calls.Outcome.{answer_of};
ghost use Rattle.subst_language.specs.Language.Answer.{Answers};
ghost use Rattle.subst_error.specs.Display.{IsDisplayOfError, IsDisplayOfFault};
ghost use Rattle.subst_error.specs.ErrorFault.{error_fault};
ghost use Rattle.subst_error.specs.Range.{range_of};
ghost use Rattle.subst_c.specs.Pairs.{pair_value};
ghost use Rattle.subst_c.specs.Text.{IsFaultTextOf, IsHighlighting, are_texts as all_are_texts, have_texts};

use crate::pairs::{Pair, Pairs, TextPairs, index_of};
use std::alloc::{AllocError, Global};
use std::fmt::{Display, Formatter};
use subst_error::Error;
use subst_template::substitute_bytes;

/// Expands the source with the pairs.
///
/// # Errors
///
/// If the source is refused, or if allocation fails.
pub fn fill_in(alloc: Global, source: &[u8], pairs: &[Pair]) -> Result<Vec<u8>, Error>
    ensures answer { IfSome (answer_of (λ output. output.items) result)
        (Answers source.now (pair_value pairs.now)) }
    ensures range { IfErr result (λ e. (range_of (error_fault e)).end ≤ length source.now) }
{
    let index = index_of(alloc, source, pairs);
    substitute_bytes(alloc, source, &Pairs { pairs, index })
}

/// Returns the text of the source's fault, or an empty text if the source isn't refused.
///
/// # Errors
///
/// If allocation fails.
pub fn fault_text(alloc: Global, source: &[u8], pairs: &[Pair]) -> Result<String, AllocError>
    ensures { IfOk result (λ text. IsFaultTextOf (Answers source.now (pair_value pairs.now))
        IsDisplayOfFault (string_bytes text)) }
{
    match fill_in(alloc, source, pairs) {
        Ok(_) => Ok(String::new(alloc)),
        Err(e) => match e {
            Error::OutOfMemory(e) => Err(e),
            e => text_of(alloc, &e),
        },
    }
}

/// Returns the text of an error.
///
/// # Errors
///
/// If allocation fails.
pub fn text_of(alloc: Global, e: &Error) -> Result<String, AllocError>
    ensures { IfOk result (λ text. IsDisplayOfError (error_fault e.now) (string_bytes text)) }
{
    let mut f = Formatter::new(String::new(alloc));
    match e.fmt(&mut f) {
        Ok(()) => Ok(f.into_inner()),
        Err(_) => Err(AllocError),
    }
}

/// Returns the line of the source's fault, with the fault underlined. The result is empty if the source isn't
/// refused, or if the line is wider than 60 columns.
///
/// # Errors
///
/// If allocation fails.
pub fn fault_highlighting(alloc: Global, source: &str, pairs: &[Pair]) -> Result<String, AllocError>
    ensures { IfOk result (λ text. IsFaultTextOf (Answers source.now (pair_value pairs.now))
        (IsHighlighting source.now) (string_bytes text)) }
{
    match fill_in(alloc, source.as_bytes(), pairs) {
        Ok(_) => Ok(String::new(alloc)),
        Err(e) => match e {
            Error::OutOfMemory(e) => Err(e),
            e => e.source_highlighting(alloc, source),
        },
    }
}

/// Returns the source as a text and the pairs as a map of texts, or `None` if the source or a value isn't
/// UTF-8.
pub fn as_texts<'a>(
    alloc: Global,
    source: &'a [u8],
    pairs: &'a [Pair<'a>],
) -> Option<(&'a str, TextPairs<'a>)>
    ensures { MatchOption result (all_are_texts source.now pairs.now ≡ false)
        (λ (text, map). (text.now ≡ source.now) × (map.pairs.pairs.now ≡ pairs.now)
        × (all_are_texts source.now pairs.now ≡ true)) }
{
    let Ok(text) = simdutf8::basic::from_utf8(source) else {
        return None;
    };
    if !values_are_texts(pairs) {
        return None;
    }
    let index = index_of(alloc, source, pairs);
    let pairs = Pairs { pairs, index };
    Some((text, TextPairs { pairs }))
}

/// Returns whether the source and the values of all pairs are UTF-8.
pub fn are_texts(source: &[u8], pairs: &[Pair]) -> bool
    ensures { result ≡ all_are_texts source.now pairs.now }
{
    is_text(source) && values_are_texts(pairs)
}

/// Returns whether the values of all pairs are UTF-8.
fn values_are_texts(pairs: &[Pair]) -> bool
    ensures { result ≡ have_texts pairs.now }
{
    pairs.iter().all(|pair| is_text(pair.value))
}

/// Returns whether the bytes are UTF-8.
pub fn is_text(bytes: &[u8]) -> bool
    ensures { result ≡ is_utf8 bytes.now }
{
    simdutf8::basic::from_utf8(bytes).is_ok()
}

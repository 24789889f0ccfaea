//! The change of a value: whether its string is replaced when it is filled in.

ghost use Rattle.std.specs.Prelude.{◌≡◌, ◌∷◌, [], ℕ, List, IfOk, option_map, string_bytes};
ghost use Rattle.subst_error.specs.ErrorFault.{error_fault};
ghost use Rattle.subst_language.specs.Calls.Outcome.{OnFault};
ghost use Rattle.subst_language.specs.Language.Answer.{Refuses};
ghost use Rattle.subst_document.specs.Texts.{HasRange};
ghost use Rattle.subst_yaml.specs.Filled.{string_of, strings_of, text_of};
ghost use Rattle.subst_yaml.specs.Passes.{IsChangeOf};

use crate::token::may_change;
use std::alloc::{AllocError, Global};
use subst_document::{Fill, changed};
use subst_error::Error;
use subst_yaml_reader::{Style, value_of};

/// The change of a value when it is filled in.
#[derive(Drop)]
pub(crate) enum Change {
    /// The value is unchanged.
    Kept,
    /// The string that replaces the value's string.
    Replaced(String),
}

/// Returns bytes as text, or `None` if they aren't UTF-8.
fn text_of(bytes: Vec<u8>) -> Option<String>
    ensures { option_map (λ text. string_bytes text) result ≡ text_of bytes.items }
{
    match String::from_utf8(bytes) {
        Ok(text) => {
            // Only the proof needs this borrow: the bytes of a `&str` are known to be UTF-8.
            let _text = text.as_str();
            Some(text)
        }
        Err(_) => None,
    }
}

/// Returns the string that a value's token spells, or `None` for an alias or a token that can't be read.
/// `indent` is the number of spaces before each line of a value after `|` or `>`.
///
/// # Errors
///
/// If allocation fails.
#[tactic(auto, unfolding(crate::specs::Filled::string_of))]
pub(crate) fn string_of(
    alloc: Global,
    style: Style,
    indent: usize,
    token: &[u8],
) -> Result<Option<String>, AllocError>
    ensures { IfOk result (λ string. option_map (λ text. string_bytes text) string
        ≡ string_of style indent token.now) }
{
    match value_of(alloc, style, indent, token)? {
        Some(bytes) => Ok(text_of(bytes)),
        None => Ok(None),
    }
}

/// Returns the change of a token's value. The lines after `|` or `>` have `indent` spaces before their text.
///
/// # Errors
///
/// If the value's string is refused, or if allocation fails.
pub(crate) fn change_of<F: Fill>(
    alloc: Global,
    style: Style,
    indent: usize,
    token: &[u8],
    filler: &F,
) -> Result<Change, Error>
    ensures ok { IfOk result (IsChangeOf (F.answers filler.now) style indent token.now) }
    ensures err { OnFault error_fault result (λ f. (x : List ℕ)
        × (strings_of style indent token.now ≡ x ∷ []) × F.answers filler.now x (Refuses f)) }
    ensures range { OnFault error_fault result HasRange }
{
    if !may_change(style, token) {
        return Ok(Change::Kept);
    }
    let Some(text) = string_of(alloc, style, indent, token)? else {
        return Ok(Change::Kept);
    };
    match changed(alloc, text.as_str(), filler)? {
        Some(value) => Ok(Change::Replaced(value)),
        None => Ok(Change::Kept),
    }
}

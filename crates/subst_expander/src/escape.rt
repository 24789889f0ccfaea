//! Values escaped for the output's language.

ghost use Rattle.std.specs.Prelude.{◌≡◌, ◌++◌, ◌∷◌, [], ℕ, List, IfOk, string_bytes};
ghost use Rattle.json.specs.Print.{escape};
ghost use Rattle.subst_expander.specs.Layers.{escaped_by, word};

use crate::kinds::Escape;
use serde_json::Value;
use std::alloc::{AllocError, Global};

/// Escapes a value for the language `kind`, or copies it for [`Escape::Nothing`].
///
/// # Errors
///
/// If allocation fails.
pub fn escaped(alloc: Global, value: &str, kind: Escape) -> Result<String, AllocError>
    ensures { IfOk result (λ text. string_bytes text ≡ escaped_by kind value.now) }
{
    match kind {
        Escape::Nothing => String::from_str(alloc, value),
        Escape::Json => in_json(alloc, value),
        Escape::Sh => shell_word(alloc, value),
    }
}

/// Returns a text escaped for a JSON string, without the quotes.
fn in_json(alloc: Global, text: &str) -> Result<String, AllocError>
    ensures { IfOk result (λ inner. string_bytes inner ≡ escape text.now) }
{
    let quoted = Value::String(String::from_str(alloc, text)?).to_string(alloc)?;
    String::from_str(alloc, between_quotes(&quoted))
}

/// Returns a quoted text without its first and last byte, the quotes.
fn between_quotes(quoted: &str) -> &str
    requires { (x : List ℕ) × (quoted.now ≡ 34 ∷ x ++ 34 ∷ []) }
    ensures { (x : List ℕ) → (quoted.now ≡ 34 ∷ x ++ 34 ∷ []) → (result.now ≡ x) }
{
    let inner = &quoted.as_bytes()[1..quoted.len() - 1];
    // SAFETY: the quotes are ASCII.
    unsafe { str::from_utf8_unchecked(inner) }
}

/// Returns a text as one word of a shell, in single quotes.
fn shell_word(alloc: Global, text: &str) -> Result<String, AllocError>
    ensures { IfOk result (λ it. string_bytes it ≡ word text.now) }
{
    let mut word = String::from_str(alloc, "'")?;
    let mut rest = text;
    while let Some((before, after)) = rest.split_once('\'') {
        word.push_str(before)?;
        word.push_str("'\\''")?;
        rest = after;
    }
    word.push_str(rest)?;
    word.push_str("'")?;
    Ok(word)
}

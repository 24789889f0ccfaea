//! Escaping of texts: a template that expands to a given text, whatever the variables.

ghost use Rattle.std.specs.Prelude.{◌≡◌, ◌≤◌, ◌<◌, ◌+◌, ◌++◌, ℕ, List, ◌∷◌, length, IfOk, OnOk, OnErr};
ghost use Rattle.std.specs.Prelude.{string_bytes, string_capacity, string_len};
ghost use Rattle.std.specs.List.{position};
ghost use Rattle.subst_language.specs.Language.Bytes.{backslash};
ghost use Rattle.subst_language.specs.Language.Escaped as language;

use std::alloc::{AllocError, Global};

/// Returns the text with a backslash before each `\`, `$`, `{`, `}` and `:`. As a template or in a default,
/// the result expands to the text, whatever the variables.
///
/// # Errors
///
/// If allocation fails.
pub fn escaped(alloc: Global, text: &str) -> Result<String, AllocError>
    ensures escaped { IfOk result (λ template. string_bytes template ≡ language.escaped text.now) }
{
    let mut output = String::with_capacity(alloc, text.len())?;
    escape_into(text, &mut output)?;
    Ok(output)
}

/// Appends the text to `output`, escaped as by [`escaped`]. Allocates only if the capacity doesn't suffice.
///
/// # Errors
///
/// If the output has to grow and allocation fails. The output then keeps its text.
pub fn escape_into(text: &str, output: &mut String) -> Result<(), AllocError>
    ensures escaped { OnOk result
        (string_bytes output.new ≡ string_bytes output.old ++ language.escaped text.now) }
    ensures unchanged { OnErr result (string_bytes output.new ≡ string_bytes output.old) }
    ensures full { OnErr result
        (string_capacity output.old < string_len output.old + length (language.escaped text.now)) }
    ensures capacity { string_capacity output.old ≤ string_capacity output.new }
{
    let before = output.len();
    let result = append_escaped(text, output);
    if result.is_err() {
        output.truncate(before);
    }
    result
}

/// Appends the text to `output`, escaped as by [`escaped`].
///
/// # Errors
///
/// If the output has to grow and allocation fails. Part of the text may then have been appended.
fn append_escaped(text: &str, output: &mut String) -> Result<(), AllocError>
    ensures escaped { OnOk result
        (string_bytes output.new ≡ string_bytes output.old ++ language.escaped text.now) }
    ensures part { (part : List ℕ) × (string_bytes output.new ≡ string_bytes output.old ++ part) }
    ensures full { OnErr result
        (string_capacity output.old < string_len output.old + length (language.escaped text.now)) }
    ensures capacity { string_capacity output.old ≤ string_capacity output.new }
{
    let mut rest = text;
    while let Some(at) = first_special(rest) {
        output.push_str(&rest[..at])?;
        append_after_backslash(&rest[at..at + 1], output)?;
        rest = &rest[at + 1..];
    }
    output.push_str(rest)
}

/// Appends a backslash and the text to `output`.
///
/// # Errors
///
/// If the output has to grow and allocation fails. The backslash may then have been appended.
fn append_after_backslash(text: &str, output: &mut String) -> Result<(), AllocError>
    ensures escaped { OnOk result
        (string_bytes output.new ≡ string_bytes output.old ++ backslash ∷ text.now) }
    ensures part { (part : List ℕ) × (string_bytes output.new ≡ string_bytes output.old ++ part) }
    ensures full { OnErr result
        (string_capacity output.old < string_len output.old + (1 + length text.now)) }
    ensures capacity { string_capacity output.old ≤ string_capacity output.new }
{
    output.push('\\')?;
    output.push_str(text)
}

/// Returns the index of the first byte to escape, or `None` if there is none.
fn first_special(text: &str) -> Option<usize>
    ensures { result ≡ position language.is_special text.now }
{
    text.as_bytes().iter().position(|byte| is_special(*byte))
}

/// Returns whether a byte has to be escaped.
fn is_special(byte: u8) -> bool
    ensures { result ≡ language.is_special byte }
{
    matches!(byte, b'\\' | b'$' | b'{' | b'}' | b':')
}

//! Replaces the strings of a text with other bytes.

ghost use Rattle.std.specs.Prelude.{◌≡◌, ◌++◌, ℕ, List, IfOk, IfSome, OnOk, string_bytes};
ghost use Rattle.subst_document.specs.Plain.{with_plain as text_with_plain};

use crate::edits::{StringAt, slice};
use std::alloc::{AllocError, Global};

/// Values that replace the strings of a text.
pub trait Plain {
    // The bytes that replace the string at an index.
    ghost bytes: { Self → ℕ → List ℕ };

    /// Appends the bytes that replace the string at an index.
    ///
    /// # Errors
    ///
    /// If allocation fails.
    fn push(&self, alloc: Global, index: usize, output: &mut String) -> Result<(), AllocError>
        ensures { OnOk result
            (string_bytes output.new ≡ string_bytes output.old ++ bytes self.now index) };
}

/// Returns `source` with the strings of `list` replaced by the values of `plain`. Returns `None` if the spans
/// overlap, are out of order, or aren't in `source`.
///
/// # Errors
///
/// If allocation fails.
pub fn with_plain<P: Plain>(
    alloc: Global,
    source: &str,
    list: &[StringAt],
    plain: &P,
) -> Result<Option<String>, AllocError>
    ensures { IfOk result (λ text. IfSome text (λ text. string_bytes text
        ≡ text_with_plain (P.bytes plain.now) source.now 0 0 list.now)) }
{
    let mut output = String::with_capacity(alloc, source.len())?;
    let mut done = 0;
    for (index, it) in list.iter().enumerate() {
        let Some(before) = slice(source, &(done..it.span.start)) else {
            return Ok(None);
        };
        output.push_str(before)?;
        plain.push(alloc, index, &mut output)?;
        done = it.span.end;
    }
    let Some(rest) = slice(source, &(done..source.len())) else {
        return Ok(None);
    };
    output.push_str(rest)?;
    Ok(Some(output))
}

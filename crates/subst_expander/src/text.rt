//! Sources as text: UTF-8 and byte order marks.

ghost use Rattle.std.specs.Prelude.{◌≡◌, IfOk, IsTrue, IsUtf8, MatchOption};
ghost use Rattle.subst_expander.specs.Faults.{IsNoText};
ghost use Rattle.subst_expander.specs.Mark.{after_mark, filled_of, kept_of, mark_in};
ghost use Rattle.subst_expander.specs.ValuesFaults.{HasOne};

use crate::document::Format;
use crate::fault::{Cause, Fault, one_fault};
use crate::kinds::InputFormat;
use std::alloc::{AllocError, Global};

/// The byte order mark in UTF-8.
const BYTE_ORDER_MARK: &[u8] = b"\xEF\xBB\xBF";

/// Splits bytes into the byte order mark at their start, and the rest. Without a mark, the first part is
/// empty.
pub fn split_mark(bytes: &[u8]) -> (&[u8], &[u8])
    ensures mark { result.0.now ≡ mark_in bytes.now }
    ensures rest { result.1.now ≡ after_mark bytes.now }
{
    let Some(rest) = bytes.strip_prefix(BYTE_ORDER_MARK) else {
        return (&[], bytes);
    };
    (BYTE_ORDER_MARK, rest)
}

/// Splits a source into bytes to copy and bytes to expand. Offsets of faults are relative to the latter. Only
/// a byte order mark of JSON or YAML is copied, since the readers of these formats don't skip the mark.
pub fn split_source(form: InputFormat, source: &[u8]) -> (&[u8], &[u8])
    ensures kept { result.0.now ≡ kept_of form source.now }
    ensures filled { result.1.now ≡ filled_of form source.now }
{
    match form {
        InputFormat::Document(Format::Json | Format::Yaml) => split_mark(source),
        InputFormat::Document(Format::Toml) | InputFormat::Text | InputFormat::Bytes => {
            (&[], source)
        }
    }
}

/// Returns bytes as a text, or `None` if they aren't UTF-8.
pub fn text_of(bytes: &[u8]) -> Option<&str>
    ensures { MatchOption result (¬ (IsUtf8 bytes.now))
        (λ text. (text.now ≡ bytes.now) × IsUtf8 bytes.now) }
{
    simdutf8::basic::from_utf8(bytes).ok()
}

/// Returns whether bytes are UTF-8.
pub fn is_text(bytes: &[u8]) -> bool
    ensures { IsTrue result → IsUtf8 bytes.now }
{
    simdutf8::basic::from_utf8(bytes).is_ok()
}

/// Returns the fault of bytes that aren't UTF-8, at the first invalid byte.
///
/// # Errors
///
/// If allocation fails.
pub fn not_utf8(alloc: Global, bytes: &[u8]) -> Result<Vec<Fault>, AllocError>
    ensures { ¬ (IsUtf8 bytes.now)
        → IfOk result (λ faults. HasOne (IsNoText bytes.now) faults.items) }
{
    let start = match str::from_utf8(bytes) {
        Ok(text) => text.len(),
        Err(e) => e.valid_up_to(),
    };
    one_fault(alloc, start..start.saturating_add(1), Cause::NotUtf8)
}

//! Finds the placeholders and escapes in a string, as this language or another tool writes them.

ghost use Rattle.std.specs.Prelude.{◌≡◌, ◌≤◌, ◌<◌, ◌∷◌, IfOk, IfSome, IsTrue, length, slice_index, take};
ghost use Rattle.subst_language.specs.Language.Balanced.{IsBalanced};
ghost use Rattle.subst_language.specs.Language.Bytes.{backslash, dollar};
ghost use Rattle.subst_document.specs.Splice.{bare, IsPlaceholder};

use std::alloc::{AllocError, Global};
use std::ops::Range;
use subst_language::name_len;
use subst_template::is_plain;

/// Returns the spans of the outermost placeholders and escapes of a text, in order. Unless `has_escapes`, a
/// backslash is a plain byte.
///
/// # Errors
///
/// If allocation fails.
pub(crate) fn placeholders(
    alloc: Global,
    text: &str,
    has_escapes: bool,
) -> Result<Vec<Range<usize>>, AllocError> {
    let bytes = text.as_bytes();
    let mut found = FoundPlaceholders {
        spans: Vec::with_capacity(alloc, 1)?,
        open: Vec::new(alloc),
    };
    let mut at = 0;
    while at < bytes.len() {
        at += found.step(&bytes[at..], at, has_escapes)?.max(1);
    }
    Ok(found.spans)
}

/// Returns the span of a text's only placeholder or escape. Returns `None` if there is none, or if a `$` or
/// `\` is outside the span.
pub(crate) fn only_placeholder(text: &str) -> Option<Range<usize>> {
    let bytes = text.as_bytes();
    let start = bytes.iter().position(|byte| matches!(byte, b'$' | b'\\'))?;
    let placeholder = &bytes[start..];
    let rest = &placeholder[placeholder_len(placeholder)?..];
    if is_plain(rest) {
        Some(start..bytes.len() - rest.len())
    } else {
        None
    }
}

/// The placeholders found so far.
#[derive(Drop)]
struct FoundPlaceholders {
    spans: Vec<Range<usize>>,
    /// For each open brace, outermost first, the offset of its `${`, or `None` for a plain `{`.
    open: Vec<Option<usize>>,
}

impl FoundPlaceholders {
    /// Handles the placeholder, escape or brace that `rest` begins with, or skips plain bytes. Returns the
    /// number of bytes read. `at` is the offset of `rest` in the text.
    fn step(&mut self, rest: &[u8], at: usize, has_escapes: bool) -> Result<usize, AllocError>
        requires { 0 < length rest.now }
        ensures { IfOk result (λ len. len ≤ length rest.now) }
    {
        match rest {
            [b'$', b'{', inner @ ..] => {
                let name = name_len(inner);
                if inner.get(name) == Some(&b'}') {
                    self.spans.push(at..at.saturating_add(name + 3))?;
                    return Ok(name + 3);
                }
                self.open.push(Some(at))?;
                Ok(2)
            }
            [b'{', ..] => {
                self.open.push(None)?;
                Ok(1)
            }
            [b'}', ..] => {
                self.close(at)?;
                Ok(1)
            }
            [b'\\', ..] if !has_escapes => Ok(1),
            _ => match placeholder_len(rest) {
                Some(len) => {
                    self.spans.push(at..at.saturating_add(len))?;
                    Ok(len)
                }
                None => Ok(1 + plain_len(&rest[1..])),
            },
        }
    }

    /// Handles the `}` at offset `at`. If `$` precedes the matching `{`, the span of the whole `${..}`
    /// replaces the spans inside it.
    fn close(&mut self, at: usize) -> Result<(), AllocError> {
        let Some(Some(start)) = self.open.pop() else {
            return Ok(());
        };
        let inner = self
            .spans
            .iter()
            .rev()
            .take_while(|it| it.start > start)
            .count();
        let len = self.spans.len().saturating_sub(inner);
        self.spans.truncate(len);
        self.spans.push(start..at.saturating_add(1))?;
        Ok(())
    }
}

/// Returns the number of bytes before the first `$`, `\` or brace.
fn plain_len(text: &[u8]) -> usize
    ensures { result ≤ length text.now }
{
    let end = text
        .iter()
        .position(|byte| matches!(byte, b'$' | b'\\' | b'{' | b'}'));
    end.unwrap_or(text.len())
}

/// Returns whether a text is one placeholder or escape.
pub(crate) fn is_placeholder(text: &str) -> bool
    ensures { IsTrue result → IsPlaceholder text.now }
{
    placeholder_len(text.as_bytes()) == Some(text.len()) || is_bare(text.as_bytes())
}

/// Returns whether a text is `${..}` with matching braces. Backslashes don't escape here.
fn is_bare(text: &[u8]) -> bool
    ensures { IsTrue result → IsPlaceholder text.now }
{
    let Some((first, rest)) = text.split_first() else {
        return false;
    };
    let Some((second, inner)) = rest.split_first() else {
        return false;
    };
    if *first != b'$' || *second != b'{' {
        return false;
    }
    match bare_closing_brace(inner) {
        Some(at) => at + 1 == inner.len(),
        None => false,
    }
}

/// Returns the length of the placeholder or escape that a text begins with, or `None` if it begins with none.
fn placeholder_len(text: &[u8]) -> Option<usize>
    ensures within { IfSome result (λ len. len ≤ length text.now) }
    ensures some { IfSome result (λ len. 0 < len) }
    ensures placeholder { IfSome result (λ len. IsPlaceholder (take len text.now)) }
{
    let (first, rest) = text.split_first()?;
    let len = match *first {
        b'\\' => escape_len(rest)?,
        b'$' => variable_len(rest)?,
        _ => return None,
    };
    Some(len + 1)
}

/// Returns 1 if `text`, which follows a backslash, begins with a byte that can be escaped, or else `None`.
fn escape_len(text: &[u8]) -> Option<usize>
    ensures within { IfSome result (λ len. len ≤ length text.now) }
    ensures placeholder { IfSome result (λ len. IsPlaceholder (backslash ∷ take len text.now)) }
{
    let (first, _) = text.split_first()?;
    match *first {
        b'\\' | b'$' | b'{' | b'}' | b':' => Some(1),
        _ => None,
    }
}

/// Returns the length of the `$`, name or `{..}` that `text` begins with, or `None` if it begins with none.
/// `text` follows a `$`.
fn variable_len(text: &[u8]) -> Option<usize>
    ensures within { IfSome result (λ len. len ≤ length text.now) }
    ensures placeholder { IfSome result (λ len. IsPlaceholder (dollar ∷ take len text.now)) }
{
    let (first, inner) = text.split_first()?;
    match *first {
        b'$' => Some(1),
        b'{' => Some(closing_brace(inner)? + 2),
        _ => {
            let len = name_len(text);
            if len > 0 { Some(len) } else { None }
        }
    }
}

/// Returns the index in `text` of the `}` that closes the `{` before `text`, or `None` if there is none. A
/// backslash escapes the next byte.
fn closing_brace(text: &[u8]) -> Option<usize>
    ensures within { IfSome result (λ at. at < length text.now) }
    ensures closes { IfSome result (λ at. slice_index text.now at ≡ 125) }
    ensures balanced { IfSome result (λ at. IsBalanced (take at text.now)) }
{
    let mut depth: usize = 0;
    let mut is_escaped = false;
    for (at, byte) in text.iter().enumerate() {
        if is_escaped {
            is_escaped = false;
        } else if *byte == b'\\' {
            is_escaped = true;
        } else if *byte == b'{' {
            depth += 1;
        } else if *byte == b'}' {
            if depth == 0 {
                return Some(at);
            }
            depth -= 1;
        }
    }
    None
}

/// Returns the index in `text` of the `}` that closes the `{` before `text`, or `None` if there is none.
/// Backslashes don't escape.
fn bare_closing_brace(text: &[u8]) -> Option<usize>
    ensures within { IfSome result (λ at. at < length text.now) }
    ensures closes { IfSome result (λ at. slice_index text.now at ≡ 125) }
    ensures balanced { IfSome result (λ at. IsBalanced (bare (take at text.now))) }
{
    let mut depth: usize = 0;
    for (at, byte) in text.iter().enumerate() {
        if *byte == b'{' {
            depth += 1;
        } else if *byte == b'}' {
            if depth == 0 {
                return Some(at);
            }
            depth -= 1;
        }
    }
    None
}

//! The spans in a JSON text that spell parts of one of its strings. Each span is confirmed by the reader
//! before it is returned.

ghost use Rattle.std.specs.Prelude.{◌≡◌, ◌++◌, ◌<◌, ◌≤◌, ◌∷◌, [], length, string_bytes, take, IfOk, IfSome, MatchOption, None, Some};
ghost use Rattle.serde_json.specs.Read.{read};
ghost use Rattle.serde_json.specs.View.{view};
ghost use Rattle.subst_json.specs.Places.{IsPlaceIn, IsTokenOf};

use serde_json::Value;
use std::alloc::{AllocError, Global};
use std::ops::Range;
use subst_document::slice;

/// Returns the byte range in `source`, a JSON text, that spells a range of one of its strings.
///
/// `token` is the byte range in `source` of the string with its quotes, as returned by
/// [`strings`](crate::strings). `range` is in byte offsets of the string. A byte offset maps to the start of
/// the spelling of the character at the offset. The string's end maps to the closing quote. The result is
/// `None` if the token isn't a string or the range ends before it starts. It is also `None` if an end of the
/// range is past the string's end or inside a character.
///
/// # Errors
///
/// If allocation fails.
pub fn place_in(
    alloc: Global,
    source: &str,
    token: Range<usize>,
    range: Range<usize>,
) -> Result<Option<Range<usize>>, AllocError>
    ensures place { IfOk result (λ place. IfSome place (IsPlaceIn source.now token range)) }
{
    let Some(text) = slice(source, &token) else {
        return Ok(None);
    };
    let Some(string) = read_string(alloc, text)? else {
        return Ok(None);
    };
    let Some(start) = spelled_until(alloc, text, &string, range.start)? else {
        return Ok(None);
    };
    let Some(end) = spelled_until(alloc, text, &string, range.end)? else {
        return Ok(None);
    };
    let place = token.start + start..token.start + end;
    let Some(_) = slice(source, &place) else {
        return Ok(None);
    };
    Ok(Some(place))
}

/// Returns the tree of a text, or `None` if it isn't JSON.
fn read_tree(alloc: Global, text: &str) -> Result<Option<Value>, AllocError>
    ensures { IfOk result
        (λ tree. MatchOption tree (read text.now ≡ None)
        (λ tree. read text.now ≡ Some (view tree))) }
{
    match Value::from_str(alloc, text) {
        Ok(tree) => Ok(Some(tree)),
        Err(e) if e.is_memory() => Err(AllocError),
        Err(_) => Ok(None),
    }
}

/// Returns the string that a text spells, or `None` if the text isn't a JSON string.
fn read_string(alloc: Global, text: &str) -> Result<Option<String>, AllocError>
    ensures { IfOk result
        (λ read. IfSome read (λ string. IsTokenOf text.now (string_bytes string))) }
{
    match read_tree(alloc, text)? {
        Some(Value::String(string)) => Ok(Some(string)),
        _ => Ok(None),
    }
}

/// Returns how many bytes of `token`, opening quote included, spell the first `offset` bytes of `string`.
/// Returns `None` if these bytes of `token`, closed with a quote, aren't read back as the first `offset`
/// bytes of `string`.
fn spelled_until(
    alloc: Global,
    token: &str,
    string: &str,
    offset: usize,
) -> Result<Option<usize>, AllocError>
    ensures { IfOk result
        (λ len. IfSome len (λ len. (len ≤ length token.now) × (offset ≤ length string.now)
        × IsTokenOf (take len token.now ++ 34 ∷ []) (take offset string.now))) }
{
    let Some(part) = string.get(..offset) else {
        return Ok(None);
    };
    let len = spelling_len(token.as_bytes(), offset);
    let Some(spelled) = token.get(..len) else {
        return Ok(None);
    };
    let mut closed = String::from_str(alloc, spelled)?;
    closed.push('"')?;
    let Some(read) = read_string(alloc, &closed)? else {
        return Ok(None);
    };
    if read.as_str() != part {
        return Ok(None);
    }
    Ok(Some(len))
}

/// Returns how many bytes of `token`, opening quote included, spell the first `offset` bytes of the string.
pub(crate) fn spelling_len(token: &[u8], offset: usize) -> usize {
    let mut len = 1;
    let mut spelled = 0;
    while spelled < offset && len < token.len() {
        let first = first_spelling(&token[len..]);
        len += first.len;
        spelled += first.spelled;
    }
    len
}

/// The spelling of a character, or of a part of it.
#[derive(Clone, Copy)]
struct Spelling {
    /// The length of the spelling in the token, in bytes.
    len: usize,
    /// The length of the spelled part of the string, in bytes.
    spelled: usize,
}

/// Returns the first spelling in the rest of a token. An escape is never split. Each half of a surrogate pair
/// counts as two of the character's four bytes.
fn first_spelling(rest: &[u8]) -> Spelling
    ensures { (0 < result.spelled) × (result.spelled ≤ result.len) × (result.len ≤ 6) }
{
    match rest {
        [b'\\', b'u', b'0', b'0', b'0'..=b'7', ..] => Spelling { len: 6, spelled: 1 },
        [b'\\', b'u', b'0', b'0'..=b'7', ..] => Spelling { len: 6, spelled: 2 },
        [
            b'\\',
            b'u',
            b'd' | b'D',
            b'8' | b'9' | b'a'..=b'f' | b'A'..=b'F',
            ..
        ] => { Spelling { len: 6, spelled: 2 } }
        [b'\\', b'u', ..] => Spelling { len: 6, spelled: 3 },
        [b'\\', ..] => Spelling { len: 2, spelled: 1 },
        _ => Spelling { len: 1, spelled: 1 },
    }
}

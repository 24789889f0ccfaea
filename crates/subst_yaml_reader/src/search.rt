//! Searches, 32 bytes at a time.

ghost use Rattle.std.specs.Prelude.{◌≡◌, ◌≤◌, drop, false, length, take};
ghost use Rattle.subst_yaml_reader.specs.Runs.{after_double, after_single, is_text};
ghost use Rattle.subst_yaml_reader.specs.Search.{first_set, is_line_feed, len_before, may_be_foreign, may_end_quoted, to_line_feed};
ghost use Rattle.subst_yaml_reader.specs.declared.runs.Escape.TheVariants.{Nothing};

use std::simd::prelude::*;

/// The number of bytes in a SIMD vector.
const WIDTH: usize = 32;

/// Searches for a byte that may begin a refused character, and returns the text from that byte on.
pub(crate) fn after_clear(text: &[u8]) -> &[u8]
    ensures same { is_text text.now ≡ is_text result.now }
    ensures shorter { length result.now ≤ length text.now }
{
    let mut rest = text;
    while rest.len() >= WIDTH {
        let len = clear_len(rest);
        rest = rest_of(rest, len);
        if len < WIDTH {
            return rest;
        }
    }
    after_clear_bytewise(rest)
}

/// Searches, one byte at a time, for a byte that may begin a refused character. Returns the text from that
/// byte on.
#[tactic(auto, unfolding(crate::specs::Runs::is_text))]
fn after_clear_bytewise(text: &[u8]) -> &[u8]
    ensures same { is_text text.now ≡ is_text result.now }
    ensures shorter { length result.now ≤ length text.now }
{
    let mut rest = text;
    while let [first, tail @ ..] = rest {
        if may_be_foreign(*first) {
            return rest;
        }
        rest = tail;
    }
    rest
}

/// Returns whether a byte may begin a character that not every YAML reader accepts.
fn may_be_foreign(byte: u8) -> bool
    ensures { result ≡ may_be_foreign byte }
{
    byte < b' ' && byte != b'\n' || byte == 127 || byte == 194 || byte == 226 || byte == 239
}

/// Returns the text from its first line feed on.
pub(crate) fn to_line_feed(text: &[u8]) -> &[u8]
    ensures value { result.now ≡ to_line_feed text.now }
    ensures shorter { length result.now ≤ length text.now }
{
    let mut rest = text;
    while rest.len() >= WIDTH {
        let len = line_len(rest);
        rest = rest_of(rest, len);
        if len < WIDTH {
            return rest;
        }
    }
    to_line_feed_bytewise(rest)
}

/// Searches, one byte at a time, for a line feed. Returns the text from the line feed on.
#[tactic(auto, unfolding(crate::specs::Search::to_line_feed))]
fn to_line_feed_bytewise(text: &[u8]) -> &[u8]
    ensures value { result.now ≡ to_line_feed text.now }
    ensures shorter { length result.now ≤ length text.now }
{
    let mut rest = text;
    while let [first, tail @ ..] = rest {
        if *first == b'\n' {
            return rest;
        }
        rest = tail;
    }
    rest
}

/// Searches for a byte that may end text in quotes or begin an escape, and returns the text from that byte
/// on.
pub(crate) fn after_quoted(text: &[u8]) -> &[u8]
    ensures double { after_double Nothing text.now ≡ after_double Nothing result.now }
    ensures single { after_single false text.now ≡ after_single false result.now }
    ensures shorter { length result.now ≤ length text.now }
{
    let mut rest = text;
    while rest.len() >= WIDTH {
        let len = quoted_len(rest);
        rest = rest_of(rest, len);
        if len < WIDTH {
            return rest;
        }
    }
    after_quoted_bytewise(rest)
}

/// Searches, one byte at a time, for a byte that may end text in quotes or begin an escape. Returns the text
/// from that byte on.
#[tactic(auto, unfolding(crate::specs::Runs::after_double, crate::specs::Runs::after_single))]
fn after_quoted_bytewise(text: &[u8]) -> &[u8]
    ensures double { after_double Nothing text.now ≡ after_double Nothing result.now }
    ensures single { after_single false text.now ≡ after_single false result.now }
    ensures shorter { length result.now ≤ length text.now }
{
    let mut rest = text;
    while let [first, tail @ ..] = rest {
        if may_end_quoted(*first) {
            return rest;
        }
        rest = tail;
    }
    rest
}

/// Returns whether a byte is a single quote, a double quote, a backslash or a line feed.
fn may_end_quoted(byte: u8) -> bool
    ensures { result ≡ may_end_quoted byte }
{
    byte == b'"' || byte == b'\'' || byte == b'\\' || byte == b'\n'
}

/// Returns the index of the first byte that may begin a refused character, or 32 if none of the first 32
/// bytes may.
#[inline(always)]
fn clear_len(text: &[u8]) -> usize
    requires { 32 ≤ length text.now }
    ensures len { result ≡ len_before may_be_foreign (take 32 text.now) }
    ensures within { result ≤ 32 }
{
    let bytes = u8x32::from_slice(text);
    let control = bytes.simd_lt(u8x32::splat(b' ')) & bytes.simd_ne(u8x32::splat(b'\n'));
    let low = control | bytes.simd_eq(u8x32::splat(127));
    let high = bytes.simd_eq(u8x32::splat(226)) | bytes.simd_eq(u8x32::splat(239));
    let marked = low | bytes.simd_eq(u8x32::splat(194)) | high;
    first_set(marked.to_bitmask())
}

/// Returns the index of the first byte that may end text in quotes, or 32 if none of the first 32 bytes may.
#[inline(always)]
fn quoted_len(text: &[u8]) -> usize
    requires { 32 ≤ length text.now }
    ensures len { result ≡ len_before may_end_quoted (take 32 text.now) }
    ensures within { result ≤ 32 }
{
    let bytes = u8x32::from_slice(text);
    let quotes = bytes.simd_eq(u8x32::splat(b'"')) | bytes.simd_eq(u8x32::splat(b'\''));
    let others = bytes.simd_eq(u8x32::splat(b'\\')) | bytes.simd_eq(u8x32::splat(b'\n'));
    first_set((quotes | others).to_bitmask())
}

/// Returns the index of the first line feed, or 32 if none of the first 32 bytes is a line feed.
#[inline(always)]
fn line_len(text: &[u8]) -> usize
    requires { 32 ≤ length text.now }
    ensures len { result ≡ len_before is_line_feed (take 32 text.now) }
    ensures within { result ≤ 32 }
{
    let bytes = u8x32::from_slice(text);
    first_set(bytes.simd_eq(u8x32::splat(b'\n')).to_bitmask())
}

/// Returns the index of the lowest bit that is set, or 32 if none is.
#[inline(always)]
fn first_set(mask: u64) -> usize
    ensures { result ≡ first_set mask }
{
    if mask == 0 {
        WIDTH
    } else {
        mask.trailing_zeros() as usize
    }
}

/// Returns the text after its first `len` bytes.
#[inline(always)]
fn rest_of(text: &[u8], len: usize) -> &[u8]
    requires { len ≤ length text.now }
    ensures { result.now ≡ drop len text.now }
{
    &text[len..]
}

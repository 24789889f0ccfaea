//! Converts values, as spelled in `.env` files, into shell-style texts.

ghost use Rattle.std.specs.Prelude.{◌≡◌, ◌≤◌, ◌∷◌, ◌++◌, [], false, IfOk, IfSome, OnOk, length};
ghost use Rattle.std.specs.Option.{option_map};
ghost use Rattle.subst_expander.specs.DotenvLine as dotenv;
ghost use Rattle.subst_expander.specs.DotenvLine.{before, text_of};
ghost use Rattle.subst_expander.specs.declared.dotenv.shell_text.Quote.TheVariants.{Bare};

use crate::values_file::is_blank;
use std::alloc::{AllocError, Global};

/// The spelling of a literal dollar in a shell-style text.
const DOLLARS: &[u8] = b"$$";

/// The quotes of a value.
#[derive(Clone, Copy, PartialEq, Eq)]
pub enum Quote {
    /// No quotes.
    Bare,
    /// Single quotes, between which each byte is text.
    Single,
    /// Double quotes, with escapes.
    Double,
}

/// A value as a shell-style text, and the bytes after the value. In the shell-style text, `$$` is a dollar.
#[derive(Drop)]
pub struct Text<'t> {
    pub text: Vec<u8>,
    pub rest: &'t [u8],
}

/// Reads a value from `bytes`, which begin after the opening quote, if any. Returns `None` if the quote never
/// closes.
///
/// # Errors
///
/// If allocation fails.
pub fn text_in(alloc: Global, bytes: &[u8], quote: Quote) -> Result<Option<Text<'_>>, AllocError>
    ensures text { IfOk result
        (λ found. option_map text_of found ≡ dotenv.text_in quote bytes.now) }
    ensures shorter { IfOk result
        (λ found. IfSome found (λ it. length it.rest.now ≤ length bytes.now)) }
{
    let mut text = Vec::new(alloc);
    let mut rest = bytes;
    loop {
        let Some((first, after)) = rest.split_first() else {
            return Ok(at_end(text, rest, quote));
        };
        if closes(quote, *first, after) {
            return Ok(Some(Text { text, rest: after }));
        }
        rest = add_piece(&mut text, quote, *first, after)?;
    }
}

/// Returns the value `text` once all bytes are read. Returns `None` inside quotes, since the closing quote is
/// missing.
fn at_end<'t>(text: Vec<u8>, rest: &'t [u8], quote: Quote) -> Option<Text<'t>>
    ensures text { rest.now ≡ [] → option_map text_of result
        ≡ dotenv.before text.items (dotenv.at_end quote) }
    ensures shorter { IfSome result (λ it. length it.rest.now ≤ length rest.now) }
{
    match quote {
        Quote::Bare => Some(Text { text, rest }),
        Quote::Single | Quote::Double => None,
    }
}

/// Appends the shell-style text of the piece that begins with `first`: an escape, `$$`, or else the byte
/// alone. Returns the bytes after the piece.
///
/// # Errors
///
/// If allocation fails.
fn add_piece<'t>(
    text: &mut Vec<u8>,
    quote: Quote,
    first: u8,
    after: &'t [u8],
) -> Result<&'t [u8], AllocError>
    ensures added { IfOk result (λ rest. dotenv.closes quote first after.now ≡ false
        → before text.old.items (dotenv.text_in quote (first ∷ after.now))
        ≡ before text.new.items (dotenv.text_in quote rest.now)) }
    ensures shorter { IfOk result (λ rest. length rest.now ≤ length after.now) }
{
    if let Some((second, later)) = after.split_first()
        && let Some(pair) = pair_text(quote, first, *second)
    {
        text.extend_from_slice(pair)?;
        return Ok(later);
    }
    add_byte(text, quote, first, after)?;
    Ok(after)
}

/// Appends the shell-style text of `byte`, which begins no escape. `after` has the bytes after it.
///
/// # Errors
///
/// If allocation fails.
fn add_byte(text: &mut Vec<u8>, quote: Quote, byte: u8, after: &[u8]) -> Result<(), AllocError>
    ensures { OnOk result (text.new.items
        ≡ text.old.items ++ dotenv.byte_text quote byte after.now) }
{
    if byte == b'$' && is_text(quote, after) {
        text.extend_from_slice(DOLLARS)?;
    } else {
        text.push(byte)?;
    }
    Ok(())
}

/// Returns the shell-style text of two bytes that are an escape or, outside single quotes, `$$`. Returns
/// `None` for other bytes.
fn pair_text(quote: Quote, first: u8, second: u8) -> Option<&'static [u8]>
    ensures { option_map (λ v. v.now) result ≡ dotenv.pair_text quote first second }
{
    match quote {
        Quote::Single => None,
        Quote::Bare | Quote::Double => match first {
            b'\\' => escape(quote, second),
            b'$' if second == b'$' => Some(DOLLARS),
            _ => None,
        },
    }
}

/// Expands an escape, a backslash and this byte, to text in a shell's syntax. Returns `None` if the two
/// aren't an escape.
fn escape(quote: Quote, byte: u8) -> Option<&'static [u8]>
    ensures { option_map (λ v. v.now) result ≡ dotenv.escape quote byte }
{
    match quote {
        Quote::Single => None,
        Quote::Bare => escaped_dollar(byte),
        Quote::Double => match byte {
            b'n' => Some(b"\n"),
            b't' => Some(b"\t"),
            b'r' => Some(b"\r"),
            b'"' => Some(b"\""),
            b'\\' => Some(b"\\"),
            _ => escaped_dollar(byte),
        },
    }
}

/// Returns the shell-style text of an escaped dollar, or `None` if the byte isn't a dollar.
fn escaped_dollar(byte: u8) -> Option<&'static [u8]>
    ensures { option_map (λ v. v.now) result ≡ dotenv.escape Bare byte }
{
    if byte == b'$' { Some(DOLLARS) } else { None }
}

/// Returns whether a dollar before `after` is literal: always in single quotes, otherwise only if `after`
/// begins with a backslash.
fn is_text(quote: Quote, after: &[u8]) -> bool
    ensures { result ≡ dotenv.is_text quote after.now }
{
    match quote {
        Quote::Single => true,
        Quote::Bare | Quote::Double => begins_with(after, b'\\'),
    }
}

/// Returns whether a byte ends a value. A quoted value ends at its closing quote. A value without quotes ends
/// at a blank before a comment.
fn closes(quote: Quote, byte: u8, after: &[u8]) -> bool
    ensures { result ≡ dotenv.closes quote byte after.now }
{
    match quote {
        Quote::Bare => is_blank(byte) && begins_with(after, b'#'),
        Quote::Single => byte == b'\'',
        Quote::Double => byte == b'"',
    }
}

/// Returns whether bytes begin with this byte.
pub fn begins_with(bytes: &[u8], byte: u8) -> bool
    ensures { result ≡ dotenv.begins_with byte bytes.now }
{
    match bytes.first() {
        Some(first) => *first == byte,
        None => false,
    }
}

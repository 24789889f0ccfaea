//! Confirmation that listed spans are those of a text's strings, and of nothing else.

ghost use Rattle.std.specs.Prelude.{◌≡◌, IfOk, IsTrue, codes, map};
ghost use Rattle.json.specs.Lex.{tokens};
ghost use Rattle.json.specs.Reads.{token_of};
ghost use Rattle.subst_json.specs.Listed.{plain_token, AreExact};

use crate::compared::is_same;
use json::{Reader, Scratch, Token};
use std::alloc::{AllocError, Global};
use subst_document::{Plain, StringAt, with_plain};

/// The replacement `null` for each string.
#[derive(Clone, Copy)]
struct Nulls;

impl Plain for Nulls {
    ghost bytes = { λ _ _. codes "null" };

    fn push(&self, alloc: Global, index: usize, output: &mut String) -> Result<(), AllocError> {
        output.push_str("null")
    }
}

/// Returns whether the spans of `list` are those of all strings of `source`, and of nothing else.
///
/// # Errors
///
/// If allocation fails.
pub(crate) fn are_exact(alloc: Global, source: &str, list: &[StringAt]) -> Result<bool, AllocError>
    ensures { IfOk result (λ are. IsTrue are → AreExact source.now list.now) }
{
    match with_plain(alloc, source, list, &Nulls)? {
        Some(plain) => has_plain_tokens(alloc, source, plain.as_str()),
        None => Ok(false),
    }
}

/// Returns whether `plain` has the tokens of `source`, but `null` for each string.
fn has_plain_tokens(alloc: Global, source: &str, plain: &str) -> Result<bool, AllocError>
    ensures { IfOk result
        (λ has. IsTrue has → tokens plain.now ≡ map plain_token (tokens source.now)) }
{
    let mut scratch = Scratch::new(alloc);
    let mut scratch_of_plain = Scratch::new(alloc);
    let mut reader = Reader::new(source, &mut scratch)?;
    let mut reader_of_plain = Reader::new(plain, &mut scratch_of_plain)?;
    while let Some(token) = reader.next() {
        let Some(plain) = reader_of_plain.next() else {
            return Ok(false);
        };
        if !is_plain(token, plain) {
            return Ok(false);
        }
    }
    Ok(reader_of_plain.next().is_none())
}

/// Returns whether `plain` is the replacement of `token`: `null` for a string, and otherwise an equal token.
fn is_plain(token: Token<'_>, plain: Token<'_>) -> bool
    ensures { IsTrue result → token_of plain.entry ≡ plain_token (token_of token.entry) }
{
    match (token, plain) {
        (Token::String(_), Token::Null) => true,
        (token, plain) => is_same(token, plain),
    }
}

//! Comparison of an output's tokens with those of its source.

ghost use Rattle.std.specs.Prelude.{◌≡◌, ◌∷◌, ℕ, List, IfOk, IsTrue, Some, string_bytes};
ghost use Rattle.json.specs.Lex.{tokens};
ghost use Rattle.json.specs.Reads.{token_of};
ghost use Rattle.json.specs.Token as spec;
ghost use Rattle.serde_json.specs.Data.{Num};
ghost use Rattle.fast_float.specs.Text.{scan};
ghost use Rattle.serde_json.specs.Read.{number_of, number_from};
ghost use Rattle.subst_language.specs.Language.Several.{GivesBy};
ghost use Rattle.subst_document.specs.Stays.{AreValues};
ghost use Rattle.subst_json.specs.Compared.{AreRemaining};
ghost use Rattle.subst_json.specs.Filled.{strings_in, AreFilled, IsFilledToken};
ghost use Rattle.subst_json.specs.Nesting.{AreOfValue};

use crate::nesting::Nesting;
use fast_float::Numeral;
use json::{Reader, Scratch, Token};
use std::alloc::{AllocError, Global};
use subst_document::{ChangedValues, Fill, ValueAt};

/// Compares two texts token by token, and returns whether `output` is `source` with its strings filled in.
/// The result is `false` if `source` isn't one JSON value, or if its nesting or a number exceeds the limits
/// of the reader of trees. `values` are the new values of the strings that change, so `filler` isn't called
/// again.
pub(crate) fn is_filled<F: Fill>(
    alloc: Global,
    source: &str,
    output: &str,
    values: &ChangedValues,
    filler: &F,
) -> Result<bool, AllocError>
    requires { AreValues (GivesBy (F.answers filler.now)) 0 (strings_in (tokens source.now))
        values.now.list.items (string_bytes values.now.text) }
    ensures value { IfOk result (λ is. IsTrue is → AreOfValue (tokens source.now)) }
    ensures filled { IfOk result (λ is. IsTrue is
        → AreFilled (GivesBy (F.answers filler.now)) (tokens source.now)
        (tokens output.now)) }
{
    let mut nesting = Nesting::new(alloc);
    let mut left = RemainingStrings {
        index: 0,
        list: values.list.as_slice(),
        text: values.text.as_str(),
    };
    let mut scratch = Scratch::new(alloc);
    let mut scratch_of_output = Scratch::new(alloc);
    let mut reader = Reader::new(source, &mut scratch)?;
    let mut reader_of_output = Reader::new(output, &mut scratch_of_output)?;
    while let Some(token) = reader.next() {
        let Some(filled) = reader_of_output.next() else {
            return Ok(false);
        };
        if !nesting.accept(token)? || !left.check_token(token, filled, filler) {
            return Ok(false);
        }
    }
    Ok(nesting.is_at_end() && reader_of_output.next().is_none())
}

/// The strings of a text that haven't been compared yet.
#[derive(Clone, Copy)]
struct RemainingStrings<'v> {
    /// The index of the next string.
    index: usize,
    /// The remaining strings that change.
    list: &'v [ValueAt],
    /// The new values of the strings in `list`, concatenated.
    text: &'v str,
}

impl RemainingStrings<'_> {
    /// Takes `token`, the next token of the source, and returns whether `filled` is `token` filled in. Only
    /// strings are filled in; any other token is unchanged.
    fn check_token<F: Fill>(&mut self, token: Token<'_>, filled: Token<'_>, filler: &F) -> bool
        ensures { IsTrue result → (rest : List spec.Token)
            → AreRemaining (GivesBy (F.answers filler.now)) self.old (token_of token.entry ∷ rest)
            → IsFilledToken (GivesBy (F.answers filler.now)) (token_of token.entry)
            (token_of filled.entry)
            × AreRemaining (GivesBy (F.answers filler.now)) self.new rest }
    {
        match (token, filled) {
            (Token::String(text), Token::String(value)) => self.check_string(text, value, filler),
            (token, filled) => is_same(token, filled),
        }
    }

    /// Takes `text`, the next string, and returns whether `value` is the output of `text`.
    fn check_string<F: Fill>(&mut self, text: &str, value: &str, filler: &F) -> bool
        ensures { IsTrue result → (rest : List (List ℕ))
            → AreValues (GivesBy (F.answers filler.now)) self.old.index (text.now ∷ rest)
            self.old.list.now self.old.text.now
            → GivesBy (F.answers filler.now) text.now value.now
            × AreValues (GivesBy (F.answers filler.now)) self.new.index rest self.new.list.now
            self.new.text.now }
    {
        let index = self.index;
        let Some(next) = index.checked_add(1) else {
            return false;
        };
        self.index = next;
        match self.list.split_first() {
            Some((first, list)) if first.index == index => {
                let Some((given, rest)) = self.text.split_at_checked(first.len) else {
                    return false;
                };
                self.list = list;
                self.text = rest;
                given == value
            }
            _ => text == value,
        }
    }
}

/// Returns whether two tokens are equal and aren't strings. A number also has to be in the range of the
/// reader of trees.
pub(crate) fn is_same(token: Token<'_>, other: Token<'_>) -> bool
    ensures { IsTrue result
        → IsFilledToken (λ _ _. ⊥) (token_of token.entry) (token_of other.entry) }
{
    match (token, other) {
        (Token::BeginObject, Token::BeginObject)
        | (Token::EndObject, Token::EndObject)
        | (Token::BeginArray, Token::BeginArray)
        | (Token::EndArray, Token::EndArray)
        | (Token::Null, Token::Null) => true,
        (Token::Key(key), Token::Key(other)) => key == other,
        (Token::Number(text), Token::Number(other)) => text == other && is_in_range(text),
        (Token::Bool(b), Token::Bool(other)) => b == other,
        _ => false,
    }
}

/// Returns whether a number is in the range of the reader of trees, which refuses numbers too large for a
/// float.
#[tactic(auto, using(crate::proofs::NumberLemmas::with_minus, crate::proofs::NumberLemmas::without_minus))]
fn is_in_range(number: &str) -> bool
    ensures { IsTrue result → (n : Num) × (number_of number.now ≡ Some n) }
{
    let bytes = number.as_bytes();
    if bytes.is_empty() {
        return false;
    }
    if bytes[0] == b'-' {
        has_finite_float(&bytes[1..], true)
    } else {
        has_finite_float(bytes, false)
    }
}

/// Returns whether the float nearest to a number is finite.
fn has_finite_float(digits: &[u8], is_negative: bool) -> bool
    ensures { IsTrue result
        → (n : Num) × (number_from is_negative (scan digits.now) ≡ Some n) }
{
    let nearest: f64 = Numeral::scan(digits).to_float(is_negative);
    nearest.is_finite()
}

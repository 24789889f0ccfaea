//! Fills in the strings of a text in order, lists them, and checks their spans.

ghost use Rattle.std.specs.Prelude.{◌≡◌, ◌∷◌, ◌++◌, [], ℕ, List, IfOk, IfSome, IsTrue, MatchOption, OnOk, length, map, string_bytes};
ghost use Rattle.subst_error.specs.ErrorFault.{error_fault};
ghost use Rattle.subst_language.specs.Calls.Outcome.{OnFault};
ghost use Rattle.subst_language.specs.Language.Several.{GivesBy, RefusesFirst};
ghost use Rattle.subst_document.specs.Edits.{text_at, AreSpelled, IsFilledText};
ghost use Rattle.subst_document.specs.Stays.{AreValues, SomeChanges, StatesChange};
ghost use Rattle.subst_document.specs.Texts.{HasRange};

use crate::Fill;
use crate::edits::{StringAt, StringFormat, StringOutcome, fill_in_string, slice, string_at};
use std::alloc::{AllocError, Global};
use subst_error::Error;

/// A string of a document, with its span.
#[derive(Clone, Copy)]
pub struct Spelled<'t> {
    /// The string as it is read: decoded, without quotes.
    pub text: &'t str,
    /// The byte offset in the document at which the string's opening quotes begin.
    pub start: usize,
    /// The byte offset in the document at which the string's closing quotes end.
    pub end: usize,
}

/// An iterator over the strings of a text, in order.
pub trait Strings<'t> {
    // The strings that are still to come.
    ghost left: { Self → List (List ℕ) };

    /// Returns the next string, or `None` after the last.
    fn next(&mut self) -> Option<Spelled<'t>>
        ensures { MatchOption result (left self.old ≡ [])
            (λ it. left self.old ≡ it.text.now ∷ left self.new) };
}

/// An iterator over the strings of a list.
#[derive(Clone, Copy)]
pub struct ListedStrings<'t> {
    /// The strings that are still to come.
    pub list: &'t [StringAt],
}

impl<'t> Strings<'t> for ListedStrings<'t> {
    ghost left = { λ it. map text_at it.list.now };

    fn next(&mut self) -> Option<Spelled<'t>> {
        let (first, rest) = self.list.split_first()?;
        self.list = rest;
        Some(Spelled {
            text: first.text.as_str(),
            start: first.span.start,
            end: first.span.end,
        })
    }
}

/// The new values of changed strings, in the order of the strings in the document.
#[derive(Debug, Drop)]
pub struct ChangedValues {
    /// The values, concatenated.
    pub text: String,
    /// For each value, its length and the index of its string.
    pub list: Vec<ValueAt>,
}

/// The index of a changed string, and the length of its new value.
#[derive(Clone, Copy, Debug)]
pub struct ValueAt {
    /// The index of the string among the strings of the document, from 0.
    pub index: usize,
    /// The length of the string's new value in bytes.
    pub len: usize,
}

impl ChangedValues {
    /// Appends `value`, the new value of the string at `index`, if `keeps_values`.
    ///
    /// # Errors
    ///
    /// If allocation fails.
    fn keep(&mut self, index: usize, value: &str, keeps_values: bool) -> Result<(), AllocError>
        ensures { IsTrue keeps_values → OnOk result
            ((self.new.list.items
            ≡ self.old.list.items ++ record { index = index; len = length value.now } ∷ [])
            × (string_bytes self.new.text ≡ string_bytes self.old.text ++ value.now)) }
    {
        if keeps_values {
            let len = value.len();
            self.list.push(ValueAt { index, len })?;
            self.text.push_str(value)?;
        }
        Ok(())
    }
}

/// A text with its strings filled in.
#[derive(Debug, Drop)]
pub struct Filled {
    /// The filled-in text.
    pub text: String,
    /// Whether some string changed. If not, the text is unchanged.
    pub is_changed: bool,
    /// The new values of the strings that changed, or none if values aren't kept.
    pub values: ChangedValues,
}

/// Returns `source` with `strings` filled in, and their new values if `keeps_values`. Returns `None` if a
/// string changes, but its old token or a new token isn't found.
///
/// # Errors
///
/// The fault of the first refused string. `OutOfMemory` if allocation fails.
pub fn filled_in<'t, S: Strings<'t>, T: StringFormat, F: Fill>(
    alloc: Global,
    source: &str,
    strings: &mut S,
    format: &mut T,
    filler: &F,
    keeps_values: bool,
) -> Result<Option<Filled>, Error>
    ensures ok { IfOk result (λ filled. IfSome filled (λ filled.
        IsFilledText T.is_token T.is_part T.is_fit (GivesBy (F.answers filler.now))
        (S.left strings.old) source.now (string_bytes filled.text))) }
    ensures changed { IfOk result (λ filled. MatchOption filled
        (SomeChanges (GivesBy (F.answers filler.now)) (S.left strings.old))
        (λ filled. StatesChange (GivesBy (F.answers filler.now)) (S.left strings.old) source.now
        (string_bytes filled.text) filled.is_changed)) }
    ensures values { IsTrue keeps_values → IfOk result (λ filled. IfSome filled (λ filled.
        AreValues (GivesBy (F.answers filler.now)) 0 (S.left strings.old) filled.values.list.items
        (string_bytes filled.values.text))) }
    ensures err { OnFault error_fault result
        (RefusesFirst (F.answers filler.now) (S.left strings.old)) }
    ensures range { OnFault error_fault result HasRange }
{
    let mut output = String::with_capacity(alloc, source.len())?;
    let mut values = ChangedValues {
        text: String::new(alloc),
        list: Vec::new(alloc),
    };
    let mut rest = source;
    let mut is_changed = false;
    let mut count: usize = 0;
    while let Some(it) = strings.next() {
        let index = count;
        count = index.checked_add(1).ok_or(AllocError)?;
        let passed = source.len().saturating_sub(rest.len());
        let token = it.start.saturating_sub(passed)..it.end.saturating_sub(passed);
        match fill_in_string(alloc, rest, &token, it.text, format, filler, &mut output)? {
            StringOutcome::Unchanged => {}
            StringOutcome::Changed(value, left) => {
                rest = left;
                is_changed = true;
                values.keep(index, value.as_str(), keeps_values)?;
            }
            StringOutcome::NotFound => return Ok(None),
        }
    }
    output.push_str(rest)?;
    Ok(Some(Filled {
        text: output,
        is_changed,
        values,
    }))
}

/// Returns `strings` as a list, or `None` if a span doesn't spell its string or begins before the previous
/// one ends.
///
/// # Errors
///
/// If allocation fails.
pub fn listed<'t, S: Strings<'t>, T: StringFormat>(
    alloc: Global,
    source: &str,
    strings: &mut S,
    format: &mut T,
) -> Result<Option<Vec<StringAt>>, AllocError>
    ensures all { IfOk result (λ list. IfSome list
        (λ list. map text_at list.items ≡ S.left strings.old)) }
    ensures spelled { IfOk result (λ list. IfSome list
        (λ list. AreSpelled T.is_token source.now 0 list.items)) }
{
    let mut list = Vec::new(alloc);
    let mut from = 0;
    while let Some(it) = strings.next() {
        let found = string_at(alloc, source, from, it.start..it.end, it.text, format)?;
        let Some(found) = found else {
            return Ok(None);
        };
        from = found.span.end;
        list.push(found)?;
    }
    Ok(Some(list))
}

/// Returns whether each string of `list` is spelled at its span in `source`, in order and without overlaps.
///
/// # Errors
///
/// If allocation fails.
pub fn are_spelled<T: StringFormat>(
    alloc: Global,
    source: &str,
    list: &[StringAt],
    format: &mut T,
) -> Result<bool, AllocError>
    ensures { IfOk result
        (λ are. IsTrue are → AreSpelled T.is_token source.now 0 list.now) }
{
    let mut done = 0;
    for it in list {
        if it.span.start < done {
            return Ok(false);
        }
        let Some(token) = slice(source, &it.span) else {
            return Ok(false);
        };
        if !format.spells(alloc, token, it.text.as_str())? {
            return Ok(false);
        }
        done = it.span.end;
    }
    Ok(true)
}

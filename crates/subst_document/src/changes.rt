//! Changes of the values in a tree. A walk over the borrowed tree finds the changes, and a second walk makes
//! them. So only changes take memory, and all of it is allocated before anything changes.

ghost use Rattle.std.specs.Prelude.{◌≡◌, ◌<◌, ◌+◌, ◌^◌, ◌++◌, ◌∷◌, ◌||◌, [], false, IfOk, IsTrue, OnOk, length};
ghost use Rattle.subst_error.specs.ErrorFault.{error_fault};
ghost use Rattle.subst_language.specs.Calls.Outcome.{OnFault};
ghost use Rattle.subst_language.specs.Language.Answer.{Refuses};
ghost use Rattle.subst_language.specs.Language.Several.{GivesBy};
ghost use Rattle.subst_document.specs.Changes.{text_after, inside, slots, one, is_other, has_other, found_so_far, remaining_of, next_of, rest_of, IsUpToKept};
ghost use Rattle.subst_document.specs.Stays.{BecomesOther};
ghost use Rattle.subst_document.specs.Texts.{HasRange};

use crate::{Fill, changed};
use std::alloc::{AllocError, Global};
use std::vec::IntoIter;
use subst_error::Error;

/// A change of a value in a tree.
#[derive(Drop)]
pub enum Change {
    /// The value is kept. In a list of changes, this many values after it are kept too.
    Kept(usize),
    /// The value is a string. This is the string that replaces it.
    Text(String),
    /// The changes of the values in an array, object or table, in order. Values for which no change is left
    /// are kept.
    Inside(Vec<Change>),
}

/// Returns the change of a string: `Text` with its new value, or `Kept(0)` if it is unchanged.
///
/// # Errors
///
/// The fault of a refused string. `OutOfMemory` if allocation fails.
pub fn change_of_text<F: Fill>(alloc: Global, text: &str, filler: &F) -> Result<Change, Error>
    ensures ok { IfOk result
        (λ change. GivesBy (F.answers filler.now) text.now (text_after text.now change)) }
    ensures other { IfOk result (λ change. IsTrue (is_other change)
        → BecomesOther (GivesBy (F.answers filler.now)) text.now) }
    ensures err { OnFault error_fault result (λ f. F.answers filler.now text.now (Refuses f)) }
    ensures range { OnFault error_fault result HasRange }
{
    match changed(alloc, text, filler)? {
        Some(value) => Ok(Change::Text(value)),
        None => Ok(Change::Kept(0)),
    }
}

/// The changes that a walk has found so far for the values inside an array, object or table.
#[derive(Drop)]
pub struct FoundChanges {
    changes: Vec<Change>,
    // The number of values kept after the last change.
    kept: usize,
}

impl FoundChanges {
    /// Creates an empty list of changes.
    pub fn new(alloc: Global) -> FoundChanges
        ensures none { found_so_far result ≡ [] }
        ensures other { has_other result ≡ false }
    {
        FoundChanges {
            changes: Vec::new(alloc),
            kept: 0,
        }
    }

    /// Appends the change of the next value. Allocates only if the value changes.
    ///
    /// # Errors
    ///
    /// If allocation fails.
    pub fn add(&mut self, change: Change) -> Result<(), AllocError>
        requires { length (found_so_far self.old) + 1 < 2 ^ 64 }
        ensures found { OnOk result
            (found_so_far self.new ≡ found_so_far self.old ++ one change ∷ []) }
        ensures other { OnOk result
            (has_other self.new ≡ (has_other self.old || is_other change)) }
    {
        if let Change::Kept(_) = change {
            self.kept += 1;
            return Ok(());
        }
        self.end_run()?;
        self.changes.push(change)?;
        Ok(())
    }

    /// Appends one `Kept` to the list for all values that are kept after the last change, if there are any.
    ///
    /// # Errors
    ///
    /// If allocation fails.
    fn end_run(&mut self) -> Result<(), AllocError>
        ensures same { OnOk result (found_so_far self.new ≡ found_so_far self.old) }
        ensures ended { OnOk result (self.new.kept ≡ 0) }
    {
        if self.kept > 0 {
            self.changes.push(Change::Kept(self.kept - 1))?;
            self.kept = 0;
        }
        Ok(())
    }

    /// Converts into the change of the array, object or table: `Kept(0)` if nothing inside it changes.
    pub fn into_change(self) -> Change
        ensures kept { IsUpToKept (inside result) (found_so_far self) }
        ensures other { is_other result ≡ has_other self }
    {
        if self.changes.is_empty() {
            return Change::Kept(0);
        }
        Change::Inside(self.changes)
    }
}

/// The changes that a walk has yet to make to the values inside an array, object or table.
#[derive(Drop)]
pub struct RemainingChanges {
    // The number of values that are kept before the next of `changes`.
    kept: usize,
    changes: IntoIter<Change>,
}

impl RemainingChanges {
    /// Creates the list of remaining changes. At first it has all `changes`.
    pub fn new(changes: Vec<Change>) -> RemainingChanges
        ensures { remaining_of result ≡ slots changes.items }
    {
        RemainingChanges {
            kept: 0,
            changes: changes.into_iter(),
        }
    }

    /// Removes and returns the change of the next value, or `Kept(0)` if no change is left.
    pub fn next(&mut self) -> Change
        ensures next { result ≡ next_of (remaining_of self.old) }
        ensures rest { remaining_of self.new ≡ rest_of (remaining_of self.old) }
    {
        if self.kept > 0 {
            self.kept -= 1;
            return Change::Kept(0);
        }
        match self.changes.next() {
            Some(Change::Kept(more)) => {
                self.kept = more;
                Change::Kept(0)
            }
            Some(change) => change,
            None => Change::Kept(0),
        }
    }
}

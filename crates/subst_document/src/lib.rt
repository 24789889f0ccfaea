//! The code that JSON, TOML and YAML share for filling in documents. `Fill` is a way to fill in texts, and
//! `Filler` fills them in from a map of variables.
//!
//! `filled_in` fills in the strings of a text, and `listed` lists them. `Strings` iterates over them, and a
//! `StringFormat` reads and writes their spelling. `report` formats reports of refused strings.
//!
//! `subst` re-exports `Fill`, `Filler`, `PathStep` and `StringAt`, in its modules `json`, `toml` and `yaml`.
#![tactic(auto)]

ghost use Rattle.std.specs.Prelude.{IfOk, IfSome, IsSomeAnd, IsTrue, MatchOption, ℕ, List, string_bytes};
ghost use Rattle.subst_error.specs.ErrorFault.{error_fault};
ghost use Rattle.subst_error.specs.Range.{range_of, IsRangeIn};
ghost use Rattle.subst_language.specs.Language.Answer.{Answer, Gives, Refuses};
ghost use Rattle.subst_language.specs.Calls.Outcome.{OnFault, answer_of};
ghost use Rattle.subst_document.specs.Texts.{HasRange};

pub use changes::{Change, FoundChanges, RemainingChanges, change_of_text};
pub use edits::{
    Cut, RefusalAt, StringAt, StringFormat, StringOutcome, changed, cut_round, fill_in_string,
    slice, string_at,
};
pub use path_step::PathStep;
pub use pieces::{Pieces, Position, spans};
pub use plain::{Plain, with_plain};
pub use refused::{Paths, refusals};
pub use splice::{Content, Part};
use std::alloc::{AllocError, Global};
use std::convert::AsStr;
pub use strings::{
    ChangedValues, Filled, ListedStrings, Spelled, Strings, ValueAt, are_spelled, filled_in, listed,
};
use subst_error::Error;
use subst_language::VariableMap;
use subst_template::{is_plain, substitute};

mod changes;
mod edits;
mod path_step;
mod pieces;
mod placeholder;
mod plain;
mod refused;
pub mod report;
mod splice;
mod strings;

/// A way to fill in texts.
///
/// A walk over a tree is recursive. The toolchain can't prove a recursive function with a bound that names a
/// lifetime, such as `VariableMap<'a>`. So walks are generic in this trait.
pub trait Fill {
    // The answers of a text: its output, or the fault for which it is refused.
    ghost answers: { Self → List ℕ → Answer → Type 0 };

    /// Returns `true` if a text is known, without filling it in, to be its own output.
    fn needs_no_filling(&self, text: &str) -> bool
        ensures itself { IsTrue result → answers self.now text.now (Gives text.now) };

    /// Returns the output of the text `source`, or its error if it is refused.
    fn fill(&self, alloc: Global, source: &str) -> Result<String, Error>
        ensures answer { IfSome (answer_of (λ text. string_bytes text) result)
            (answers self.now source.now) }
        ensures range { OnFault error_fault result HasRange };

    /// Returns the error of `source`, or `None` if it has an output.
    fn refusal(&self, alloc: Global, source: &str) -> Result<Option<Error>, AllocError>
        ensures answer { IfOk result (λ refusal. MatchOption refusal
            ((x : List ℕ) × answers self.now source.now (Gives x))
            (λ e. IsSomeAnd (error_fault e) (λ f. answers self.now source.now (Refuses f)))) }
        ensures refusal_range { IfOk result (λ refusal. IfSome refusal
            (λ e. IsRangeIn source.now (range_of (error_fault e)))) };
}

/// A way to fill in texts with the values of a map of variables. A text without `$` and `\` is returned as it
/// is.
#[derive(Clone, Copy)]
pub struct Filler<'a, M> {
    /// The map of variables.
    pub variables: &'a M,
}

impl<'a, M: VariableMap<'a>> Fill for Filler<'a, M>
where
    M::Value: AsStr + Drop,
{
    ghost use Rattle.subst_language.specs.Calls.Clauses.{AnswersText};

    ghost answers = { λ filler. AnswersText M.Value.text M.see (M.look_up filler.variables.now) };

    fn needs_no_filling(&self, text: &str) -> bool {
        is_plain(text.as_bytes())
    }

    // Not inlined, so that the stack frame of a recursive walk that calls this stays small.
    #[inline(never)]
    fn fill(&self, alloc: Global, source: &str) -> Result<String, Error> {
        substitute(alloc, source, self.variables)
    }

    fn refusal(&self, alloc: Global, source: &str) -> Result<Option<Error>, AllocError> {
        if is_plain(source.as_bytes()) {
            return Ok(None);
        }
        match substitute(alloc, source, self.variables) {
            Ok(_) => Ok(None),
            Err(Error::OutOfMemory(e)) => Err(e),
            Err(e) => Ok(Some(e)),
        }
    }
}

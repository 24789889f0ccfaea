//! A reader of lines, which reports a fault as soon as no further line can correct it.

ghost use Rattle.std.specs.Prelude.{◌++◌, ◌↔◌, ℕ, List, IfSome, IfNone, IfOk, IsSomeAnd, IsTrue, length};
ghost use Rattle.subst.specs.ErrorFault.{parse_fault};
ghost use Rattle.subst.specs.Fault.{Fault};
ghost use Rattle.subst.specs.Language.BadItem.{HasFault};
ghost use Rattle.subst.specs.Language.Laws.{IsSettled};

use std::alloc::{AllocError, Global};
use subst::error::ParseError;
use subst::{Template, laws};

/// Returns the fault of `lines`, if each text that begins with these lines has this fault. Returns `None` if
/// the lines have no fault, or one that further lines may correct.
///
/// # Errors
///
/// If allocation fails.
pub fn early_fault(alloc: Global, lines: &str) -> Result<Option<ParseError>, AllocError>
    ensures some { IfOk result (λ found. IfSome found (λ e. IfSome (parse_fault e)
        (λ f. (rest : List ℕ) → HasFault 0 (lines.now ++ rest) f))) }
    ensures none { IfOk result (λ found. IfNone found
        ((f : Fault) → HasFault 0 lines.now f → ¬ (IsSettled (length lines.now) f))) }
{
    laws::law_1();
    laws::law_6();
    match Template::from_str(alloc, lines) {
        Ok(_) => Ok(None),
        Err(e) => {
            if is_settled(&e, lines.len())? {
                return Ok(Some(e));
            }
            Ok(None)
        }
    }
}

/// Returns whether the fault `e` of a text remains, whatever is appended to the text. The text has `end`
/// bytes.
///
/// # Errors
///
/// If `e` is an allocation failure instead of a fault.
fn is_settled(e: &ParseError, end: usize) -> Result<bool, AllocError>
    ensures { IfOk result (λ settled. IsSomeAnd (parse_fault e.now)
        (λ f. IsTrue settled ↔ IsSettled end f)) }
{
    match e {
        ParseError::InvalidEscapeSequence(e) => Ok(e.character.is_some()),
        ParseError::MissingVariableName(e) => Ok(end.saturating_sub(e.position) > e.len),
        ParseError::UnexpectedCharacter(_) => Ok(true),
        ParseError::MissingClosingBrace(_) => Ok(false),
        ParseError::OutOfMemory(e) => Err(*e),
    }
}

//! Callers with missing variables: one prompts for a value, and one looks up all names before it expands.

ghost use Rattle.std.specs.Prelude.{◌≡◌, ◌↔◌, ℕ, List, Some, IfOk, IfErr, IfSome, IfNone, IsSome, IsTrue, string_bytes};
ghost use Rattle.std.specs.List.{All};
ghost use Rattle.subst.specs.ErrorFault.{error_fault};
ghost use Rattle.subst.specs.Fault.{NoSuchVariable};
ghost use Rattle.subst.specs.Language.Answer.{Answers, Gives, Refuses};
ghost use Rattle.subst.specs.Language.NamesIn.{names_in};
ghost use Rattle.subst.specs.Language.Sentence.{ByTree};
ghost use Rattle.subst.specs.Calls.Outcome.{answer_of};
ghost use Rattle.subst_uses.specs.CommandLine.{texts_of};

use crate::memory;
use std::alloc::{AllocError, Global};
use std::collections::BTreeMap;
use subst::{Error, Template, Variable, laws, substitute};

/// A prompt for the values of missing variables.
pub trait Prompt {
    /// Prompts for the value of a variable.
    fn ask(&mut self, alloc: Global, name: &str) -> Result<String, AllocError>;
}

/// Expands a text. If a variable is missing, prompts for its value, adds it to the variables, and expands the
/// text once more.
///
/// # Errors
///
/// As `substitute`, but never for the variable that was prompted for.
pub fn expanded_or_prompted<P: Prompt>(
    alloc: Global,
    source: &str,
    variables: &mut BTreeMap<String, String>,
    prompt: &mut P,
) -> Result<String, Error>
    ensures answer { IfSome (answer_of (λ output. string_bytes output) result)
        (Answers source.now (texts_of variables.new)) }
    ensures prompted { (position q : ℕ) (name : List ℕ)
        → Answers source.now (texts_of variables.old) (Refuses (NoSuchVariable position name))
        → IfErr result (λ e. ¬ (error_fault e ≡ Some (NoSuchVariable q name))) }
{
    laws::missing_variables_are_missing();
    match substitute(alloc, source, &*variables) {
        Ok(output) => Ok(output),
        Err(e) => match e {
            Error::NoSuchVariable(missing) => {
                let value = prompt.ask(alloc, missing.name.as_str())?;
                add(variables, missing.name, value)?;
                substitute(alloc, source, &*variables)
            }
            e => Err(e),
        },
    }
}

/// Adds a variable to the map.
fn add(
    variables: &mut BTreeMap<String, String>,
    name: String,
    value: String,
) -> Result<(), AllocError>
    ensures { IfOk result (λ _. IsSome (texts_of variables.new (string_bytes name))) }
{
    let _ = variables.insert(name, value)?;
    Ok(())
}

/// Expands a template, or returns `None` if the variables lack one of its names. All names are looked up
/// first, including those in defaults.
///
/// # Errors
///
/// If allocation fails.
pub fn expanded_or_none(
    alloc: Global,
    template: &Template<'_>,
    variables: &BTreeMap<String, String>,
) -> Result<Option<String>, AllocError>
    ensures some { IfOk result (λ found. IfSome found (λ output.
        Answers template.now (texts_of variables.now) (Gives (string_bytes output)))) }
    ensures none { IfOk result (λ found. IfNone found (ByTree template.now
        (λ t. ¬ (All (λ n. IsSome (texts_of variables.now n)) (names_in t))))) }
{
    laws::missing_variables_are_missing();
    laws::missing_lists_are_whole();
    let needed = template.variables(alloc)?;
    if !have_all(variables, &needed) {
        return Ok(None);
    }
    match template.expand(alloc, variables) {
        Ok(output) => Ok(Some(output)),
        Err(e) => Err(memory::of_expanding(e)),
    }
}

/// Returns whether the variables have a value for each needed name.
fn have_all(variables: &BTreeMap<String, String>, needed: &[Variable]) -> bool
    ensures { IsTrue result ↔ All (λ v. IsSome (texts_of variables.now v.name.now)) needed.now }
{
    for variable in needed {
        if !has(variables, variable.name) {
            return false;
        }
    }
    true
}

/// Returns whether the variables have a value for a name.
fn has(variables: &BTreeMap<String, String>, name: &str) -> bool
    ensures { IsTrue result ↔ IsSome (texts_of variables.now name.now) }
{
    variables.get(name).is_some()
}

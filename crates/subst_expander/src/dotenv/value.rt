//! The expansion of values of `.env` files.

ghost use Rattle.std.specs.Prelude.{◌≡◌, ℕ, Ok, None, IfErr, IfOk, IfSome, List, map, reverse, string_bytes};
ghost use Rattle.std.specs.List.{All};
ghost use Rattle.subst_expander.specs.Dotenv.{look_up_after, look_up_by, shell, value_in, Expands, IsFaultOf, IsRefusedFor, IsUnreadableAmong, IsValueOf};
ghost use Rattle.subst_expander.specs.Layers.{Entry as SpecEntry, ForEntries, IsUnreadable, look_up_in};
ghost use Rattle.subst_expander.specs.declared.dotenv.value.Unexpanded.TheVariants as unexpanded;
ghost use Rattle.subst.specs.Reading.{variable_of, Listing};
ghost use Rattle.subst.specs.Template.{without_question as looked_up};

use crate::fault::{Cause, Unset};
use crate::kinds::{Choice, Chosen};
use crate::layers::Variables;
use crate::map_back::{counterparts, unset_in};
use crate::placeholders::{ChosenNames, has_no_dollar, style_of};
use crate::terminal::printable;
use crate::text::text_of;
use std::alloc::{AllocError, Global};
use std::collections::HashMap;
use subst::error::NoSuchVariable;
use subst::foreign::{AllNames, Forms, Missing, Operator, Style, TextError, TextVariable};
use subst::{BytesMap, Error, ShellMap, VariableMap, substitute};

/// The variables that a value may use. Those in `above` have higher precedence than those in `set`, which
/// come from earlier lines.
#[derive(Clone, Copy)]
pub struct Scope<'m, 'v> {
    pub above: &'m Variables<'v>,
    pub set: &'m HashMap<String, String>,
}

impl<'m> VariableMap<'m> for Scope<'m, '_> {
    ghost use Rattle.subst_expander.specs.Dotenv.{look_up_by};

    type Value = &'m str;

    ghost Seen = { List ℕ };

    ghost see = { λ v. v.now };

    ghost look_up = { look_up_by };

    fn get(&'m self, key: &str) -> Option<&'m str> {
        if let Some(value) = self.above.values.get(key) {
            return Some(*value);
        }
        Some(self.set.get(key)?.as_str())
    }
}

/// Looks up the same values as the implementation of [`VariableMap`], as bytes.
impl<'m> BytesMap<'m> for Scope<'m, '_> {
    ghost use Rattle.std.proofs.Common.{refl, sym};
    ghost use Rattle.std.proofs.lemmas.Iterator.Adapters.{option_map_id};
    ghost use Rattle.subst_expander.specs.Dotenv.{look_up_by};

    ghost look_up_bytes = { look_up_by };

    ghost reads = { ((λ bytes. bytes), (λ v. refl), (λ self name. sym (option_map_id _))) };
}

/// The reason why a shell-style text doesn't expand. In both variants the error may be out of memory.
#[derive(Debug, Drop)]
pub enum Unexpanded {
    /// A form is refused.
    Text(TextError),
    /// A required variable is unset or, with `:?`, empty.
    Variable(Error),
}

impl From<TextError> for Unexpanded {
    ghost from_gives = { λ e error. error ≡ unexpanded.Text e };

    fn from(e: TextError) -> Unexpanded {
        Unexpanded::Text(e)
    }
}

impl From<Error> for Unexpanded {
    ghost from_gives = { λ e error. error ≡ unexpanded.Variable e };

    fn from(e: Error) -> Unexpanded {
        Unexpanded::Variable(e)
    }
}

/// Expands a shell-style text. An unset variable without an operator expands to nothing.
///
/// # Errors
///
/// If a form is refused, if a required variable is unset or, with `:?`, empty, or if allocation fails.
fn filled_in(alloc: Global, text: &str, scope: &Scope<'_, '_>) -> Result<String, Unexpanded>
    ensures value { IfOk result
        (λ output. IsValueOf (look_up_by scope.now) text.now (Ok (string_bytes output))) }
    ensures fault { IfErr result (IsFaultOf (look_up_by scope.now) text.now) }
{
    let style = Style {
        forms: Forms::Shell,
        names: &AllNames,
        missing: Missing::Nothing,
    };
    let template = style.template(alloc, text)?;
    let variables = ShellMap { map: scope };
    Ok(substitute(alloc, template.as_str(), &variables)?)
}

/// Expands the shell-style text of a value, or returns the cause of its refusal.
///
/// # Errors
///
/// If allocation fails.
pub fn expanded(
    alloc: Global,
    text: &[u8],
    scope: &Scope<'_, '_>,
) -> Result<Result<String, Cause>, AllocError>
    ensures gives { ForEntries scope.now.above.now (λ above. (before : List SpecEntry)
        → ((name : List ℕ) → value_in scope.now.set.now name ≡ look_up_in (reverse before) name)
        → IfOk result (λ outcome. IfOk outcome
        (λ value. Expands above before text.now (string_bytes value)))) }
    ensures refused { ForEntries scope.now.above.now (λ above. (before : List SpecEntry)
        → ((name : List ℕ) → value_in scope.now.set.now name ≡ look_up_in (reverse before) name)
        → IfOk result (λ outcome. IfErr outcome (IsRefusedFor above before text.now))) }
{
    let Some(text) = text_of(text) else {
        return Ok(Err(Cause::NotUtf8));
    };
    let variables = variables_in(alloc, text)?;
    if let Some(name) = unreadable_in(variables, scope.above)? {
        return Ok(Err(Cause::Unreadable(String::from_str(alloc, name)?)));
    }
    match filled_in(alloc, text, scope) {
        Ok(value) => Ok(Ok(value)),
        Err(Unexpanded::Text(TextError::Refused(first))) => Ok(Err(Cause::Form(first.form))),
        Err(Unexpanded::Variable(Error::NoSuchVariable(e))) => {
            Ok(Err(Cause::Unset(unset(alloc, text, scope, &e)?)))
        }
        // The template of a text is a sentence, so the error is out of memory.
        Err(_) => Err(AllocError),
    }
}

/// Returns the variables of a shell-style text, in order.
///
/// # Errors
///
/// If allocation fails.
fn variables_in(alloc: Global, text: &str) -> Result<Vec<TextVariable<'_>>, AllocError>
    ensures { IfOk result
        (λ variables. Listing shell 0 0 text.now (map variable_of variables.items)) }
{
    let style = Style {
        forms: Forms::Shell,
        names: &AllNames,
        missing: Missing::Nothing,
    };
    style.variables(alloc, text.as_bytes())
}

/// Returns the name of the first variable whose value in `above` isn't UTF-8, or `None` if there is none.
///
/// # Errors
///
/// If allocation fails.
fn unreadable_in<'t>(
    variables: Vec<TextVariable<'t>>,
    above: &Variables<'_>,
) -> Result<Option<&'t str>, AllocError>
    ensures none { ForEntries above.now (λ above. IfOk result (λ found. found ≡ None
        → All (λ it. ¬ (IsUnreadable above it.name.now)) variables.entry.items)) }
    ensures one { ForEntries above.now (λ above. IfOk result (λ found. IfSome found
        (IsUnreadableAmong above (map variable_of variables.entry.items)))) }
{
    for variable in variables {
        let Ok(name) = str::from_utf8(variable.name) else {
            // A name is ASCII, so this isn't reached.
            return Err(AllocError);
        };
        if above.is_unreadable(name) {
            return Ok(Some(name));
        }
    }
    Ok(None)
}

/// Returns the unset variable that `missing` reports. `missing` is the error of expanding the template of
/// `text`. The variable's message isn't expanded.
///
/// # Errors
///
/// If allocation fails.
fn unset(
    alloc: Global,
    text: &str,
    scope: &Scope<'_, '_>,
    missing: &NoSuchVariable,
) -> Result<Unset, AllocError>
    ensures { IfOk result (λ unset. string_bytes unset.name
        ≡ looked_up (string_bytes missing.now.name)) }
{
    let name = without_question(&missing.name)?;
    let found = variable_at(alloc, text.as_bytes(), missing.position, scope.above)?;
    let (operator, message) = match found {
        Some(variable) => (variable.operator, variable.message),
        None => (None, &b""[..]),
    };
    let is_filled = matches!(operator, Some(Operator::ColonQuestion));
    Ok(Unset {
        name: String::from_str(alloc, name)?,
        is_empty: is_filled && scope.get(name).is_some(),
        message: printable(alloc, message)?,
    })
}

/// Removes the leading digit of a name, if any. In a template of a shell-style text, a name can begin with a
/// digit (see `ShellMap`).
///
/// # Errors
///
/// If allocation fails.
fn without_question(name: &str) -> Result<&str, AllocError>
    ensures { IfOk result (λ bare. bare.now ≡ looked_up name.now) }
{
    let Some((first, rest)) = name.as_bytes().split_first() else {
        return Ok(name);
    };
    if !first.is_ascii_digit() {
        return Ok(name);
    }
    match str::from_utf8(rest) {
        Ok(rest) => Ok(rest),
        // A name is ASCII, so this isn't reached.
        Err(_) => Err(AllocError),
    }
}

/// Returns the variable of `text` whose counterpart in the text's template is at `position`, or `None` if
/// there is none.
///
/// # Errors
///
/// If allocation fails.
fn variable_at<'t>(
    alloc: Global,
    text: &'t [u8],
    position: usize,
    above: &Variables<'_>,
) -> Result<Option<TextVariable<'t>>, AllocError> {
    let chosen = forms();
    let names = ChosenNames {
        choice: &chosen.names,
        variables: None,
    };
    let template = match style_of(&chosen, &names).byte_template(alloc, text) {
        Ok(template) => template,
        Err(TextError::OutOfMemory(e)) => return Err(e),
        Err(TextError::Refused(_)) => return Ok(None),
    };
    let counterparts = counterparts(alloc, text, &template, &chosen, above)?;
    Ok(counterparts.get(&position).copied())
}

/// Returns the chosen placeholders for values of `.env` files: a shell's forms of all names. Unset variables
/// without an operator expand to nothing.
fn forms() -> Chosen<'static> {
    Chosen {
        forms: Forms::Shell,
        names: Choice::All,
        missing: Missing::Nothing,
    }
}

/// Returns the variables of a text that are unset, have no operator, and are needed by the text's expansion.
///
/// # Errors
///
/// If allocation fails.
pub fn unset_variables<'t>(
    alloc: Global,
    text: &'t [u8],
    scope: &Scope<'_, '_>,
) -> Result<Vec<TextVariable<'t>>, AllocError> {
    if has_no_dollar(text) {
        return Ok(Vec::new(alloc));
    }
    let values = ShellMap { map: scope };
    unset_in(alloc, text, &forms(), scope.above, &values)
}

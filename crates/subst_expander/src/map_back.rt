//! Faults of templates, mapped back to the texts from which the templates were converted.

ghost use Rattle.std.specs.Prelude.{◌≡◌, IfOk, Some, string_bytes};
ghost use Rattle.std.specs.List.{zip};
ghost use Rattle.subst_expander.specs.Fill.{looked_up_name as looked_up, grammar_in};
ghost use Rattle.subst_foreign.specs.declared.forms.Forms.TheVariants.{Shell};
ghost use Rattle.subst_expander.specs.MapBack.{len_in_text, AreCounterparts, ArePaired, AreMapped, IsMappedBy, IsMappedCause};

use crate::fault::{Cause, Fault, Unset};
use crate::fill::{LookUpValues, missing};
use crate::kinds::Chosen;
use crate::layers::Variables;
use crate::part::no_faults;
use crate::placeholders::{ChosenNames, style_of};
use crate::terminal::printable;
use std::alloc::{AllocError, Global};
use std::collections::HashMap;
use subst::foreign::{Forms, Missing, Operator, Style, TextError, TextVariable};
use subst::{ByteTemplate, Error, Variable, VariableMap, substitute_bytes};

/// The variables of a text, by the positions of the same variables in its template.
pub type Counterparts<'t> = HashMap<usize, TextVariable<'t>>;

/// Maps a template's faults back to the text that was converted into the template. `counterparts` has the
/// text's variables, by the positions of the same variables in the template.
///
/// # Errors
///
/// If allocation fails.
pub fn map_all_back(
    alloc: Global,
    counterparts: &Counterparts<'_>,
    chosen: &Chosen<'_>,
    variables: &Variables<'_>,
    faults: Vec<Fault>,
) -> Result<Vec<Fault>, AllocError>
    ensures { IfOk result
        (λ mapped. AreMapped chosen.now.forms counterparts.now faults.items mapped.items) }
{
    let mut all = Vec::with_capacity(alloc, faults.len())?;
    for fault in faults {
        let found = counterparts.get(&fault.range.start);
        all.push(map_back(alloc, fault, found.copied(), chosen, variables)?)?;
    }
    Ok(all)
}

/// Returns the variables of `text`, by the positions of the same variables in its `template`.
///
/// # Errors
///
/// If allocation fails.
pub fn counterparts<'t>(
    alloc: Global,
    text: &'t [u8],
    template: &[u8],
    chosen: &Chosen<'_>,
    variables: &Variables<'_>,
) -> Result<Counterparts<'t>, AllocError>
    ensures { IfOk result
        (λ counterparts. AreCounterparts (grammar_in chosen.now (Some variables.entry))
        text.now template.now counterparts) }
{
    let names = ChosenNames {
        choice: &chosen.names,
        variables: Some(variables),
    };
    let listed = style_of(chosen, &names).variables(alloc, text)?;
    match ByteTemplate::from_slice(alloc, template) {
        Ok(template) => paired(alloc, template.variables(alloc)?, listed),
        Err(e) => {
            no_faults(alloc, e)?;
            Ok(HashMap::new(alloc))
        }
    }
}

/// Returns the unset variables that a text's expansion needs and that have no operator. `values` is the map
/// in which the text's template looks up names.
///
/// # Errors
///
/// If allocation fails.
pub fn unset_in<'t, 'm, M: VariableMap<'m>>(
    alloc: Global,
    text: &'t [u8],
    chosen: &Chosen<'_>,
    variables: &Variables<'_>,
    values: &'m M,
) -> Result<Vec<TextVariable<'t>>, AllocError>
where
    M::Value: Drop,
{
    let names = ChosenNames {
        choice: &chosen.names,
        variables: Some(variables),
    };
    let strict = Style {
        missing: Missing::Fault,
        ..style_of(chosen, &names)
    };
    let mut unset = Vec::new(alloc);
    let template = match strict.byte_template(alloc, text) {
        Ok(template) => template,
        Err(TextError::OutOfMemory(e)) => return Err(e),
        Err(TextError::Refused(_)) => return Ok(unset),
    };
    let counterparts = counterparts(alloc, text, &template, chosen, variables)?;
    for e in missing(alloc, &template, values)? {
        if let Some(variable) = counterparts.get(&e.position)
            && variable.operator.is_none()
            && !is_unreadable(variables, variable.name)
        {
            unset.push(*variable)?;
        }
    }
    Ok(unset)
}

/// Returns whether the value of a name isn't UTF-8.
fn is_unreadable(variables: &Variables<'_>, name: &[u8]) -> bool {
    match str::from_utf8(name) {
        Ok(name) => variables.is_unreadable(name),
        Err(_) => false,
    }
}

/// Returns a map from the positions of variables in `template` to the variables at the same indices in
/// `text`.
///
/// # Errors
///
/// If allocation fails.
fn paired<'t>(
    alloc: Global,
    template: Vec<Variable<'_>>,
    text: Vec<TextVariable<'t>>,
) -> Result<Counterparts<'t>, AllocError>
    ensures { IfOk result
        (λ counterparts. ArePaired (zip template.entry.items text.entry.items) counterparts) }
{
    let mut counterparts = HashMap::new(alloc);
    for (variable, counterpart) in template.into_iter().zip(text) {
        counterparts.insert(variable.position, counterpart)?;
    }
    Ok(counterparts)
}

/// Maps a template's fault back to the text. The fault moves to the position of `found`, or keeps its
/// position if `found` is `None`.
///
/// # Errors
///
/// If allocation fails.
fn map_back(
    alloc: Global,
    fault: Fault,
    found: Option<TextVariable<'_>>,
    chosen: &Chosen<'_>,
    variables: &Variables<'_>,
) -> Result<Fault, AllocError>
    ensures { IfOk result (IsMappedBy chosen.now.forms found.entry fault) }
{
    let Fault { path, range, cause } = fault;
    let start = match found {
        Some(variable) => variable.position,
        None => range.start,
    };
    let cause = map_cause_back(alloc, cause, found, chosen, variables)?;
    let end = start.saturating_add(len_of(&cause, range.end.saturating_sub(range.start)));
    Ok(Fault {
        path,
        range: start..end,
        cause,
    })
}

/// Returns the length of the name in a cause, or `len` if the cause has no name.
fn len_of(cause: &Cause, len: usize) -> usize
    ensures { result ≡ len_in_text cause.now len }
{
    match cause {
        Cause::Unset(unset) => unset.name.len(),
        Cause::Unreadable(name) => name.len(),
        _ => len,
    }
}

/// Maps a cause back from a template to its text: a missing variable gets the name that it has in the text.
///
/// # Errors
///
/// If allocation fails.
fn map_cause_back(
    alloc: Global,
    cause: Cause,
    found: Option<TextVariable<'_>>,
    chosen: &Chosen<'_>,
    variables: &Variables<'_>,
) -> Result<Cause, AllocError>
    ensures { IfOk result (IsMappedCause chosen.now.forms cause) }
{
    if let Cause::Refused(Error::NoSuchVariable(e)) = &cause {
        let name = looked_up_name(&e.name, Some(chosen.forms));
        return Ok(Cause::Unset(unset(alloc, name, found, chosen, variables)?));
    }
    Ok(cause)
}

/// Returns the unset variable `name`. Its message is that of `found`, the variable's use in the text.
///
/// # Errors
///
/// If allocation fails.
fn unset(
    alloc: Global,
    name: &str,
    found: Option<TextVariable<'_>>,
    chosen: &Chosen<'_>,
    variables: &Variables<'_>,
) -> Result<Unset, AllocError>
    ensures { IfOk result (λ unset. string_bytes unset.name ≡ name.now) }
{
    let (operator, message) = match found {
        Some(variable) => (variable.operator, variable.message),
        None => (None, &b""[..]),
    };
    let is_filled = matches!(operator, Some(Operator::ColonQuestion));
    Ok(Unset {
        name: String::from_str(alloc, name)?,
        is_empty: is_filled && variables.values.contains_key(name),
        message: expanded_message(alloc, message, chosen, variables)?,
    })
}

/// Returns a variable's message, escaped for a terminal. The message is expanded first, unless its expansion
/// is refused.
///
/// # Errors
///
/// If allocation fails.
fn expanded_message(
    alloc: Global,
    message: &[u8],
    chosen: &Chosen<'_>,
    variables: &Variables<'_>,
) -> Result<String, AllocError> {
    let names = ChosenNames {
        choice: &chosen.names,
        variables: Some(variables),
    };
    let template = match style_of(chosen, &names).byte_template(alloc, message) {
        Ok(template) => template,
        Err(TextError::OutOfMemory(e)) => return Err(e),
        Err(TextError::Refused(_)) => return printable(alloc, message),
    };
    match substitute_bytes(
        alloc,
        &template,
        &LookUpValues::of(&variables.values, Some(chosen.forms)),
    ) {
        Ok(text) => printable(alloc, &text),
        Err(Error::OutOfMemory(e)) => Err(e),
        Err(_) => printable(alloc, message),
    }
}

/// Returns a variable's name, from the name that a template looks up. For [`Forms::Shell`], a leading digit
/// 1, 2 or 3 is removed. For other forms, and for `None`, the name is unchanged.
pub fn looked_up_name(name: &str, forms: Option<Forms>) -> &str
    ensures { result.now ≡ looked_up forms name.now }
{
    match forms {
        Some(Forms::Shell) => without_question(name),
        Some(Forms::Own | Forms::Envsubst | Forms::Common) | None => name,
    }
}

/// Removes a leading digit 1, 2 or 3 from a name in a template of a shell-style text (see `ShellMap`). A name
/// that begins with none of these digits is returned unchanged.
#[tactic(auto, using(crate::proofs::MapBackLemmas::no_question))]
fn without_question(name: &str) -> &str
    ensures { result.now ≡ looked_up (Some Shell) name.now }
{
    if let Some(name) = name.strip_prefix('1') {
        return name;
    }
    if let Some(name) = name.strip_prefix('2') {
        return name;
    }
    if let Some(name) = name.strip_prefix('3') {
        return name;
    }
    name
}

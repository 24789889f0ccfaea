//! Expands the parts of a source: the whole source, or each string of a document.

ghost use Rattle.std.specs.Prelude.{◌≡◌, ◌≢◌, ◌++◌, [], List, None, IfErr, IfOk, map};
ghost use Rattle.std.specs.List.{All, AllZip};
ghost use Rattle.std.specs.List.Sorted.{IsPermutation};
ghost use Rattle.subst.specs.Calls.Variables as calls;
ghost use Rattle.subst.specs.Calls.Variables.{missing_variable, variable_of};
ghost use Rattle.subst.specs.ErrorFault.{parse_fault};
ghost use Rattle.subst.specs.Language.Sentence.{Spells};
ghost use Rattle.subst.specs.Language.Tree.{Tree};
ghost use Rattle.subst.specs.Language.Variables.{variables_of};
ghost use Rattle.subst.specs.Reading.{variable_of as found_variable};
ghost use Rattle.subst.specs.Template.{IsTemplate};
ghost use Rattle.subst_expander.specs.Faults.{AreFaultsBy, AreFaultsOf, AreForms, AreMissing, AreUnreadable, IsForm, IsMissingAt, IsUnreadableAt};
ghost use Rattle.subst_expander.specs.Fill.{grammar_in, GivesBy, GivesFor};
ghost use Rattle.subst_expander.specs.Layers.{ForEntries};
ghost use Rattle.subst_expander.specs.Listing.{is_optional, kind_by, kind_without, listed, variable_in, AreUses};
ghost use Rattle.subst_expander.specs.declared.fault.Fault.{Fault as SpecFault};
ghost use Rattle.subst_expander.specs.declared.kinds.Placeholders.TheVariants as kinds;
ghost use Rattle.subst_language.specs.Language.Name.{IsName};

use crate::fault::{Cause, Fault, one_fault, range_of_name};
use crate::fill;
use crate::fill::{LookUpValues, Refusal};
use crate::kinds::{Chosen, Placeholders};
use crate::layers::Variables;
use crate::listing::printable_default;
use crate::map_back::{counterparts, looked_up_name, map_all_back};
use crate::placeholders::{ChosenNames, style_of};
use std::alloc::{AllocError, Global};
use std::ops::Range;
use subst::error::{NoSuchVariable, ParseError};
use subst::foreign::{FormAt, Forms, Missing, Operator, TextError, TextVariable};
use subst::laws::one_reading;
use subst::{ByteTemplate, Error, Variable, VariableKind};

/// The outcome for a text or byte string: a `T`, or the faults in the order of their positions.
pub type OrFaults<T> = Result<T, Vec<Fault>>;

/// Expands a text, a byte string or a string of a document, or returns its faults.
///
/// # Errors
///
/// If allocation fails.
pub fn fill_bytes(
    alloc: Global,
    source: &[u8],
    placeholders: &Placeholders<'_>,
    variables: &Variables<'_>,
) -> Result<OrFaults<Vec<u8>>, AllocError>
    ensures gives { ForEntries variables.now (λ entries. IfOk result (λ outcome. IfOk outcome
        (λ output. GivesFor placeholders.now entries source.now output.items))) }
    ensures refused { ForEntries variables.now (λ entries. IfOk result (λ outcome. IfErr outcome
        (λ faults. AreFaultsOf placeholders.now entries source.now faults.items))) }
{
    match placeholders {
        Placeholders::Own => fill_template(alloc, source, None, variables),
        Placeholders::Chosen(chosen) => fill_chosen(alloc, source, chosen, variables),
    }
}

/// Expands the chosen variables of another tool's text, or returns its faults. The faults are refused forms,
/// or else variables whose values are missing or aren't UTF-8.
fn fill_chosen(
    alloc: Global,
    source: &[u8],
    chosen: &Chosen<'_>,
    variables: &Variables<'_>,
) -> Result<OrFaults<Vec<u8>>, AllocError>
    ensures gives { ForEntries variables.now (λ entries. IfOk result (λ outcome. IfOk outcome
        (λ output. GivesFor (kinds.Chosen chosen.now) entries source.now output.items))) }
    ensures refused { ForEntries variables.now (λ entries. IfOk result (λ outcome. IfErr outcome
        (λ faults. AreFaultsOf (kinds.Chosen chosen.now) entries source.now faults.items))) }
{
    let template = match chosen_template(alloc, source, chosen, Some(variables))? {
        Ok(template) => template,
        Err(faults) => return Ok(Err(faults)),
    };
    match fill_template(alloc, &template, Some(chosen.forms), variables)? {
        Ok(output) => Ok(Ok(output)),
        Err(faults) => {
            let counterparts = counterparts(alloc, source, &template, chosen, variables)?;
            Ok(Err(map_all_back(alloc, &counterparts, chosen, variables, faults)?))
        }
    }
}

/// Converts another tool's text into a template, or returns a fault for each refused form of the text.
///
/// # Errors
///
/// If allocation fails.
fn chosen_template(
    alloc: Global,
    source: &[u8],
    chosen: &Chosen<'_>,
    variables: Option<&Variables<'_>>,
) -> Result<OrFaults<Vec<u8>>, AllocError>
    ensures template { let g = grammar_in chosen.now variables.entry in IfOk result (λ outcome.
        IfOk outcome (λ template. IsTemplate g chosen.now.missing source.now template.items)) }
    ensures refused { IfOk result (λ outcome. IfErr outcome (λ faults. (¬ (faults.items ≡ []))
        × AreForms (grammar_in chosen.now variables.entry) source.now faults.items)) }
{
    let names = ChosenNames {
        choice: &chosen.names,
        variables,
    };
    let style = style_of(chosen, &names);
    match style.byte_template(alloc, source) {
        Ok(template) => Ok(Ok(template)),
        Err(TextError::OutOfMemory(e)) => Err(e),
        Err(TextError::Refused(_)) => {
            // A text has one list of refused forms, so the list isn't empty.
            one_reading(style);
            let forms = style.refusals(alloc, source)?;
            Ok(Err(refused_forms(alloc, forms)?))
        }
    }
}

/// Returns a fault for each refused form of a text, in order.
///
/// # Errors
///
/// If allocation fails.
fn refused_forms(alloc: Global, forms: Vec<FormAt>) -> Result<Vec<Fault>, AllocError>
    ensures { IfOk result (λ faults. AllZip IsForm forms.items faults.items) }
{
    let mut faults = Vec::with_capacity(alloc, forms.len())?;
    for at in forms {
        faults.push(refused_form(alloc, at))?;
    }
    Ok(faults)
}

/// Returns the fault of a refused form.
fn refused_form(alloc: Global, at: FormAt) -> Fault
    ensures { IsForm at result }
{
    Fault {
        path: String::new(alloc),
        range: at.position..at.position.saturating_add(1),
        cause: Cause::Form(at.form),
    }
}

/// Expands a template, or returns its faults. `forms` are the forms of the text that was converted into the
/// template, or `None` if the source is a template itself.
fn fill_template(
    alloc: Global,
    template: &[u8],
    forms: Option<Forms>,
    variables: &Variables<'_>,
) -> Result<OrFaults<Vec<u8>>, AllocError>
    ensures gives { ForEntries variables.now (λ entries. IfOk result (λ outcome. IfOk outcome
        (λ output. GivesBy forms entries template.now output.items))) }
    ensures refused { ForEntries variables.now (λ entries. IfOk result (λ outcome. IfErr outcome
        (λ faults. (¬ (faults.items ≡ []))
        × AreFaultsBy forms entries template.now faults.items))) }
{
    let filled = fill::bytes(alloc, template, &LookUpValues::of(&variables.values, forms))?;
    let unreadable = unreadable_in(alloc, template, forms, variables)?;
    match filled {
        Ok(output) if unreadable.is_empty() => Ok(Ok(output)),
        Ok(_) => Ok(Err(unreadable)),
        Err(Refusal::NotATemplate(range, e)) => {
            Ok(Err(one_fault(alloc, range, Cause::Refused(e))?))
        }
        Err(Refusal::Missing(missing)) => {
            Ok(Err(with_missing(alloc, missing, unreadable, forms, variables)?))
        }
    }
}

/// Returns a fault for each variable of a template whose value isn't UTF-8, in order, or no faults if the
/// bytes aren't a template.
///
/// # Errors
///
/// If allocation fails.
fn unreadable_in(
    alloc: Global,
    template: &[u8],
    forms: Option<Forms>,
    variables: &Variables<'_>,
) -> Result<Vec<Fault>, AllocError>
    ensures { ForEntries variables.now (λ entries. IfOk result (λ faults. (t : Tree)
        → Spells t template.now → AreUnreadable forms entries (variables_of 0 t) faults.items)) }
{
    if variables.are_readable() {
        return Ok(Vec::new(alloc));
    }
    let template = match ByteTemplate::from_slice(alloc, template) {
        Ok(template) => template,
        Err(e) => return no_faults(alloc, e),
    };
    unreadable_of(alloc, template.variables(alloc)?, forms, variables)
}

/// Returns an empty list of faults for bytes whose parsing as a template failed with `e`.
///
/// # Errors
///
/// If `e` is out of memory.
pub fn no_faults(alloc: Global, e: ParseError) -> Result<Vec<Fault>, AllocError>
    ensures none { IfOk result (λ faults. faults.items ≡ []) }
    ensures wrong { IfOk result (λ faults. parse_fault e ≢ None) }
{
    if let ParseError::OutOfMemory(e) = e {
        return Err(e);
    }
    Ok(Vec::new(alloc))
}

/// Returns a fault for each variable in `list` whose value isn't UTF-8, in order.
///
/// # Errors
///
/// If allocation fails.
fn unreadable_of(
    alloc: Global,
    list: Vec<Variable<'_>>,
    forms: Option<Forms>,
    variables: &Variables<'_>,
) -> Result<Vec<Fault>, AllocError>
    ensures { ForEntries variables.now (λ entries. IfOk result (λ faults.
        AreUnreadable forms entries (map variable_of list.entry.items) faults.items)) }
{
    let mut faults = Vec::new(alloc);
    for variable in list {
        let name = looked_up_name(variable.name, forms);
        if variables.is_unreadable(name) {
            faults.push(unreadable(alloc, variable.position, name)?)?;
        }
    }
    Ok(faults)
}

/// Returns the fault of a variable whose value isn't UTF-8.
fn unreadable(alloc: Global, position: usize, name: &str) -> Result<Fault, AllocError>
    ensures { IfOk result (IsUnreadableAt position name.now) }
{
    Ok(Fault {
        path: String::new(alloc),
        range: range_of_name(position, name),
        cause: Cause::Unreadable(String::from_str(alloc, name)?),
    })
}

/// Appends to `faults` the fault of each missing variable in `list`, unless the variable's value isn't UTF-8.
/// Returns all faults in the order of their positions.
///
/// # Errors
///
/// If allocation fails.
fn with_missing(
    alloc: Global,
    list: Vec<NoSuchVariable>,
    faults: Vec<Fault>,
    forms: Option<Forms>,
    variables: &Variables<'_>,
) -> Result<Vec<Fault>, AllocError>
    ensures { ForEntries variables.now (λ entries. IfOk result (λ all. (missing : List SpecFault)
        × AreMissing forms entries (map missing_variable list.items) missing
        × IsPermutation (faults.items ++ missing) all.items)) }
{
    let mut all = faults;
    for e in list {
        if !variables.is_unreadable(looked_up_name(&e.name, forms)) {
            all.push(missing(alloc, e))?;
        }
    }
    all.sort_unstable_by_key(|fault| fault.range.start);
    Ok(all)
}

/// Returns the fault of a missing variable.
fn missing(alloc: Global, e: NoSuchVariable) -> Fault
    ensures { IsMissingAt (missing_variable e) result }
{
    Fault {
        path: String::new(alloc),
        range: range_of_name(e.position, &e.name),
        cause: Cause::Refused(Error::NoSuchVariable(e)),
    }
}

/// A use of a variable, for the listing.
#[derive(Drop)]
pub struct Occurrence {
    /// The variable's name.
    pub name: String,
    /// The byte range of the name in the text that was searched for uses.
    pub range: Range<usize>,
    /// How the variable expands if it is unset.
    pub kind: VariableKind,
    /// The default, escaped for a terminal, or an empty text.
    pub default: String,
}

/// Returns the uses of variables in a text or byte string, or its faults.
///
/// # Errors
///
/// If allocation fails.
pub fn uses_in_bytes(
    alloc: Global,
    source: &[u8],
    placeholders: &Placeholders<'_>,
) -> Result<OrFaults<Vec<Occurrence>>, AllocError>
    ensures { IfOk result (λ outcome. IfOk outcome
        (λ uses. AreUses placeholders.now source.now uses.items)) }
{
    match placeholders {
        Placeholders::Own => uses_in(alloc, source, placeholders),
        Placeholders::Chosen(chosen) => uses_in_chosen(alloc, source, placeholders, chosen),
    }
}

/// Returns the uses of chosen variables in another tool's text, or its refused forms.
fn uses_in_chosen(
    alloc: Global,
    source: &[u8],
    placeholders: &Placeholders<'_>,
    chosen: &Chosen<'_>,
) -> Result<OrFaults<Vec<Occurrence>>, AllocError>
    ensures { IfOk result (λ outcome. IfOk outcome
        (λ uses. AreUses (kinds.Chosen chosen.now) source.now uses.items)) }
{
    if let Err(faults) = chosen_template(alloc, source, chosen, None)? {
        return Ok(Err(faults));
    }
    let names = ChosenNames {
        choice: &chosen.names,
        variables: None,
    };
    let found = style_of(chosen, &names).variables(alloc, source)?;
    let variables = variables_in(alloc, source, chosen.missing, found)?;
    Ok(Ok(uses_of(alloc, source, placeholders, variables)?))
}

/// Converts the variables of another tool's text into variables of the library.
fn variables_in<'t>(
    alloc: Global,
    source: &[u8],
    missing: Missing,
    found: Vec<TextVariable<'t>>,
) -> Result<Vec<Variable<'t>>, AllocError>
    ensures { All (λ v. IsName v.name.now) found.entry.items
        → IfOk result (λ variables. map variable_of variables.items
        ≡ map (λ v. variable_in missing source.now (found_variable v)) found.entry.items) }
{
    let mut variables = Vec::with_capacity(alloc, found.len())?;
    for it in found {
        variables.push(variable_in(source, missing, it))?;
    }
    Ok(variables)
}

/// Converts a variable of another tool's text into a variable of the library.
fn variable_in<'t>(source: &[u8], missing: Missing, it: TextVariable<'t>) -> Variable<'t>
    ensures { IsName it.entry.name.now
        → variable_of result ≡ variable_in missing source.now (found_variable it.entry) }
{
    let name = str::from_utf8(it.name).unwrap_or("");
    let is_optional = is_optional(source, it.position, name);
    Variable {
        name,
        position: it.position,
        kind: kind_of(it.operator, missing, is_optional),
    }
}

/// Returns how an unset variable of another tool's text expands. Its operator decides this; without an
/// operator, `is_optional` and `missing` do.
fn kind_of(operator: Option<Operator>, missing: Missing, is_optional: bool) -> VariableKind
    ensures { calls.kind_of result ≡ kind_by (kind_without missing is_optional) operator }
{
    match operator {
        Some(Operator::Question | Operator::ColonQuestion) => VariableKind::Required,
        Some(Operator::Plus | Operator::ColonPlus) => VariableKind::Optional,
        Some(_) => VariableKind::WithDefault,
        None if is_optional || matches!(missing, Missing::Nothing) => VariableKind::Optional,
        None => VariableKind::Required,
    }
}

/// Returns whether a variable is written `${NAME?}`. Its `name` is at `position` of `source`. The result is
/// also true for a shell's `${NAME?message}`, which has the operator `?`.
fn is_optional(source: &[u8], position: usize, name: &str) -> bool
    ensures { result ≡ is_optional source.now position name.now }
{
    let before = source.get(position.saturating_sub(1));
    let after = source.get(position.saturating_add(name.len()));
    before == Some(&b'{') && after == Some(&b'?')
}

/// Returns the uses of variables in a template, or the fault of bytes that aren't a template.
fn uses_in(
    alloc: Global,
    source: &[u8],
    placeholders: &Placeholders<'_>,
) -> Result<OrFaults<Vec<Occurrence>>, AllocError>
    ensures { IfOk result (λ outcome. IfOk outcome
        (λ uses. AreUses kinds.Own source.now uses.items)) }
{
    match ByteTemplate::from_slice(alloc, source) {
        Ok(template) => {
            let variables = template.variables(alloc)?;
            Ok(Ok(uses_of(alloc, source, placeholders, variables)?))
        }
        Err(ParseError::OutOfMemory(e)) => Err(e),
        Err(e) => {
            let e = Error::from(e);
            let range = e.source_range();
            Ok(Err(one_fault(alloc, range, Cause::Refused(e))?))
        }
    }
}

/// Converts the variables of `source` into uses for the listing.
fn uses_of(
    alloc: Global,
    source: &[u8],
    placeholders: &Placeholders<'_>,
    variables: Vec<Variable<'_>>,
) -> Result<Vec<Occurrence>, AllocError>
    ensures { IfOk result (λ uses. map listed uses.items ≡ map variable_of variables.entry.items) }
{
    let mut uses = Vec::with_capacity(alloc, variables.len())?;
    for variable in variables {
        uses.push(use_of(alloc, source, placeholders, variable)?)?;
    }
    Ok(uses)
}

/// Converts a variable of `source` into a use for the listing.
fn use_of(
    alloc: Global,
    source: &[u8],
    placeholders: &Placeholders<'_>,
    variable: Variable<'_>,
) -> Result<Occurrence, AllocError>
    ensures { IfOk result (λ it. listed it ≡ variable_of variable.entry) }
{
    let Variable {
        name,
        position,
        kind,
    } = variable;
    let range = range_of_name(position, name);
    let default = if kind == VariableKind::WithDefault {
        printable_default(alloc, source, range.end, placeholders)?
    } else {
        String::new(alloc)
    };
    Ok(Occurrence {
        name: String::from_str(alloc, name)?,
        range,
        kind,
        default,
    })
}

//! Lists of all variables of a source's parts, or of the missing ones. Each list is made in one pass over the
//! parts, and only the list and its names are allocated.

ghost use Rattle.std.specs.Prelude.{◌≡◌, ◌∷◌, ◌≤◌, [], IfOk, MatchOption};
ghost use Rattle.std.specs.Prelude.{is_some, length, map, option_to_list};
ghost use Rattle.std.specs.List.{All};
ghost use Rattle.std.specs.Str.{IsUtf8};
ghost use Rattle.subst_error.specs.Range.{IsRangeIn};
ghost use Rattle.subst_language.specs.Language.Sentence.{ByTree};
ghost use Rattle.subst_language.specs.Language.Variables.{all_missing, variables_of};
ghost use Rattle.subst_language.specs.Calls.VariableMap.{ByNames};
ghost use Rattle.subst_language.specs.Calls.Variables.{kind_of, missing_variable, missing_range, variable_of};
ghost use Rattle.subst_language.specs.Calls.Variables.{variable_range};
ghost use Rattle.subst_expand.specs.Packed.{unpacked_parts};
ghost use Rattle.subst_language.specs.Parts.Meaning.{AllFit, IsInSource, IsTemplateOf};
ghost use Rattle.subst_language.specs.Parts.Meaning.{part_missing, part_variables, parts_missing, variables_in};
ghost use Rattle.subst_language.specs.Parts.Meaning as parts;

use crate::expand::name_at;
use crate::packed_part::{Offset, PackedPart};
use crate::part_vec::{CowParts, PartSlice};
use std::alloc::{AllocError, Global};
use subst_error::{NoSuchVariable, NoSuchVariableRef};
use subst_language::{Part, Variable, VariableKind, VariableMap};

/// Returns the variables of the parts of a source, in the order of the source, including those in defaults.
///
/// # Errors
///
/// If allocation fails.
pub fn variables<'s>(
    alloc: Global,
    source: &'s [u8],
    parts: &CowParts<'_>,
) -> Result<Vec<Variable<'s>>, AllocError>
    requires { IsTemplateOf source.now parts.now }
    ensures variables { IfOk result (λ list. ByTree source.now
        (λ t. map variable_of list.items ≡ variables_of 0 t)) }
    ensures range { IfOk result (λ list.
        All (λ v. (variable_range v).end ≤ length source.now) list.items) }
    ensures text { IsUtf8 source.now → IfOk result (λ list.
        All (λ v. IsRangeIn source.now (variable_range v)) list.items) }
{
    match parts.as_slice() {
        PartSlice::Narrow(packed) => variables_of::<u32>(alloc, source, packed),
        PartSlice::Wide(packed) => variables_of::<usize>(alloc, source, packed),
    }
}

/// Returns the variables of packed parts, in the order of the source.
fn variables_of<'s, O: Offset>(
    alloc: Global,
    source: &'s [u8],
    packed: &[PackedPart<O>],
) -> Result<Vec<Variable<'s>>, AllocError>
    requires { let parts = unpacked_parts O.value packed.now in
        AllFit 0 (length parts) source.now parts }
    ensures { IfOk result (λ list. map variable_of list.items
        ≡ variables_in (unpacked_parts O.value packed.now) source.now) }
{
    let mut list = Vec::new(alloc);
    for part in packed {
        if let Some(variable) = variable_at(source, part.unpack()) {
            list.push(variable)?;
        }
    }
    Ok(list)
}

/// Returns the variable of a part, if it has one.
fn variable_at(source: &[u8], part: Part) -> Option<Variable<'_>>
    requires { IsInSource source.now part }
    ensures { MatchOption result (part_variables part source.now ≡ [])
        (λ variable. part_variables part source.now ≡ variable_of variable ∷ []) }
{
    let (name, kind) = match part {
        Part::Literal(_) | Part::Escaped(_) => return None,
        Part::Variable(name) => (name, VariableKind::Required),
        Part::Default { name, .. } => (name, kind_before(&source[name.end..])),
    };
    Some(Variable {
        name: name_at(source, name),
        position: name.start,
        kind,
    })
}

/// Returns the kind of a variable that isn't required: `Optional` if `text` begins with a question mark, or
/// else `WithDefault`. `text` is the source after the variable's name.
fn kind_before(text: &[u8]) -> VariableKind
    ensures { kind_of result ≡ parts.kind_before text.now }
{
    match text.first() {
        Some(b'?') => VariableKind::Optional,
        _ => VariableKind::WithDefault,
    }
}

/// Returns each variable that the parts of a source need but that has no value in `variables`, in the order
/// of the source. No value is read.
///
/// # Errors
///
/// If allocation fails.
pub fn missing<'a, M: VariableMap<'a>>(
    alloc: Global,
    source: &[u8],
    parts: &CowParts<'_>,
    variables: &'a M,
) -> Result<Vec<NoSuchVariable>, AllocError>
where
    M::Value: Drop,
    requires { IsTemplateOf source.now parts.now }
    ensures missing { ByNames (M.look_up variables.now) (λ look. ByTree source.now
        (λ t. IfOk result (λ list. map missing_variable list.items ≡ all_missing 0 t look))) }
    ensures range { IfOk result (λ list.
        All (λ e. (missing_range e).end ≤ length source.now) list.items) }
    ensures text { IsUtf8 source.now → IfOk result (λ list.
        All (λ e. IsRangeIn source.now (missing_range e)) list.items) }
{
    match parts.as_slice() {
        PartSlice::Narrow(packed) => missing_of::<M, u32>(alloc, source, packed, variables),
        PartSlice::Wide(packed) => missing_of::<M, usize>(alloc, source, packed, variables),
    }
}

/// Returns the missing variables of packed parts, in the order of the source.
fn missing_of<'a, M: VariableMap<'a>, O: Offset>(
    alloc: Global,
    source: &[u8],
    packed: &[PackedPart<O>],
    variables: &'a M,
) -> Result<Vec<NoSuchVariable>, AllocError>
where
    M::Value: Drop,
    requires { let parts = unpacked_parts O.value packed.now in
        AllFit 0 (length parts) source.now parts }
    ensures { ByNames (M.look_up variables.now) (λ look. IfOk result (λ list.
        map missing_variable list.items
        ≡ parts_missing (unpacked_parts O.value packed.now) source.now look)) }
{
    let mut list = Vec::new(alloc);
    let mut at = 0;
    while let Some(part) = packed.get(at) {
        let part = part.unpack();
        if let Some(missing) = missing_at(alloc, source, part, variables)? {
            list.push(missing)?;
        }
        at = next_index(source, part, at + 1, variables);
    }
    Ok(list)
}

/// Returns the variable that a part needs but that has no value in `variables`, or `None` if there is no such
/// variable.
///
/// # Errors
///
/// If allocation fails.
fn missing_at<'a, M: VariableMap<'a>>(
    alloc: Global,
    source: &[u8],
    part: Part,
    variables: &'a M,
) -> Result<Option<NoSuchVariable>, AllocError>
where
    M::Value: Drop,
    requires { IsInSource source.now part }
    ensures { ByNames (M.look_up variables.now) (λ look. IfOk result (λ missing.
        map missing_variable (option_to_list missing) ≡ part_missing part source.now look)) }
{
    let Part::Variable(span) = part else {
        return Ok(None);
    };
    let name = name_at(source, span);
    if has(variables, name) {
        return Ok(None);
    }
    let position = span.start;
    Ok(Some(NoSuchVariableRef { position, name }.into_owned(alloc)?))
}

/// Returns the index of the next part to visit: `next` of `part` if `part` is a default whose name has a
/// value, or else `after`.
fn next_index<'a, M: VariableMap<'a>>(
    source: &[u8],
    part: Part,
    after: usize,
    variables: &'a M,
) -> usize
where
    M::Value: Drop,
    requires { IsInSource source.now part }
    ensures { ByNames (M.look_up variables.now)
        (λ look. result ≡ parts.next_index part source.now look after) }
{
    match part {
        Part::Default { name, next } if has(variables, name_at(source, name)) => next,
        _ => after,
    }
}

/// Returns whether a map has a value for a name.
fn has<'a, M: VariableMap<'a>>(variables: &'a M, name: &str) -> bool
where
    M::Value: Drop,
    ensures { result ≡ is_some (M.look_up variables.now name.now) }
{
    variables.get(name).is_some()
}

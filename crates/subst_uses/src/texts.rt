//! Templates that own their texts.

ghost use Rattle.std.specs.Prelude.{◌≡◌, IfOk, string_bytes};
ghost use Rattle.std.specs.Option.{option_map};
ghost use Rattle.std.specs.BTreeMap.{get_by_text};
ghost use Rattle.subst.specs.Language.Sentence.{ByTree};
ghost use Rattle.subst.specs.Language.Value.{value};
ghost use Rattle.subst.specs.Calls.Outcome.{Expands};

use std::alloc::{AllocError, Global};
use std::collections::BTreeMap;
use subst::error::{ExpandError, ParseError};
use subst::{Template, TemplateBuf};

/// Expands a template that owns its text.
pub fn by_owner(
    alloc: Global,
    template: &TemplateBuf,
    variables: &BTreeMap<String, String>,
) -> Result<String, ExpandError>
    ensures { ByTree template.now (λ t. Expands (λ output. string_bytes output) result
        (value 0 t (λ name. option_map (λ v. string_bytes v) (get_by_text variables.now name)))) }
{
    template.expand(alloc, variables)
}

/// Returns the template of a text. The template owns a copy of the text.
pub fn kept(alloc: Global, source: &str) -> Result<TemplateBuf, ParseError>
    ensures { IfOk result (λ template. template ≡ source.now) }
{
    let template = Template::from_str(alloc, source)?;
    Ok(TemplateBuf::from_template(alloc, &template)?)
}

/// Returns a copy of a template. Clones the template, borrows the clone as a `Template`, and makes the copy
/// from this `Template`.
pub fn copied(alloc: Global, template: &TemplateBuf) -> Result<TemplateBuf, AllocError>
    ensures { IfOk result (λ copy. copy ≡ template.now) }
{
    let clone = template.clone()?;
    TemplateBuf::of_template(alloc, Template::from(&clone))
}

/// Returns `source` if it is a template, or else its fault.
pub fn checked(source: String) -> Result<String, ParseError>
    ensures { IfOk result (λ text. string_bytes text ≡ string_bytes source) }
{
    Ok(TemplateBuf::from_string(source)?.into_source())
}

//! The calls for templates of texts of other tools, which C keeps like any template. For the forms of a
//! shell, a template looks up names that begin with a digit. Each is a question about a variable's value.

ghost use Rattle.std.specs.Prelude.{◌≡◌, ◌≢◌, ◌≤◌, IfOk, IfSome, List, MatchOption, None, ℕ, length};
ghost use Rattle.subst_foreign.specs.Grammar.{grammar};
ghost use Rattle.subst_foreign.specs.Reading.{end_of, variable_of};
ghost use Rattle.subst_foreign.specs.Template.{IsTemplate};
ghost use Rattle.subst_indexed.specs.Parsed.{IsCellsOf};
ghost use Rattle.subst_c.specs.Buffer.{FillsBuffer};
ghost use Rattle.subst_c.specs.Names.{span_at};
ghost use Rattle.subst_c.specs.Results.{IsOther};
ghost use Rattle.subst_c.specs.Style.{AreOf, HasIndex, LiesIn, SetsStyleFault};
ghost use Rattle.subst_c.specs.StyleTemplate.{fault_name, IsFaultInText, IsFaultOfVariable, IsFormRefused, IsMissingIn, IsOtherFault, IsTemplateByStyle, IsTextNameTold, IsTextUseTold, IsValueSeen, IsValueTold};
ghost use Rattle.subst_c.specs.declared.outcome.TheConstants.{DONE, NO_SUCH_STYLE, NOT_A_TEMPLATE};
ghost use Rattle.subst_c.specs.declared.style.Choices.{Choices};

use crate::buffer;
use crate::fault::{self, FaultRecord, NO_SUCH_VARIABLE};
use crate::names::{name_at, use_of};
use crate::outcome::{DONE, NO_SUCH_STYLE, NOT_A_TEMPLATE, OUT_OF_MEMORY};
use crate::question::{question_length, see};
use crate::style::{self, StyleError, StyleFault, StyleRecord, forms_of, variable_in_text};
use crate::value::Value;
use crate::variables::VariableRecord;
use std::alloc::{AllocError, Global};
use subst_error::Error;
use subst_foreign::laws::one_listing;
use subst_foreign::{Names, Style, TextError, TextVariable};
use subst_indexed::cell::Cell;
use subst_indexed::laws;
use subst_template::ByteTemplate;

/// Writes a template for `source`, a text of another tool, to the front of the buffer. The style states which
/// forms and names are variables, and how an unset variable expands. With the choice `Known`, the names that
/// have a value are those of the style's pairs `only`.
#[unsafe(no_mangle)]
pub extern "C" fn subst_template_by_style(
    alloc: Global,
    source: &[u8],
    style: &StyleRecord,
    buffer: &mut [u8],
    needed: &mut usize,
    fault: &mut StyleFault,
) -> u32
    // The buffer begins with the template, which is UTF-8 if the source is, or is unchanged.
    ensures buffer { FillsBuffer (IsTemplateByStyle style.now source.now)
        result needed.old needed.new buffer.old buffer.new }

    // The fault is that of the first refused form.
    ensures fault { SetsStyleFault (IsFormRefused style.now source.now) source.now
        result fault.old fault.new }
    ensures style { result ≢ NO_SUCH_STYLE → (choices : Choices) × AreOf style.now choices }
    ensures no_style { result ≡ NO_SUCH_STYLE → (choices : Choices) → ¬ (AreOf style.now choices) }
    ensures others { result ≢ NO_SUCH_STYLE → IsOther result }
{
    let Some(choices) = style.choices() else {
        return NO_SUCH_STYLE;
    };
    let names = style::names_of(alloc, source, choices.names, style.only, style.only);
    let style = Style {
        forms: choices.forms,
        names: &names,
        missing: choices.missing,
    };
    one_listing(style);
    match style.byte_template(alloc, source) {
        Ok(template) => buffer::deliver(&template, buffer, needed),
        Err(TextError::Refused(first)) => {
            style::refuse(source, &StyleError::Refused(first), fault)
        }
        Err(TextError::OutOfMemory(_)) => OUT_OF_MEMORY,
    }
}

/// Writes the record of the first use of the variable with a number, in a template for a text whose variables
/// have these forms. The span of the name is without the digit of a question.
#[unsafe(no_mangle)]
pub extern "C" fn subst_template_variable_by_style(
    cells: &[Cell],
    template: &[u8],
    forms: u32,
    number: usize,
    first_use: &mut VariableRecord,
) -> u32
    // The record is that of the span that any cells have for the variable, if the template has this span.
    ensures any { IsTextUseTold forms template.now (span_at cells.now number)
        result first_use.old first_use.new }

    // With the cells of the template, each of its names has a record.
    ensures parsed { (names : List (List ℕ)) → IsCellsOf template.now names cells.now
        → IsTextNameTold forms template.now names number result first_use.new }
{
    let Some(forms) = forms_of(forms) else {
        return NO_SUCH_STYLE;
    };
    let Some(name) = name_at(cells, template, number) else {
        return NOT_A_TEMPLATE;
    };
    let question = question_length(forms, &template[name.start..name.end]);
    let full = use_of(template, name);
    *first_use = VariableRecord {
        kind: full.kind,
        position: full.position + question,
        length: full.length - question,
    };
    DONE
}

/// Replaces the value of a text's variable by the value that the text's template looks up for the variable
/// with a number. The variables of the text have these forms.
#[unsafe(no_mangle)]
pub extern "C" fn subst_value_by_style(
    cells: &[Cell],
    template: &[u8],
    forms: u32,
    number: usize,
    value: &mut Value,
) -> u32
    // Whatever the cells are, the new value is that for the name in the span that they have.
    ensures any { IsValueSeen forms template.now (span_at cells.now number)
        result value.old value.new }

    // With the cells of the template, each of its names has a value.
    ensures parsed { (names : List (List ℕ)) → IsCellsOf template.now names cells.now
        → IsValueTold forms names number result value.old value.new }
{
    let Some(forms) = forms_of(forms) else {
        return NO_SUCH_STYLE;
    };
    let Some(name) = name_at(cells, template, number) else {
        return NOT_A_TEMPLATE;
    };
    see(forms, &template[name.start..name.end], value);
    DONE
}

/// Reports in a text the fault of a template for the text: that of a variable which `subst_expand` found
/// unset. The style is that with which the template was made.
#[unsafe(no_mangle)]
pub extern "C" fn subst_fault_by_style(
    alloc: Global,
    source: &[u8],
    style: &StyleRecord,
    template: &[u8],
    fault: &FaultRecord,
    text_fault: &mut StyleFault,
) -> u32
    // The new record is that of the variable of the text that has the index of the template's variable.
    ensures done { result ≡ DONE
        → IsFaultInText style.now source.now template.now fault.now text_fault.new }
    ensures within { result ≡ DONE → LiesIn source.now text_fault.new }
    ensures kept { result ≢ DONE → text_fault.new ≡ text_fault.old }

    // If the template is one for the text, and the fault is that of a variable of the template, the result
    // isn't `NOT_A_TEMPLATE`.
    ensures not_a_template { result ≡ NOT_A_TEMPLATE
        → IsTemplateByStyle style.now source.now template.now
        → ¬ (IsFaultOfVariable template.now fault.now) }
    ensures style { result ≢ NO_SUCH_STYLE → (choices : Choices) × AreOf style.now choices }
    ensures no_style { result ≡ NO_SUCH_STYLE → (choices : Choices) → ¬ (AreOf style.now choices) }
    ensures others { IsOtherFault result }
{
    let Some(choices) = style.choices() else {
        return NO_SUCH_STYLE;
    };
    let names = style::names_of(alloc, source, choices.names, style.only, style.only);
    let style = Style {
        forms: choices.forms,
        names: &names,
        missing: choices.missing,
    };
    match variable_of_fault(alloc, source, style, template, fault) {
        Ok(Some(variable)) => {
            *text_fault = StyleFault::of_variable(&variable);
            DONE
        }
        Ok(None) => NOT_A_TEMPLATE,
        Err(_) => OUT_OF_MEMORY,
    }
}

/// Returns the variable of `text` that has the index of the variable of `template` that `fault` reports.
/// Returns `None` if `template` isn't one for `text`, or if `fault` isn't that of a variable of `template`.
///
/// # Errors
///
/// If allocation fails.
fn variable_of_fault<'t, N: Names>(
    alloc: Global,
    text: &'t [u8],
    style: Style<'_, N>,
    template: &[u8],
    fault: &FaultRecord,
) -> Result<Option<TextVariable<'t>>, AllocError>
    ensures index { let g = grammar style.entry.forms (N.all style.entry.names.now)
        (N.counts style.entry.names.now) in
        IfOk result (λ found. IfSome found (λ variable. IsMissingIn template.now fault.now
        × HasIndex g text.now template.now fault.now.position
        (fault_name template.now fault.now) (variable_of variable))) }
    ensures within { IfOk result (λ found. IfSome found (λ variable.
        end_of (variable_of variable) ≤ length text.now)) }
    ensures found { let g = grammar style.entry.forms (N.all style.entry.names.now)
        (N.counts style.entry.names.now) in
        IsTemplate g style.entry.missing text.now template.now
        → IsFaultOfVariable template.now fault.now → IfOk result (λ found. found ≢ None) }
{
    one_listing(style);
    let Some(name) = name_of(template, fault) else {
        return Ok(None);
    };
    let template = match ByteTemplate::from_slice(alloc, template) {
        Ok(template) => template,
        Err(e) => match fault::kind(&Error::from(e)) {
            Some(_) => return Ok(None),
            None => return Err(AllocError),
        },
    };
    variable_in_text(alloc, text, style, &template, fault.position, name)
}

/// Returns the name of the missing variable that `fault` reports in `template`. Returns `None` if the fault
/// is of another kind or isn't in the template.
fn name_of<'t>(template: &'t [u8], fault: &FaultRecord) -> Option<&'t [u8]>
    ensures { MatchOption result (¬ (IsMissingIn template.now fault.now))
        (λ name. IsMissingIn template.now fault.now
        × (name.now ≡ fault_name template.now fault.now)) }
{
    if fault.kind != NO_SUCH_VARIABLE {
        return None;
    }
    let end = fault.position.checked_add(fault.length)?;
    template.get(fault.position..end)
}

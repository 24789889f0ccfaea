//! Expanding texts of other tools, by a style.

ghost use Rattle.std.specs.Prelude.{◌≡◌, ◌≢◌, ◌↔◌, ◌≤◌, ◌<◌, ◌^◌, ◌+◌, None, Some, IfErr, IfOk, IfSome, IsTrue, MatchOption, length, string_bytes, true};
ghost use Rattle.std.specs.List.{slice_get};
ghost use Rattle.std.specs.Str.{IsUtf8};
ghost use Rattle.subst_error.specs.ErrorFault.{expand_fault};
ghost use Rattle.subst_foreign.specs.Grammar.{grammar, operator_text};
ghost use Rattle.subst_foreign.specs.Reading.{end_of, variable_of, written_operator};
ghost use Rattle.subst_foreign.specs.Template.{seen_by, IsTemplate};
ghost use Rattle.subst_language.specs.Calls.Outcome.{Expands};
ghost use Rattle.subst_language.specs.Language.LookUp.{GivesTexts};
ghost use Rattle.subst_language.specs.Language.Sentence.{ByTree};
ghost use Rattle.subst_language.specs.Language.Value.{value};
ghost use Rattle.subst_c.specs.Pairs.{pair_value};
ghost use Rattle.subst_c.specs.Style.{fault_of_form, fault_of_variable, forms_number, grammar_of, message_after, AreOf, GivenByStyle, HasIndex, HasVariable, IsGiven, IsIn, IsRefusal, IsReported, LiesIn, RefusedByStyle, SetsStyleFault};
ghost use Rattle.subst_c.specs.Text.{are_texts};
ghost use Rattle.subst_c.specs.declared.outcome.TheConstants.{NO_SUCH_STYLE, REFUSED, OUT_OF_MEMORY};
ghost use Rattle.subst_c.specs.Buffer.{FillsBuffer};
ghost use Rattle.subst_c.specs.Results.{IsOther};
ghost use Rattle.subst_c.specs.declared.style.Choices.{Choices};

use crate::buffer;
use crate::fault::NO_SUCH_VARIABLE;
use crate::foreign::{has_name, number_of};
use crate::outcome::{NO_SUCH_STYLE, OUT_OF_MEMORY, REFUSED};
use crate::pairs::{Pair, Pairs, pairs_of};
use std::alloc::{AllocError, Global};
use subst_error::ExpandError;
use subst_foreign::laws::{one_listing, variables_are_in_one_order};
use subst_foreign::{
    FormAt, Forms, Missing, Names, Operator, ShellMap, Style, TextError, TextVariable,
};
use subst_language::{NoEmpty, Variable, laws};
use subst_template::ByteTemplate;

/// A kind of fault: the text has a form that is refused.
pub const REFUSED_FORM: u32 = 7;

/// A style for texts, as the numbers of its choices. `only` has the names for the choice [`Choice::Only`].
#[repr(C)]
#[derive(Clone, Copy)]
pub struct StyleRecord<'a> {
    pub forms: u32,
    pub names: u32,
    pub missing: u32,
    pub only: &'a [Pair<'a>],
}

/// The fault of a text that is expanded by a style, with the fault's span. `form` is 0 unless a form is
/// refused. The message's position and length are 0 unless the fault is an unset variable in a form that
/// takes a message, such as `${NAME?message}`.
#[repr(C)]
#[derive(Clone, Copy)]
pub struct StyleFault {
    pub kind: u32,
    pub form: u32,
    pub position: usize,
    pub length: usize,
    pub message_position: usize,
    pub message_length: usize,
}

/// A choice of the names that are variables.
#[derive(Clone, Copy)]
pub enum Choice {
    /// All names.
    All,
    /// The names of the style's pairs `only`.
    Only,
    /// The names that have a value, and all names in forms with an operator.
    Known,
}

/// The decoded choices of a style: which forms and names are variables, and how an unset one expands.
#[derive(Clone, Copy)]
pub struct Choices {
    pub forms: Forms,
    pub names: Choice,
    pub missing: Missing,
}

impl StyleRecord<'_> {
    /// Returns the choices that have the style's numbers, or `None` if a number belongs to no choice.
    pub(crate) fn choices(&self) -> Option<Choices>
        ensures { MatchOption result ((choices : Choices) → ¬ (AreOf self.now choices))
            (AreOf self.now) }
    {
        let forms = forms_of(self.forms)?;
        let names = match self.names {
            0 => Choice::All,
            1 => Choice::Only,
            2 => Choice::Known,
            _ => return None,
        };
        let missing = match self.missing {
            0 => Missing::Fault,
            1 => Missing::Nothing,
            _ => return None,
        };
        Some(Choices {
            forms,
            names,
            missing,
        })
    }
}

/// Returns the forms with this number, or `None` if there are none.
pub(crate) fn forms_of(number: u32) -> Option<Forms>
    ensures { MatchOption result ((forms : Forms) → number ≢ forms_number forms)
        (λ forms. number ≡ forms_number forms) }
{
    let forms = match number {
        0 => Forms::Own,
        1 => Forms::Envsubst,
        2 => Forms::Shell,
        3 => Forms::Common,
        _ => return None,
    };
    Some(forms)
}

/// The names that are variables by `choice`: all, the names of `only`, or the names with a value in `given`.
/// With [`Choice::Known`], all names in forms with an operator are variables too.
#[derive(Drop)]
pub struct ChosenNames<'o, 'g> {
    choice: Choice,
    only: Pairs<'o>,
    given: Pairs<'g>,
}

/// Returns the names of `text` that are variables by `choice`.
pub fn names_of<'o, 'g>(
    alloc: Global,
    text: &[u8],
    choice: Choice,
    only: &'o [Pair<'o>],
    given: &'g [Pair<'g>],
) -> ChosenNames<'o, 'g>
    ensures choice { result.choice ≡ choice }
    ensures only { result.only.pairs.now ≡ only.now }
    ensures given { result.given.pairs.now ≡ given.now }
{
    ChosenNames {
        choice,
        only: pairs_of(alloc, text, only),
        given: pairs_of(alloc, text, given),
    }
}

impl Names for ChosenNames<'_, '_> {
    ghost use Rattle.subst_c.specs.Style.{is_all, Has};

    ghost all = { λ names. is_all names.choice };

    ghost counts = { λ names. Has names.choice names.only.pairs.now names.given.pairs.now };

    fn are_all(&self) -> bool {
        matches!(self.choice, Choice::All)
    }

    fn has(&self, name: &[u8], operated: bool) -> bool {
        match self.choice {
            Choice::All => true,
            Choice::Only => has_name(&self.only, name),
            Choice::Known => operated || has_name(&self.given, name),
        }
    }
}

/// A reason why a text isn't expanded.
#[derive(Clone, Copy)]
pub enum StyleError<'t> {
    /// A form is refused.
    Refused(FormAt),
    /// A variable is unset.
    Unset(TextVariable<'t>),
    /// An allocation failed.
    OutOfMemory(AllocError),
}

/// Expands `text`, a text of another tool, with `pairs`, by the choices of a style.
///
/// # Errors
///
/// If a form is refused; otherwise if a needed variable is unset. Also if allocation fails.
pub fn fill_in<'t>(
    alloc: Global,
    text: &'t [u8],
    choices: Choices,
    only: &[Pair],
    pairs: &[Pair],
) -> Result<Vec<u8>, StyleError<'t>>
    ensures given { IfOk result (λ output. IsGiven (grammar_of choices only.now pairs.now)
        choices.missing text.now (pair_value pairs.now) output.items) }
    ensures refused { IfErr result (IsRefusal (grammar_of choices only.now pairs.now)
        choices.missing text.now (pair_value pairs.now)) }
    ensures within { IfErr result (IsIn text.now) }
    ensures is_text { are_texts text.now pairs.now ≡ true
        → IfOk result (λ output. IsUtf8 output.items) }
{
    let names = names_of(alloc, text, choices.names, only, pairs);
    let style = Style {
        forms: choices.forms,
        names: &names,
        missing: choices.missing,
    };
    expand_text(alloc, text, style, &names.given)
}

/// Expands a text with the pairs, by way of a template made from the text.
///
/// # Errors
///
/// As for [`fill_in`].
fn expand_text<'t, N: Names>(
    alloc: Global,
    text: &'t [u8],
    style: Style<'_, N>,
    given: &Pairs,
) -> Result<Vec<u8>, StyleError<'t>>
    ensures given { let g = grammar style.entry.forms (N.all style.entry.names.now)
        (N.counts style.entry.names.now) in
        IfOk result (λ output. IsGiven g style.entry.missing text.now
        (pair_value given.now.pairs.now) output.items) }
    ensures refused { let g = grammar style.entry.forms (N.all style.entry.names.now)
        (N.counts style.entry.names.now) in
        IfErr result (IsRefusal g style.entry.missing text.now (pair_value given.now.pairs.now)) }
    ensures within { IfErr result (IsIn text.now) }
    ensures is_text { are_texts text.now given.now.pairs.now ≡ true
        → IfOk result (λ output. IsUtf8 output.items) }
{
    laws::texts_give_texts();
    laws::missing_lists_are_whole();
    one_listing(style);
    let source = match style.byte_template(alloc, text) {
        Ok(source) => source,
        Err(TextError::Refused(first)) => return Err(StyleError::Refused(first)),
        Err(TextError::OutOfMemory(e)) => return Err(StyleError::OutOfMemory(e)),
    };
    let template = match ByteTemplate::from_slice(alloc, &source) {
        Ok(template) => template,
        // A template is a sentence, so only allocation can have failed.
        Err(_) => return Err(StyleError::OutOfMemory(AllocError)),
    };
    match expand(alloc, &template, style.forms, given) {
        Ok(output) => Ok(output),
        Err(ExpandError::OutOfMemory(e)) => Err(StyleError::OutOfMemory(e)),
        Err(ExpandError::NoSuchVariable(missing)) => {
            let name = missing.name.as_bytes();
            match variable_in_text(alloc, text, style, &template, missing.position, name) {
                Ok(Some(variable)) => Err(StyleError::Unset(variable)),
                Ok(None) => Err(StyleError::OutOfMemory(AllocError)),
                Err(e) => Err(StyleError::OutOfMemory(e)),
            }
        }
    }
}

/// Expands `template`, made from a text whose variables have the forms `forms`, with the pairs `given`.
///
/// # Errors
///
/// If a needed variable is unset, or if allocation fails.
fn expand(
    alloc: Global,
    template: &ByteTemplate,
    forms: Forms,
    given: &Pairs,
) -> Result<Vec<u8>, ExpandError>
    ensures { ByTree template.now (λ t. Expands (λ output. output.items) result
        (value 0 t (seen_by forms (pair_value given.now.pairs.now)))) }
{
    match forms {
        Forms::Own | Forms::Envsubst => template.expand(alloc, given),
        Forms::Shell => template.expand(alloc, &ShellMap { map: given }),
        Forms::Common => template.expand(alloc, &NoEmpty { map: given }),
    }
}

/// Returns the variable of `text` that has the index of a variable of `template`, the template for `text`:
/// the variable `name` at `position`. Returns `None` if `template` has no such variable, or if `text` has
/// fewer variables.
///
/// # Errors
///
/// If allocation fails.
pub fn variable_in_text<'t, N: Names>(
    alloc: Global,
    text: &'t [u8],
    style: Style<'_, N>,
    template: &ByteTemplate,
    position: usize,
    name: &[u8],
) -> Result<Option<TextVariable<'t>>, AllocError>
    ensures index { let g = grammar style.entry.forms (N.all style.entry.names.now)
        (N.counts style.entry.names.now) in
        IfOk result (λ found. IfSome found (λ variable.
        HasIndex g text.now template.now position name.now (variable_of variable))) }

    // If `template` is one for `text` and has the variable, so does `text`.
    ensures found { let g = grammar style.entry.forms (N.all style.entry.names.now)
        (N.counts style.entry.names.now) in
        IsTemplate g style.entry.missing text.now template.now
        → HasVariable template.now position name.now → IfOk result (λ found. found ≢ None) }
{
    variables_are_in_one_order(style);
    let listed = template.variables(alloc)?;
    let variables = style.variables(alloc, text)?;
    for (index, variable) in listed.iter().enumerate() {
        if is_at(variable, position, name) {
            return Ok(variables.get(index).copied());
        }
    }
    Ok(None)
}

/// Returns whether the variable has this position and this name.
fn is_at(variable: &Variable, position: usize, name: &[u8]) -> bool
    ensures { IsTrue result ↔ (variable.now.position ≡ position)
        × (variable.now.name.now ≡ name.now) }
{
    variable.position == position && variable.name.as_bytes() == name
}

impl StyleFault {
    /// Returns the fault of a refused form.
    fn of_form(first: FormAt) -> Self
        ensures { result ≡ fault_of_form first }
    {
        StyleFault {
            kind: REFUSED_FORM,
            form: number_of(first.form),
            position: first.position,
            length: 1,
            message_position: 0,
            message_length: 0,
        }
    }

    /// Returns the fault of an unset variable.
    pub(crate) fn of_variable(variable: &TextVariable) -> Self
        requires { end_of (variable_of variable.now) < 2 ^ 64 }
        ensures { result ≡ fault_of_variable (variable_of variable.now) }
    {
        let end = variable.position + variable.name.len();
        StyleFault {
            kind: NO_SUCH_VARIABLE,
            form: 0,
            position: variable.position,
            length: variable.name.len(),
            message_position: message_position(variable.operator, end),
            message_length: variable.message.len(),
        }
    }
}

/// Returns the position of the message after an operator that begins at `end`, or 0 if there is no operator
/// that takes a message.
fn message_position(operator: Option<Operator>, end: usize) -> usize
    requires { end + length (written_operator operator) < 2 ^ 64 }
    ensures { result ≡ message_after operator end }
{
    match operator {
        Some(Operator::Question) => end + 1,
        Some(Operator::ColonQuestion) => end + 2,
        _ => 0,
    }
}

/// Writes the fault of `e` to `fault`, and returns `REFUSED`. Returns `OUT_OF_MEMORY` if `e` has no fault.
pub fn refuse(text: &[u8], e: &StyleError, fault: &mut StyleFault) -> u32
    requires { IsIn text.now e.now }
    ensures refused { result ≡ REFUSED → IsReported e.now fault.new }
    ensures within { result ≡ REFUSED → LiesIn text.now fault.new }
    ensures kept { result ≢ REFUSED → fault.new ≡ fault.old }
    ensures others { result ≢ REFUSED → result ≡ OUT_OF_MEMORY }
{
    let _length = text.len();
    match e {
        StyleError::Refused(first) => {
            *fault = StyleFault::of_form(*first);
            REFUSED
        }
        StyleError::Unset(variable) => {
            *fault = StyleFault::of_variable(variable);
            REFUSED
        }
        StyleError::OutOfMemory(_) => OUT_OF_MEMORY,
    }
}

/// Expands a text by a style. Writes the output to the front of the buffer, or the text's fault to `fault`.
pub fn deliver(
    alloc: Global,
    text: &[u8],
    style: &StyleRecord,
    pairs: &[Pair],
    buffer: &mut [u8],
    needed: &mut usize,
    fault: &mut StyleFault,
) -> u32
    ensures buffer { FillsBuffer (λ x. (are_texts text.now pairs.now ≡ true → IsUtf8 x)
        × GivenByStyle style.now pairs.now text.now x)
        result needed.old needed.new buffer.old buffer.new }
    ensures fault { SetsStyleFault (RefusedByStyle style.now pairs.now text.now) text.now
        result fault.old fault.new }
    ensures style { result ≢ NO_SUCH_STYLE → (choices : Choices) × AreOf style.now choices }
    ensures no_style { result ≡ NO_SUCH_STYLE → (choices : Choices) → ¬ (AreOf style.now choices) }
    ensures others { result ≢ NO_SUCH_STYLE → IsOther result }
{
    let Some(choices) = style.choices() else {
        return NO_SUCH_STYLE;
    };
    match fill_in(alloc, text, choices, style.only, pairs) {
        Ok(output) => buffer::deliver(&output, buffer, needed),
        Err(e) => refuse(text, &e, fault),
    }
}

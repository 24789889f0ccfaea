//! Templates for texts of other tools.

ghost use Rattle.std.specs.Prelude.{◌≡◌, ◌≢◌, ◌↔◌, IfOk, IsTrue, MatchOption, string_bytes};
ghost use Rattle.subst_c.specs.Buffer.{FillsBuffer};
ghost use Rattle.subst_c.specs.Foreign.{IsFormText, form_number, missing_of as spec_missing_of};
ghost use Rattle.subst_c.specs.Pairs.{pair_value};
ghost use Rattle.subst_foreign.specs.Foreign.{HasValue};
ghost use Rattle.subst_foreign.specs.Grammar.{grammar};
ghost use Rattle.subst_foreign.specs.Template.{IsTemplate};
ghost use Rattle.subst_foreign.specs.declared.refused.ShellForm.{ShellForm};
ghost use Rattle.subst_language.specs.Language.Name.{IsName};
ghost use Rattle.subst_c.specs.declared.outcome.TheConstants.{DONE, OUT_OF_MEMORY, ROOM_TOO_SMALL};

use crate::buffer;
use crate::outcome::OUT_OF_MEMORY;
use crate::pairs::Pairs;
use std::alloc::{AllocError, Global};
use subst_foreign::{Forms, Missing, Names, ShellForm, Style};
use subst_language::VariableMap;

/// Writes a template for `text` to the front of the buffer. In `text`, variables have one of the `forms`, and
/// a name that `names` chooses. With the callers' forms and names, no text is refused. If `optional` isn't 0,
/// an unset variable expands to nothing.
pub fn deliver<N: Names>(
    alloc: Global,
    text: &[u8],
    forms: Forms,
    names: &N,
    optional: u32,
    buffer: &mut [u8],
    needed: &mut usize,
) -> u32
    ensures buffer { FillsBuffer (IsTemplate (grammar forms (N.all names.now)
        (N.counts names.now)) (spec_missing_of optional) text.now)
        result needed.old needed.new buffer.old buffer.new }
    ensures others { result ≢ DONE → result ≢ ROOM_TOO_SMALL → result ≡ OUT_OF_MEMORY }
{
    let style = Style {
        forms,
        names,
        missing: missing_of(optional),
    };
    match style.byte_template(alloc, text) {
        Ok(template) => buffer::deliver(&template, buffer, needed),
        Err(_) => OUT_OF_MEMORY,
    }
}

/// Returns how an unset variable expands: to a fault if `optional` is 0, and otherwise to nothing.
fn missing_of(optional: u32) -> Missing
    ensures { result ≡ spec_missing_of optional }
{
    if optional == 0 {
        Missing::Fault
    } else {
        Missing::Nothing
    }
}

/// The choice of the names that pairs have. Before an operator, as in `${NAME:default}`, no name is chosen.
#[derive(Clone, Copy)]
pub struct PlainNames<'n, 'p> {
    pub pairs: &'n Pairs<'p>,
}

impl Names for PlainNames<'_, '_> {
    ghost use Rattle.std.specs.Prelude.{false};
    ghost use Rattle.subst_c.specs.Foreign.{HasPlain};
    ghost use Rattle.subst_c.specs.Pairs.{pair_value};

    ghost all = { λ names. false };

    ghost counts = { λ names. HasPlain (pair_value names.pairs.now.pairs.now) };

    fn are_all(&self) -> bool {
        false
    }

    fn has(&self, name: &[u8], operated: bool) -> bool {
        !operated && has_name(self.pairs, name)
    }
}

/// Returns whether a pair has the name.
pub fn has_name(pairs: &Pairs, name: &[u8]) -> bool
    requires { IsName name.now }
    ensures { IsTrue result ↔ HasValue (pair_value pairs.now.pairs.now) name.now }
{
    match str::from_utf8(name) {
        Ok(name) => pairs.get(name).is_some(),
        Err(_) => false,
    }
}

/// Returns the number of a form of a shell. The numbers never change.
pub fn number_of(form: ShellForm) -> u32
    ensures { result ≡ form_number form }
{
    form as u32 + 1
}

/// Returns the text of the shell form with this number, or an empty text if there is none.
///
/// # Errors
///
/// If allocation fails.
pub fn form_text(alloc: Global, number: u32) -> Result<String, AllocError>
    ensures { IfOk result (λ text. IsFormText number (string_bytes text)) }
{
    match form_of(number) {
        Some(form) => form.to_string(alloc),
        None => Ok(String::new(alloc)),
    }
}

/// Returns the shell form with this number, or `None` if there is none.
fn form_of(number: u32) -> Option<ShellForm>
    ensures { MatchOption result ((form : ShellForm) → number ≢ form_number form)
        (λ form. number ≡ form_number form) }
{
    let form = match number {
        1 => ShellForm::Dollar,
        2 => ShellForm::NoName,
        3 => ShellForm::Minus,
        4 => ShellForm::Question,
        5 => ShellForm::Equals,
        6 => ShellForm::Plus,
        7 => ShellForm::ColonEquals,
        8 => ShellForm::ColonPlus,
        9 => ShellForm::Colon,
        10 => ShellForm::Hash,
        11 => ShellForm::Percent,
        12 => ShellForm::Slash,
        13 => ShellForm::Other,
        14 => ShellForm::Message,
        15 => ShellForm::Brace,
        16 => ShellForm::Unclosed,
        _ => return None,
    };
    Some(form)
}

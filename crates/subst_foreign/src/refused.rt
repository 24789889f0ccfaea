//! Refused forms, and the error of a conversion into a template.

ghost use Rattle.std.specs.Prelude.{◌≡◌, Some};
ghost use Rattle.subst_foreign.specs.declared.refused.TextError.TheVariants as refusing;
ghost use Rattle.subst_foreign.specs.RefusedDisplay.{display_of_error, display_of_form};

use std::alloc::AllocError;
use std::fmt;

/// A form that is refused in texts of some styles.
#[derive(Clone, Copy, Debug, PartialEq, Eq)]
pub enum ShellForm {
    /// A dollar that no name, dollar or opening brace follows, as in `$1`, `$@`, `$(command)` or `5 $`.
    Dollar,
    /// `${` that no name follows, as in `${}`, `${1}` or `${#NAME}`.
    NoName,
    /// `${NAME-default}`.
    Minus,
    /// `${NAME?message}`.
    Question,
    /// `${NAME=default}`, which assigns the variable.
    Equals,
    /// `${NAME+other}`.
    Plus,
    /// `${NAME:=default}`, which assigns the variable.
    ColonEquals,
    /// `${NAME:+other}`.
    ColonPlus,
    /// `${NAME:1:2}`, a substring, or another form whose colon is followed by none of `-`, `?`, `=` and `+`.
    Colon,
    /// `${NAME#pattern}`.
    Hash,
    /// `${NAME%pattern}`.
    Percent,
    /// `${NAME/pattern/other}`.
    Slash,
    /// `${NAME` followed by anything else, as in `${NAME^^}`.
    Other,
    /// An opening brace in the message of `${NAME:?message}`.
    Message,
    /// An opening brace in a default.
    Brace,
    /// A brace that is never closed.
    Unclosed,
}

/// A refused form and its offset.
#[derive(Clone, Copy, Debug, PartialEq, Eq)]
pub struct FormAt {
    /// The byte offset of the dollar or brace that begins the form.
    pub position: usize,
    /// The form.
    pub form: ShellForm,
}

/// The error of a conversion into a template.
#[derive(Clone, Copy, Debug, PartialEq, Eq)]
pub enum TextError {
    /// A form is refused.
    Refused(FormAt),
    /// An allocation failed.
    OutOfMemory(AllocError),
}

impl From<AllocError> for TextError {
    ghost from_gives = { λ e error. error ≡ refusing.OutOfMemory e };

    fn from(e: AllocError) -> TextError {
        TextError::OutOfMemory(e)
    }
}

/// Returns the error text of a refused form.
fn text_of(form: ShellForm) -> &'static str
    ensures { result.now ≡ display_of_form form }
{
    match form {
        ShellForm::Dollar => "a dollar that begins no variable can't be given here",
        ShellForm::NoName => "`${` without a name can't be given here",
        ShellForm::Minus => "`-` of a shell's variable can't be given here",
        ShellForm::Question => "`?` of a shell's variable can't be given here",
        ShellForm::Equals => "`=` of a shell's variable can't be given here",
        ShellForm::Plus => "`+` of a shell's variable can't be given here",
        ShellForm::ColonEquals => "`:=` of a shell's variable can't be given here",
        ShellForm::ColonPlus => "`:+` of a shell's variable can't be given here",
        ShellForm::Colon => "`:` of a shell's variable can't be given here",
        ShellForm::Hash => "`#` of a shell's variable can't be given here",
        ShellForm::Percent => "`%` of a shell's variable can't be given here",
        ShellForm::Slash => "`/` of a shell's variable can't be given here",
        ShellForm::Other => "what is after the name of a shell's variable can't be given here",
        ShellForm::Message => "a message with an opening brace can't be given here",
        ShellForm::Brace => "an opening brace in a default can't be given here",
        ShellForm::Unclosed => "a variable without its closing brace can't be given here",
    }
}

impl fmt::Display for ShellForm {
    ghost output = { λ form. Some (display_of_form form) };

    ghost styled_output = { λ form _. Some (display_of_form form) };

    fn fmt<W: fmt::Write>(&self, f: &mut fmt::Formatter<W>) -> fmt::Result {
        f.write_str(text_of(*self))
    }
}

impl fmt::Display for TextError {
    ghost output = { λ e. Some (display_of_error e) };

    ghost styled_output = { λ e _. Some (display_of_error e) };

    fn fmt<W: fmt::Write>(&self, f: &mut fmt::Formatter<W>) -> fmt::Result {
        match self {
            TextError::Refused(at) => fmt::Display::fmt(&at.form, f),
            TextError::OutOfMemory(_) => f.write_str("out of memory"),
        }
    }
}

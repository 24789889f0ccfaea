//! Faults of a source: their causes, ranges and messages.

ghost use Rattle.std.specs.Prelude.{◌≡◌, IfOk, length};
ghost use Rattle.subst_expander.specs.Ranges.{span_at};
ghost use Rattle.subst_expander.specs.ValuesFaults.{HasOne};

use crate::document::Mistake;
use std::alloc::{AllocError, Global};
use std::fmt;
use std::ops::Range;
use subst::Error;
use subst::foreign::ShellForm;

/// A diagnostic: the cause of a fault, and its range in the source.
#[derive(Drop)]
pub struct Fault {
    /// The path of the document's string that has the fault. It is empty if the document is a single string,
    /// or if no string of a document has the fault.
    pub path: String,
    /// The range of the fault, in byte offsets.
    pub range: Range<usize>,
    /// The cause.
    pub cause: Cause,
}

/// A cause for which a source is refused.
#[derive(Drop)]
pub enum Cause {
    /// The library refuses the template with this error.
    Refused(Error),
    /// A required variable of another tool's text is unset, or has `:?` and is empty.
    Unset(Unset),
    /// The environment's value of the variable with this name isn't UTF-8.
    Unreadable(String),
    /// The source isn't UTF-8.
    NotUtf8,
    /// The source isn't a document of its format, as this message of the format's reader explains.
    NotADocument(String),
    /// The source isn't a document of its format because of this mistake.
    Mistake(Mistake),
    /// The document's output, or the positions of its strings, couldn't be confirmed to be right.
    NotConfirmed,
    /// A line of a values file or a `.env` file is wrong, as this message explains.
    NoVariable(&'static str),
    /// This form in another tool's text is refused.
    Form(ShellForm),
    /// A default looks like another tool's, as this message explains.
    Default(String),
}

/// An unset required variable of another tool's text, or an empty variable with `:?`.
#[derive(Drop)]
pub struct Unset {
    /// The name.
    pub name: String,
    /// Whether the variable is set, but empty.
    pub is_empty: bool,
    /// The error message of the variable's `?` or `:?`, with control characters escaped. It is empty if there
    /// is none.
    pub message: String,
}

impl fmt::Display for Unset {
    ghost use Rattle.std.specs.Prelude.{Some};
    ghost use Rattle.subst_expander.specs.Messages.{text_of_unset};

    ghost output = { λ it. Some (text_of_unset it) };

    fn fmt<W: fmt::Write>(&self, f: &mut fmt::Formatter<W>) -> fmt::Result {
        let name = &self.name;
        if self.is_empty {
            write!(f, "${name} is empty")?;
        } else {
            write!(f, "No such variable: ${name}")?;
        }
        if self.message.is_empty() {
            Ok(())
        } else {
            write!(f, ": {}", self.message)
        }
    }
}

impl fmt::Display for Cause {
    ghost use Rattle.subst_expander.specs.Messages.{text_of};

    ghost output = { text_of };

    fn fmt<W: fmt::Write>(&self, f: &mut fmt::Formatter<W>) -> fmt::Result {
        match self {
            Cause::Refused(e) => write!(f, "{e}"),
            Cause::Unset(unset) => write!(f, "{unset}"),
            Cause::Unreadable(name) => {
                write!(
                    f,
                    "The value of this variable in the environment isn't UTF-8: ${name}"
                )
            }
            Cause::NotUtf8 => f.write_str("invalid UTF-8"),
            Cause::NotADocument(message) => f.write_str(message),
            Cause::Mistake(mistake) => write!(f, "{mistake}"),
            Cause::NotConfirmed => {
                f.write_str("the result for this document can't be confirmed")
            }
            Cause::NoVariable(why) => f.write_str(why),
            Cause::Form(form) => f.write_str(instead_of(*form)),
            Cause::Default(text) => f.write_str(text),
        }
    }
}

/// Returns a list of one fault, with an empty path.
///
/// # Errors
///
/// If allocation fails.
pub fn one_fault(alloc: Global, range: Range<usize>, cause: Cause) -> Result<Vec<Fault>, AllocError>
    ensures { IfOk result (λ faults.
        HasOne (λ it. (it.cause ≡ cause) × (it.range ≡ range)) faults.items) }
{
    let mut faults = Vec::new(alloc);
    faults.push(Fault {
        path: String::new(alloc),
        range,
        cause,
    })?;
    Ok(faults)
}

/// Returns the byte range of a name that begins at a position.
pub fn range_of_name(position: usize, name: &str) -> Range<usize>
    ensures { result ≡ span_at position (length name.now) }
{
    position..position.saturating_add(name.len())
}

/// Returns the message for a refused form: what is wrong, and what to do instead.
fn instead_of(form: ShellForm) -> &'static str {
    match form {
        ShellForm::NoName => "`${` without a name; write `$$` for a dollar",
        ShellForm::Equals | ShellForm::ColonEquals => {
            "`=` assigns, which isn't supported; write `${NAME:-default}` for a default"
        }
        ShellForm::Hash | ShellForm::Percent | ShellForm::Slash => {
            "patterns aren't supported; apply the pattern before, and set a variable to the result"
        }
        ShellForm::Colon => {
            "`:` takes a substring, which isn't supported; write `${NAME:-default}` for a default"
        }
        ShellForm::Brace =>
            "an opening brace in a default; write the variable without braces, as in `${NAME:$OTHER}`",
        ShellForm::Unclosed => "a variable without a closing brace; write `}` after it",
        ShellForm::Dollar => "a dollar that begins no variable; write `$$` for a dollar",
        ShellForm::Message => "an opening brace in the message after `?`; remove it",
        ShellForm::Minus
        | ShellForm::Question
        | ShellForm::Plus
        | ShellForm::ColonPlus
        | ShellForm::Other => "an unknown operator; write `$$` for a dollar",
    }
}
